// The trailer of a job file: its numbers, their limits (refusal 2) and the offsets (refusal 3).
#![tactic(auto)]

ghost use Rattle.std.specs.Prelude.{◌≡◌, ◌+◌, ◌≤◌, length};
ghost use Rattle.rules.specs.Rules.Limits.{max_cells, trailer_size};
ghost use Rattle.rules.specs.Rules.JobFile.{little, trailer_at, limits, offsets};

use rules::Trailer;
use rules::limits::{
    LIST_SIZE, MAX_BUDGET, MAX_CELLS, MAX_INSTRUCTIONS, MAX_WINDOW, REGISTERS_SIZE, TRAILER_SIZE,
};

// The bytes after the state: the public list and the trailer.
const TAIL: usize = LIST_SIZE + TRAILER_SIZE;

// A number of two bytes.
fn field(s: &[u8], at: usize) -> usize
    requires { at + 2 ≤ length s.now }
    ensures { result ≡ little s.now at 2 }
{
    token::two_bytes(s, at) as usize
}

// The numbers of the trailer, in the 16 bytes at an offset.
#[tactic(auto, unfolding(rules::specs::Rules::JobFile::trailer_at))]
pub fn trailer_at(s: &[u8], at: usize) -> Trailer
    requires { at + trailer_size ≤ length s.now }
    ensures { result ≡ trailer_at s.now at }
{
    Trailer {
        state: field(s, at),
        list: field(s, at + 2),
        count: field(s, at + 4),
        cells: field(s, at + 6),
        window: field(s, at + 8),
        zero: field(s, at + 10),
        budget: token::four_bytes(s, at + 12) as usize,
    }
}

// Whether each number is within its limits, and the zero is 0.
#[tactic(auto, unfolding(rules::specs::Rules::JobFile::limits))]
pub fn limits_hold(t: Trailer) -> bool
    ensures { result ≡ limits t }
{
    (1..=MAX_INSTRUCTIONS).contains(&t.count)
        && t.cells <= MAX_CELLS
        && t.window <= MAX_WINDOW
        && t.zero == 0
        && t.budget <= MAX_BUDGET
}

// Whether the offsets of the state and of the list fit each other, the cells and the file's length.
#[tactic(auto, unfolding(rules::specs::Rules::JobFile::offsets))]
pub fn offsets_hold(t: Trailer, len: usize) -> bool
    requires { t.cells ≤ max_cells }
    ensures { result ≡ offsets t len }
{
    t.state <= t.list
        && t.list - t.state == REGISTERS_SIZE + 8 * t.cells
        && TAIL <= len
        && t.list == len - TAIL
}
