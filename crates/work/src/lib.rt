// The state of a run in the working words that the caller lends: an operand for each location, the table of stores outside the image, the
// log of changes, the open branches, the words of the reports, the table of labels and the window costs. specs/Layout.antt has the layout of
// the constants below for the proofs.
// The words go as the slice that the caller lends (C interface), and each function asks for just the words that it names. A struct with the length as its
// invariant would ask for all of them everywhere, and reach them by one reference more.
#![tactic(auto)]

pub mod machine;

ghost use Rattle.std.specs.Prelude.{◌≡◌, ℕ, ◌+◌, ◌-◌, ◌*◌, ◌<◌, ◌≤◌, length, get_or, drop, set, replicate};
ghost use Rattle.std.proofs.lemmas.List.Edits.{sets};
ghost use Rattle.location.specs.Sets.{limit, single};
ghost use Rattle.rules.specs.Rules.Expressions.{tagged};
ghost use Rattle.rules.specs.Rules.Limits.{kinds, max_entries};
ghost use Rattle.rules.specs.Rules.Calls.{written, working_words};
ghost use Rattle.work.specs.Layout.{operand_base, operands, entry_count, address_base, log_base, change_base, first_branch, branch_base};
ghost use Rattle.work.specs.Layout.{labels, cost_base};
ghost use Rattle.work.specs.Words.{set_in, tagged_in, stored_in, set_at, tagged_at, stored, count_in, entry_at, appended};
ghost use Rattle.work.specs.Words.{number_at, operand_logged, changed, extended, undone, branch_at, branch_stored, costs_in};

use location::{Location, LocationSet};
use rules::Tagged;
use rules::limits::{MAX_ENTRIES, MAX_INSTRUCTIONS};

// Operand k stands from OPERAND * k on: the words of the set, then the value. With the set first a load reads the same pairs of words as the
// store before it wrote. Location l has operand l, entry i of the table outside the image operand LocationSet::LIMIT + i.
// A number, and no enum of the three: one function logs and undoes them all without a test, in each change (docs/DECISIONS.md, "The code").
pub const OPERAND: usize = VALUE + 1;
// How many words the set has, so the place of the value in an operand.
pub const VALUE: usize = 4;
// How many operands of locations and entries there are.
pub const OPERANDS: usize = LocationSet::LIMIT + MAX_ENTRIES;
// How many entries the table has: the value of one operand more, so that the log has it as it has any operand.
pub const ENTRY_COUNT: usize = OPERAND * OPERANDS + VALUE;
// Entry i has its address at ADDRESSES + i.
pub const ADDRESSES: usize = ENTRY_COUNT + 1;
// Change k of the log stands from LOG + CHANGE * k on: the number of an operand, then that operand as it was before.
pub const LOG: usize = 1680;
// How many words a change has.
pub const CHANGE: usize = 6;
// Branch k stands from LOG + (BRANCHES - BRANCH * k) on, downwards towards the log and never below LOG.
pub const BRANCHES: usize = 1202;
// How many words a branch has.
pub const BRANCH: usize = 4;
// Location l has the word of its report, as the crate `firsts` makes it, at REPORTS + l. The machine's words end before it.
pub const REPORTS: usize = 2886;
// Label i has the word of its instruction, as the crate `descriptor` makes it, at LABELS + i.
pub const LABELS: usize = 3576;
// Kind k of instruction has its window cost at COSTS + k, behind the words of the labels.
pub const COSTS: usize = LABELS + MAX_INSTRUCTIONS;
// How many words there are; specs/Layout.antt says which of them are free.
pub const WORDS: usize = 4096;

// What the words hold of an open branch: `outer` is what was left of the window of the branch below when it was opened (of the first
// branch the window with nothing open), and `mark` the length of the log then.
#[derive(Drop)]
pub struct OpenBranch {
    pub id: usize,
    pub target: usize,
    pub outer: usize,
    pub mark: usize,
}

fn set_at(work: &[u64], at: usize) -> LocationSet
    requires { at + 4 ≤ length work.now }
    ensures { result ≡ set_in work.now at }
{
    let words = [work[at], work[at + 1], work[at + 2], work[at + 3]];
    LocationSet { words }
}

fn load_at(work: &[u64], at: usize) -> Tagged
    requires { at + 5 ≤ length work.now }
    ensures { result ≡ tagged_in work.now at }
{
    Tagged {
        deps: set_at(work, at),
        value: work[at + VALUE],
    }
}

// Word by word: the value follows the set's words in one row, and `copy_from_slice` for four of the five reads no plainer.
fn store_at(work: &mut [u64], at: usize, value: u64, deps: LocationSet)
    requires { at + 5 ≤ length work.old }
    ensures { work.new ≡ stored_in work.old at (tagged value deps) }
{
    work[at] = deps.words[0];
    work[at + 1] = deps.words[1];
    work[at + 2] = deps.words[2];
    work[at + 3] = deps.words[3];
    work[at + VALUE] = value;
}

pub fn load(work: &[u64], l: Location) -> Tagged
    requires { operand_base l.0 + 5 ≤ length work.now }
    ensures { result ≡ tagged_at work.now l.0 }
{
    load_at(work, OPERAND * l.index())
}

// The set of a location alone: its value is neither asked for nor read.
pub fn load_set(work: &[u64], l: Location) -> LocationSet
    requires { operand_base l.0 + 4 ≤ length work.now }
    ensures { result ≡ set_at work.now l.0 }
{
    set_at(work, OPERAND * l.index())
}

// The value of a location alone.
pub fn load_value(work: &[u64], l: Location) -> u64
    requires { operand_base l.0 + 5 ≤ length work.now }
    ensures { result ≡ (tagged_at work.now l.0).value }
{
    work[OPERAND * l.index() + VALUE]
}

// Operand k takes v.
pub fn store(work: &mut [u64], k: usize, v: Tagged)
    requires { operand_base k + 5 ≤ length work.old }
    ensures { work.new ≡ stored work.old k v }
{
    store_at(work, OPERAND * k, v.value, v.deps);
}

// Location l takes a value that rests on l alone: of its set only the word that has its bit is not 0.
pub fn store_own(work: &mut [u64], l: Location, value: u64)
    requires l_lt_limit { l.0 < limit }
    requires l_in_bounds { operand_base l.0 + 5 ≤ length work.old }
    ensures { work.new ≡ stored work.old l.0 (tagged value (single l.0)) }
{
    let k = l.index();
    let at = OPERAND * k;
    store_at(work, at, value, LocationSet::empty());
    work[at + k / 64] = 1 << (k % 64);
}

// What operand k is goes to the log as change number count.
fn log_operand(work: &mut [u64], count: usize, k: usize)
    requires k_in_bounds { operand_base k + 5 ≤ length work.old }
    requires count_in_bounds { change_base count + 6 ≤ length work.old }
    ensures { work.new ≡ operand_logged work.old count k }
{
    let at = LOG + CHANGE * count;
    let old = load_at(work, OPERAND * k);
    work[at] = k as u64;
    store_at(work, at + 1, old.value, old.deps);
}

// Operand k takes v; what it was before goes to the log as change number count.
pub fn change(work: &mut [u64], count: usize, k: usize, v: Tagged)
    requires k_in_bounds { operand_base k + 5 ≤ length work.old }
    requires count_in_bounds { change_base count + 6 ≤ length work.old }
    ensures { work.new ≡ changed work.old count k v }
{
    log_operand(work, count, k);
    store(work, k, v);
}

// How many entries the table has: a count over the limit is read as the limit.
pub fn entry_count(work: &[u64]) -> usize
    requires { entry_count < length work.now }
    ensures { result ≡ count_in work.now }
{
    let count = work[ENTRY_COUNT];
    if count < MAX_ENTRIES as u64 {
        return count as usize;
    }
    MAX_ENTRIES
}

// The address of entry i.
pub fn address_of(work: &[u64], i: usize) -> u64
    requires { address_base i < length work.now }
    ensures { result ≡ (entry_at work.now i).address }
{
    work[ADDRESSES + i]
}

// The word of entry i.
pub fn load_entry(work: &[u64], i: usize) -> Tagged
    requires { operand_base (limit + i) + 5 ≤ length work.now }
    ensures { result ≡ (entry_at work.now i).word }
{
    load_at(work, OPERAND * (LocationSet::LIMIT + i))
}

// The table has no entry.
pub fn clear_table(work: &mut [u64])
    requires { entry_count < length work.old }
    ensures { work.new ≡ set work.old entry_count 0 }
{
    work[ENTRY_COUNT] = 0;
}

// One entry more, after i that there are.
pub fn append(work: &mut [u64], i: usize, address: u64, v: Tagged)
    requires { (i < max_entries) × (log_base ≤ length work.old) }
    ensures { work.new ≡ appended work.old i address v }
{
    store(work, LocationSet::LIMIT + i, v);
    work[ADDRESSES + i] = address;
    work[ENTRY_COUNT] = (i + 1) as u64;
}

// The same, logged as change number count: what it changes is the count of entries.
pub fn extend(work: &mut [u64], count: usize, i: usize, address: u64, v: Tagged)
    requires { (i < max_entries) × (change_base count + 6 ≤ length work.old) }
    ensures { work.new ≡ extended work.old count i address v }
{
    log_operand(work, count, OPERANDS);
    append(work, i, address, v);
}

// The changes from the last of count down to number mark are undone. No operand is tested: there is one of each number in the log.
pub fn undo(work: &mut [u64], count: usize, mark: usize)
    requires count_in_bounds { change_base count ≤ length work.old }
    requires by_index { (j : ℕ) → mark ≤ j → j < count → number_at work.old j ≤ operands }
    ensures { work.new ≡ undone work.old count (count - mark) }
{
    for k in (mark..count).rev() {
        let at = LOG + CHANGE * k;
        let before = load_at(work, at + 1);
        let x = work[at] as usize;
        store(work, x, before);
    }
}

// What stands as branch number k.
pub fn load_branch(work: &[u64], k: usize) -> OpenBranch
    requires k_bound { 4 * k ≤ first_branch }
    requires k_in_bounds { branch_base k + 4 ≤ length work.now }
    ensures { result ≡ branch_at work.now k }
{
    let at = LOG + (BRANCHES - BRANCH * k);
    OpenBranch {
        id: work[at] as usize,
        target: work[at + 1] as usize,
        outer: work[at + 2] as usize,
        mark: work[at + 3] as usize,
    }
}

pub fn push_branch(work: &mut [u64], k: usize, b: OpenBranch)
    requires k_bound { 4 * k ≤ first_branch }
    requires k_in_bounds { branch_base k + 4 ≤ length work.old }
    ensures { work.new ≡ branch_stored work.old k b }
{
    let at = LOG + (BRANCHES - BRANCH * k);
    work[at] = b.id as u64;
    work[at + 1] = b.target as u64;
    work[at + 2] = b.outer as u64;
    work[at + 3] = b.mark as u64;
}

// The window cost of a kind of instruction.
pub fn cost_of(work: &[u64], kind: usize) -> u64
    requires { (kind < kinds) × (cost_base + kind < length work.now) }
    ensures { result ≡ get_or (costs_in (drop labels work.now)) kind 0 }
{
    work[COSTS + kind]
}

// The window costs become those of a table, a byte each.
pub fn store_costs(work: &mut [u64], costs: &[u8])
    requires { cost_base + length costs.now ≤ length work.old }
    ensures { work.new ≡ sets work.old cost_base costs.now }
{
    for (k, cost) in costs.iter().enumerate() {
        work[COSTS + k] = u64::from(*cost);
    }
}

// The working words become 0.
pub fn clear(work: &mut [u64])
    requires { working_words ≤ length work.old }
    ensures { work.new ≡ written (replicate working_words 0) work.old }
{
    work[..WORDS].fill(0);
}
