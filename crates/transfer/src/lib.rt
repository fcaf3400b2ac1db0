// Words moved between what the caller lends and the working words, before a run and after it; and two states compared.
#![tactic(auto)]

ghost use Rattle.std.specs.Prelude.{◌≡◌, not, ◌||◌, ◌+◌, ◌*◌, ◌<◌, ◌≤◌, eqb, length};
ghost use Rattle.std.proofs.lemmas.List.Edits.{sets};
ghost use Rattle.location.specs.Sets.{limit, member};
ghost use Rattle.rules.specs.Rules.Limits.{max_entries};
ghost use Rattle.rules.specs.Rules.Plain.{values};
ghost use Rattle.rules.specs.Rules.JobFile.{little, words_at};
ghost use Rattle.rules.specs.Rules.Calls.{table_size, table_words, end_words, written};
ghost use Rattle.rules.specs.Rules.Pairs.{alike_from};
ghost use Rattle.work.specs.Layout.{operand_base, log_base};
ghost use Rattle.work.specs.Machines.{table_in, state_in};
ghost use Rattle.transfer.specs.Loads.{StateLoaded};
ghost use Rattle.transfer.specs.Tables.{entry_words_at};

use location::{Location, LocationSet};
use rules::limits::MAX_ENTRIES;

// The bytes of a word in a state.
pub const WORD_BYTES: usize = 8;

// The words of an entry in an end area: its address and its value.
const ENTRY_WORDS: usize = 2;

// The words of the table outside the image in an end area, the rules' tableSize: the count, then the entries.
pub const TABLE_WORDS: usize = 1 + ENTRY_WORDS * MAX_ENTRIES;

// Word number l of those that stand at an offset of the bytes.
pub fn word_at(bytes: &[u8], at: usize, l: usize) -> u64
    requires { at + 8 * l + 8 ≤ length bytes.now }
    ensures { result ≡ little bytes.now (at + 8 * l) 8 }
{
    token::word(bytes, at + WORD_BYTES * l)
}

// Each of n locations takes its word of those at an offset of the bytes, with the set of itself alone. Nothing is remembered outside the image,
// whatever the words held.
pub fn load_state(bytes: &[u8], at: usize, n: usize, work: &mut [u64])
    requires { (at + 8 * n ≤ length bytes.now) × (log_base ≤ length work.old) × (n ≤ limit) }
    ensures { StateLoaded bytes.now at n work.old work.new }
{
    for loaded in 0..n {
        work::store_own(work, Location::new(loaded), word_at(bytes, at, loaded));
    }
    work::clear_table(work);
}

// Registers then cells as they are now, from the front of an area.
fn save_values(work: &[u64], n: usize, area: &mut [u64])
    requires { (operand_base n ≤ length work.now) × (n ≤ length area.old) }
    ensures { area.new ≡ written (values (state_in work.now n).inside) area.old }
{
    for saved in 0..n {
        area[saved] = work::load_value(work, Location::new(saved));
    }
}

// Address and value of entry i of the table, from a place of an area on; zeros where the table has no entry i.
fn save_entry(work: &[u64], i: usize, area: &mut [u64], at: usize)
    requires { (i < max_entries) × (log_base ≤ length work.now) × (at + 2 ≤ length area.old) }
    ensures { area.new ≡ sets area.old at (entry_words_at work.now i) }
{
    if i < work::entry_count(work) {
        let address = work::address_of(work, i);
        let v = work::load_entry(work, i);
        area[at] = address;
        area[at + 1] = v.value;
        return;
    }
    area[at] = 0;
    area[at + 1] = 0;
}

// The table outside the image, from word n of an area on.
fn save_table(work: &[u64], n: usize, area: &mut [u64])
    requires { (log_base ≤ length work.now) × (n + table_size ≤ length area.old) }
    ensures { area.new ≡ sets area.old n (table_words (table_in work.now)) }
{
    let count = work::entry_count(work);
    area[n] = count as u64;
    for i in 0..MAX_ENTRIES {
        save_entry(work, i, area, n + 1 + ENTRY_WORDS * i);
    }
}

// The state as it is now, from the front of an end area: registers then cells, then the table.
pub fn save_state(work: &[u64], n: usize, area: &mut [u64])
    requires { (operand_base n ≤ length work.now) × (log_base ≤ length work.now) × (n + table_size ≤ length area.old) }
    ensures { area.new ≡ written (end_words (state_in work.now n)) area.old }
{
    save_values(work, n, area);
    save_table(work, n, area);
}

// Whether a location is not public, or holds the same word in both states, at an offset of the first bytes and at 0 of the second.
fn alike_at(public: LocationSet, first: &[u8], at: usize, second: &[u8], l: usize) -> bool
    requires { (at + 8 * l + 8 ≤ length first.now) × (8 * l + 8 ≤ length second.now) }
    ensures { result ≡ (not (member public l) || eqb (little first.now (at + 8 * l) 8) (little second.now (8 * l) 8)) }
{
    let equal = word_at(first, at, l) == word_at(second, 0, l);
    if !public.member(Location::new(l)) {
        return true;
    }
    equal
}

// Whether two states of n words, at an offset of the first bytes and at 0 of the second, hold the same word at each public location.
pub fn alike_bytes(public: LocationSet, first: &[u8], at: usize, second: &[u8], n: usize) -> bool
    requires { (at + 8 * n ≤ length first.now) × (8 * n ≤ length second.now) }
    ensures { result ≡ alike_from public 0 (words_at n first.now at) (words_at n second.now 0) }
{
    for l in 0..n {
        if !alike_at(public, first, at, second, l) {
            return false;
        }
    }
    true
}
