// What is reported of each location of D: the observation that brought it in. It stands in one of the working words a location, packed:
// index * INDEX + cause * CAUSE + label.
#![tactic(auto)]

ghost use Rattle.std.specs.Prelude.{◌≡◌, ◌+◌, ◌^◌, ◌<◌, ◌≤◌, length, []};
ghost use Rattle.location.specs.Sets.{limit};
ghost use Rattle.rules.specs.Rules.Limits.{max_instructions};
ghost use Rattle.rules.specs.Rules.Calls.{working_words};
ghost use Rattle.rules.specs.Rules.Firsts.{no_report, firsts_of};
ghost use Rattle.firsts.specs.Reports.{report, packed, cause_at, unpacked, reports_in};
ghost use Rattle.firsts.specs.Recording.{recorded_bit, recorded_bits, recorded};

use location::LocationSet;
use rules::{Cause, First};

// What an index counts in a packed word, and what a cause does; a label is less than CAUSE.
const INDEX: u64 = 2048;

const CAUSE: u64 = 512;

const CAUSES: u64 = 4;
// How many locations a word of a set has, by a short name.
const BITS: usize = LocationSet::BITS;

// A number, as it stands in two bits of a working word: each stands for some rule, so that nothing is refused as by `TryFrom`.
fn cause_of(number: u64) -> Cause
    ensures { result ≡ cause_at number }
{
    match number {
        0 => Cause::Branch,
        1 => Cause::Jump,
        2 => Cause::Load,
        _ => Cause::Store,
    }
}

// The word of a report.
fn pack(index: usize, cause: Cause, label: usize) -> u64
    requires { (index < 2 ^ 32) × (label < max_instructions) }
    ensures { result ≡ packed (report index cause label) }
{
    index as u64 * INDEX + u64::from(cause) * CAUSE + label as u64
}

// The report of a word, whatever it is.
fn unpack(word: u64) -> First
    ensures { result ≡ unpacked word }
{
    First {
        index: (word / INDEX % 4294967296) as u32,
        label: (word % CAUSE) as u16,
        cause: cause_of(word / CAUSE % CAUSES),
    }
}

// The word is stored for a location that is in the observed set and not in D: each by the lowest bit of a word.
fn record_bit(work: &mut [u64], at: usize, seen: u64, full: u64, word: u64)
    requires { at < length work.old }
    ensures { work.new ≡ recorded_bit word seen full work.old at }
{
    if seen % 2 != 1 {
        return;
    }
    if full % 2 == 1 {
        return;
    }
    work[at] = word;
}

// For each of the locations of a word of the observed set and of D; after the last one of the observed set there is nothing to store.
fn record_bits(work: &mut [u64], from: usize, seen: u64, full: u64, word: u64)
    requires { from + 64 ≤ length work.old }
    ensures { work.new ≡ recorded_bits word seen full work.old from 64 }
{
    let mut s = seen;
    let mut f = full;
    for at in from..from + BITS {
        if s == 0 {
            return;
        }
        record_bit(work, at, s, f, word);
        s /= 2;
        f /= 2;
    }
}

// For all words of the two sets.
fn record_new(work: &mut [u64], full: LocationSet, seen: LocationSet, word: u64)
    requires { working_words ≤ length work.old }
    ensures { work.new ≡ recorded word full seen work.old }
{
    for k in 0..seen.words.len() {
        record_bits(
            work,
            work::REPORTS + BITS * k,
            seen.words[k],
            full.words[k],
            word,
        );
    }
}

// The locations that an observed set brings into D get their report: the index of the observation, the rule and the label.
pub fn record(
    work: &mut [u64],
    full: LocationSet,
    seen: LocationSet,
    index: usize,
    cause: Cause,
    label: usize,
)
    requires { (working_words ≤ length work.old) × (index < 2 ^ 32) × (label < max_instructions) }
    ensures { work.new ≡ recorded (packed (report index cause label)) full seen work.old }
{
    if seen.subset(full) {
        return;
    }
    record_new(work, full, seen, pack(index, cause, label));
}

// Of a location that is not in D.
fn no_report() -> First
    ensures { result ≡ no_report }
{
    First {
        index: 0,
        label: 0,
        cause: Cause::Branch,
    }
}

// Nothing is reported of any location.
pub fn nothing() -> [First; LocationSet::LIMIT]
    ensures { result ≡ firsts_of [] }
{
    let first = no_report();
    [first; LocationSet::LIMIT]
}

// What is reported of every location: of those that are not in D nothing.
pub fn reports(work: &[u64], full: LocationSet) -> [First; LocationSet::LIMIT]
    requires { working_words ≤ length work.now }
    ensures { result ≡ reports_in work.now full 0 limit }
{
    let mut firsts = nothing();
    for l in full.members() {
        let i = l.index();
        firsts[i] = unpack(work[work::REPORTS + i]);
    }
    firsts
}
