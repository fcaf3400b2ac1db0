// A test load of an accepted job: a new state from a seed, and the check of the pair on it. The job's own run is made once: it is the
// first run of the pair, and its plain set says which words the new state keeps.
#![tactic(auto)]

ghost use Rattle.std.specs.Prelude.{◌≡◌, Ok, ◌+◌, ◌*◌, ◌<◌, ◌≤◌, length};
ghost use Rattle.location.specs.Sets.{union};
ghost use Rattle.rules.specs.Rules.JobFile.{words_at};
ghost use Rattle.rules.specs.Rules.Encoding.{word_bytes, Bytes};
ghost use Rattle.rules.specs.Rules.Calls.{room, written};
ghost use Rattle.rules.specs.Rules.TestLoads.{next_word, new_words, test_load_call};
ghost use Rattle.rules.specs.Rules.TestLoadPromises.{test_load_at_entry, test_load_at_exit};
ghost use Rattle.rules.specs.Rules.Demands.{Exact};
ghost use Rattle.pair.specs.Runs.{OwnRan};
ghost use Rattle.test_load.specs.Loads.{new_word_of, own_words, Loadable, NewStateRan};

use job::accepted::AcceptedJob;
use location::{Location, LocationSet};
use pair::SecondRun;
use rules::{Compared, Counts, Refusal, TestLoad, TestLoadAnswer};
use window_costs::table::WindowCosts;

// The word of xorshift after x.
fn next_word(x: u64) -> u64
    ensures { result ≡ next_word x }
{
    let y = word::xor(x, word::shl(x, 13));
    let z = word::xor(y, word::shr(y, 7));
    word::xor(z, word::shl(z, 17))
}

// A word of a new state, and the last word of xorshift up to there.
#[derive(Drop)]
struct NewWord {
    word: u64,
    last: u64,
}

// The word of a location that holds `own` in the job's state.
fn new_word(keep: bool, own: u64, last: u64) -> NewWord
    ensures { result ≡ new_word_of keep own last }
{
    if keep {
        return NewWord { word: own, last };
    }
    let made = next_word(last);
    NewWord {
        word: made,
        last: made,
    }
}

// The new state of n locations, from the state at an offset of the bytes: the words in the set are kept. That the bytes are bytes is said for a
// caller that has them in a struct.
fn write_state(bytes: &[u8], at: usize, n: usize, kept: LocationSet, seed: u64, state: &mut [u8])
    requires { (at + 8 * n ≤ length bytes.now) × (8 * n ≤ length state.old) }
    ensures state { state.new ≡ written (word_bytes (new_words kept 0 seed (words_at n bytes.now at))) state.old }
    ensures bytes { Bytes bytes.now }
{
    let mut last = seed;
    let mut place = 0;
    for l in 0..n {
        let keep = kept.member(Location::new(l));
        let own = transfer::word_at(bytes, at, l);
        let made = new_word(keep, own, last);
        place = byte_writer::put_number(state, place, made.word, transfer::WORD_BYTES);
        last = made.last;
    }
}

// The new state is made and run. The job's own run has been made: c are its counts, `plain` is its plain set.
fn run_new_state(
    job: &AcceptedJob,
    seed: u64,
    costs: &WindowCosts,
    plain: LocationSet,
    c: Counts,
    first_trace: &[u64],
    second_trace: &mut [u64],
    work: &mut [u64],
    state: &mut [u8],
) -> SecondRun
    requires { Loadable job.now first_trace.now second_trace.old work.old state.old × OwnRan job.now costs.now c first_trace.now }
    ensures { NewStateRan job.now costs.now (new_words (union job.now.public plain) 0 seed (own_words job.now))
        (room first_trace.now) second_trace.old work.old state.old second_trace.new work.new state.new result }
{
    let n = job.trailer.locations();
    let kept = job.public.union(plain);
    write_state(job.bytes, job.trailer.state, n, kept, seed, state);
    let second = &state[..transfer::WORD_BYTES * n];
    pair::run_second(job, second, costs, c, first_trace, second_trace, work)
}

// The job's own run; where it has not finished it is all that is done.
fn run_load(
    job: &AcceptedJob,
    seed: u64,
    costs: &WindowCosts,
    first_trace: &mut [u64],
    second_trace: &mut [u64],
    work: &mut [u64],
    state: &mut [u8],
) -> TestLoad
    requires { Loadable job.now first_trace.old second_trace.old work.old state.old × (0 < seed) }
    ensures { Exact (test_load_call job.now.bytes.now seed costs.now.entries.now (test_load_at_entry first_trace second_trace work state)) (Ok result)
        (test_load_at_exit first_trace second_trace work state) }
{
    let own = pair::run_own(job, costs, work, first_trace);
    if !judgement::finished(own.counts.stop) {
        work::clear(work);
        return TestLoad::Undecided(own.counts);
    }
    let other = run_new_state(
        job,
        seed,
        costs,
        own.plain,
        own.counts,
        first_trace,
        second_trace,
        work,
        state,
    );
    TestLoad::Compared(Compared {
        word: other.word,
        first: own.counts,
        second: other.counts,
    })
}

// The test load of an accepted job: a table that is none, then too short or unequal areas, then a seed of 0, then too few bytes for the new
// state are refused before anything is written.
pub fn test_accepted(
    job: &AcceptedJob,
    seed: u64,
    costs: &[u8],
    first_trace: &mut [u64],
    second_trace: &mut [u64],
    work: &mut [u64],
    state: &mut [u8],
) -> TestLoadAnswer
    ensures { Exact (test_load_call job.now.bytes.now seed costs.now (test_load_at_entry first_trace second_trace work state)) result
        (test_load_at_exit first_trace second_trace work state) }
{
    let costs = WindowCosts::new(costs)?;
    if !pair::areas_fit(first_trace, second_trace, work) {
        return Err(Refusal::Areas);
    }
    if seed == 0 {
        return Err(Refusal::Seed);
    }
    if state.len() < transfer::WORD_BYTES * job.trailer.locations() {
        return Err(Refusal::Output);
    }
    Ok(run_load(job, seed, &costs, first_trace, second_trace, work, state))
}
