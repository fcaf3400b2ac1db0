// The pair of states: both runs of an accepted job, and the answer on them. The second run is a function of its own, as a test load
// makes the second state once it has seen the first run.
#![tactic(auto)]

ghost use Rattle.std.specs.Prelude.{◌≡◌, Ok, ◌≤◌, length};
ghost use Rattle.rules.specs.Rules.Calls.{working_words, room};
ghost use Rattle.rules.specs.Rules.Pairs.{pair_lent, pair_fits, pair_call};
ghost use Rattle.rules.specs.Rules.Demands.{Exact};
ghost use Rattle.rules.specs.Rules.Promises.{pair_at_entry, pair_at_exit};
ghost use Rattle.pair.specs.Runs.{OwnRunOf, BothRan, word_on, Comparable, OwnRan, SecondRan};

use execution::{Mode, Ran};
use job::accepted::AcceptedJob;
use rules::{Compared, Counts, PairAnswer, PairWord, Refusal};
use window_costs::table::WindowCosts;

// The second run of a pair: the word on the pair, and what the run counts.
#[derive(Drop)]
pub struct SecondRun {
    pub word: PairWord,
    pub counts: Counts,
}

// The job's own run by a table, in the first trace area.
pub fn run_own(
    job: &AcceptedJob,
    costs: &WindowCosts,
    work: &mut [u64],
    first_trace: &mut [u64],
) -> Ran
    requires { working_words ≤ length work.old }
    ensures { OwnRunOf job.now costs.now work.old work.new first_trace.old first_trace.new result }
{
    let own = job.trailer.state;
    job_run::run_state(
        job,
        Mode::Mispredicting,
        costs,
        job.bytes,
        own,
        work,
        first_trace,
    )
}

// The word on two runs that have been made, by the traces that they have written.
fn word_on(
    job: &AcceptedJob,
    second: &[u8],
    c: Counts,
    d: Counts,
    first_trace: &[u64],
    second_trace: &[u64],
) -> PairWord
    requires { BothRan job.now second.now c d first_trace.now second_trace.now }
    ensures { result ≡ word_on job.now second.now c d first_trace.now second_trace.now }
{
    let t = job.trailer;
    let alike = transfer::alike_bytes(job.public, job.bytes, t.state, second, t.locations());
    judgement::pair_word(
        alike,
        c.stop,
        d.stop,
        &first_trace[..2 * c.observations],
        &second_trace[..2 * d.observations],
    )
}

// The run with a second state and the same table, once the job's own has been made: c are its counts, and its trace stands in the first
// area. The working words are cleared.
pub fn run_second(
    job: &AcceptedJob,
    second: &[u8],
    costs: &WindowCosts,
    c: Counts,
    first_trace: &[u64],
    second_trace: &mut [u64],
    work: &mut [u64],
) -> SecondRun
    requires { Comparable job.now second.now first_trace.now second_trace.old work.old × OwnRan job.now costs.now c first_trace.now }
    ensures { SecondRan job.now second.now costs.now (room first_trace.now) second_trace.old work.old second_trace.new work.new result }
{
    let run = job_run::run_state(
        job,
        Mode::Mispredicting,
        costs,
        second,
        0,
        work,
        second_trace,
    );
    work::clear(work);
    let counts = run.counts;
    let word = word_on(job, second, c, counts, first_trace, second_trace);
    SecondRun { word, counts }
}

// Both runs are made, and both traces written, whatever the word is.
fn compare_runs(
    job: &AcceptedJob,
    second: &[u8],
    costs: &WindowCosts,
    first_trace: &mut [u64],
    second_trace: &mut [u64],
    work: &mut [u64],
) -> Compared
    requires { Comparable job.now second.now first_trace.old second_trace.old work.old }
    ensures { Exact (pair_call job.now.bytes.now second.now costs.now.entries.now (pair_at_entry first_trace second_trace work)) (Ok result)
        (pair_at_exit first_trace second_trace work) }
{
    let own = run_own(job, costs, work, first_trace);
    let other = run_second(
        job,
        second,
        costs,
        own.counts,
        first_trace,
        second_trace,
        work,
    );
    Compared {
        word: other.word,
        first: own.counts,
        second: other.counts,
    }
}

// Whether the working area is long enough and both trace areas have one length.
pub fn areas_fit(first_trace: &[u64], second_trace: &[u64], work: &[u64]) -> bool
    ensures { result ≡ pair_fits (pair_lent first_trace.now second_trace.now work.now) }
{
    work::WORDS <= work.len() && first_trace.len() == second_trace.len()
}

// The pair of an accepted job: a second state of another size, then a table that is none, then too short or unequal areas are refused before
// anything is written.
pub fn compare_accepted(
    job: &AcceptedJob,
    second: &[u8],
    costs: &[u8],
    first_trace: &mut [u64],
    second_trace: &mut [u64],
    work: &mut [u64],
) -> PairAnswer
    ensures { Exact (pair_call job.now.bytes.now second.now costs.now (pair_at_entry first_trace second_trace work)) result
        (pair_at_exit first_trace second_trace work) }
{
    if second.len() != transfer::WORD_BYTES * job.trailer.locations() {
        return Err(Refusal::SecondState);
    }
    let costs = WindowCosts::new(costs)?;
    if !areas_fit(first_trace, second_trace, work) {
        return Err(Refusal::Areas);
    }
    Ok(compare_runs(job, second, &costs, first_trace, second_trace, work))
}
