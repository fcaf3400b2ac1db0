// The calls of the checker, on any bytes as a job and lent areas of any length and contents. Nothing has to be tested beforehand.
//
// What each call promises, for every input, is one record of crates/rules/specs/Rules/Promises.antt, which says each field:
//   exact (demands 1 and 2), unaltered (demand 1), and for `run` plainly (demand 2), secret (demand 3) and brought (which observation brought
//   each location of D in); for `compare` meaning, what the words on a pair say. `test_load` has TestLoadPromises.antt: compared (the plain
//   trace of the new state is the job's, and the pair is checked) and unfinished. The three calls with a mispredicting run take a table of
//   window costs: fixed (eight ones give the answers of the fixed table) and bounded (any table keeps the bounds of the wrong paths).
#![tactic(auto)]

ghost use Rattle.std.specs.Prelude.{◌≡◌, ◌≤◌, length};
ghost use Rattle.location.specs.Sets.{limit};
ghost use Rattle.rules.specs.Rules.Calls.{working_words, run_refused, plain_refused, run_call, plain_call};
ghost use Rattle.rules.specs.Rules.Demands.{Exact};
ghost use Rattle.rules.specs.Rules.Promises.{RunPromise, PlainPromise, PairPromise, areas_at_entry, areas_at_exit, pair_at_entry, pair_at_exit};
ghost use Rattle.rules.specs.Rules.TestLoadPromises.{TestLoadPromise, test_load_at_entry, test_load_at_exit};
ghost use Rattle.firsts.specs.Reports.{reports_in};
ghost use Rattle.checker.specs.Reports.{answer_of, plain_answer_of};

use execution::{Mode, Ran};
use job::accepted::AcceptedJob;
use location::LocationSet;
use rules::{Judged, PairAnswer, PlainAnswer, PlainCounts, Refusal, RunAnswer, TestLoadAnswer};
use window_costs::table::WindowCosts;

fn run_refused(n: Refusal) -> RunAnswer
    ensures { result ≡ run_refused n }
{
    RunAnswer {
        outcome: Err(n),
        full: LocationSet::empty(),
        plain: LocationSet::empty(),
        firsts: firsts::nothing(),
    }
}

fn plain_refused(n: Refusal) -> PlainAnswer
    ensures { result ≡ plain_refused n }
{
    PlainAnswer {
        outcome: Err(n),
        plain: LocationSet::empty(),
    }
}

// What a run returns, with the reports that the working words hold.
fn report(public: LocationSet, r: Ran, work: &[u64]) -> RunAnswer
    requires { working_words ≤ length work.now }
    ensures { result ≡ answer_of public r (reports_in work.now r.full 0 limit) }
{
    let judged = Judged {
        counts: r.counts,
        verdict: judgement::verdict_of(public, r.counts.stop, r.full, r.plain),
    };
    RunAnswer {
        outcome: Ok(judged),
        full: r.full,
        plain: r.plain,
        firsts: firsts::reports(work, r.full),
    }
}

// What a plain run returns.
fn plain_report(r: Ran) -> PlainAnswer
    ensures { result ≡ plain_answer_of r }
{
    let reported = PlainCounts {
        stop: r.counts.stop,
        observations: r.counts.observations,
        steps: r.counts.steps,
    };
    PlainAnswer {
        outcome: Ok(reported),
        plain: r.plain,
    }
}

fn run_accepted(
    job: &AcceptedJob,
    costs: &[u8],
    trace: &mut [u64],
    end: &mut [u64],
    work: &mut [u64],
) -> RunAnswer
    ensures { Exact (run_call job.now.bytes.now costs.now (areas_at_entry trace end work)) result (areas_at_exit trace end work) }
{
    let costs = match WindowCosts::new(costs) {
        Ok(costs) => costs,
        Err(n) => return run_refused(n),
    };
    if !job_run::areas_fit(job.trailer.locations(), end, work) {
        return run_refused(Refusal::Areas);
    }
    let r = job_run::run_in_areas(job, Mode::Mispredicting, &costs, trace, end, work);
    let answer = report(job.public, r, work);
    work::clear(work);
    answer
}

// A run: as if every branch were guessed wrongly. `costs` says how much of a window each kind of instruction takes, a byte a kind.
pub fn run(
    job: &[u8],
    costs: &[u8],
    trace: &mut [u64],
    end: &mut [u64],
    work: &mut [u64],
) -> RunAnswer
    ensures { RunPromise job.now costs.now (areas_at_entry trace end work) result (areas_at_exit trace end work) }
{
    match AcceptedJob::read(job) {
        Ok(accepted) => run_accepted(&accepted, costs, trace, end, work),
        Err(n) => run_refused(n),
    }
}

// Beside `run_accepted` it takes no table, and its answer has fewer counts and no reports: one function for both would take all that differs as
// parameters, and be no plainer.
fn plain_accepted(
    job: &AcceptedJob,
    trace: &mut [u64],
    end: &mut [u64],
    work: &mut [u64],
) -> PlainAnswer
    ensures { Exact (plain_call job.now.bytes.now (areas_at_entry trace end work)) result (areas_at_exit trace end work) }
{
    if !job_run::areas_fit(job.trailer.locations(), end, work) {
        return plain_refused(Refusal::Areas);
    }
    let ones = window_costs::fixed();
    let costs = WindowCosts { entries: &ones };
    let r = job_run::run_in_areas(job, Mode::Plain, &costs, trace, end, work);
    work::clear(work);
    plain_report(r)
}

// A plain run: every branch goes where its register says. It takes no table, as no window is ever lowered.
pub fn plain_run(job: &[u8], trace: &mut [u64], end: &mut [u64], work: &mut [u64]) -> PlainAnswer
    ensures { PlainPromise job.now (areas_at_entry trace end work) result (areas_at_exit trace end work) }
{
    match AcceptedJob::read(job) {
        Ok(accepted) => plain_accepted(&accepted, trace, end, work),
        Err(n) => plain_refused(n),
    }
}

// The pair of the job's state and a second one: both runs are made, by one table, and both traces written, whatever the word is.
pub fn compare(
    job: &[u8],
    second: &[u8],
    costs: &[u8],
    first_trace: &mut [u64],
    second_trace: &mut [u64],
    work: &mut [u64],
) -> PairAnswer
    ensures { PairPromise job.now second.now costs.now (pair_at_entry first_trace second_trace work) result
        (pair_at_exit first_trace second_trace work) }
{
    let first = AcceptedJob::read(job)?;
    pair::compare_accepted(&first, second, costs, first_trace, second_trace, work)
}

// A test load: where the job's own run finishes, a new state is made from the seed and the pair of the two is checked.
pub fn test_load(
    job: &[u8],
    seed: u64,
    costs: &[u8],
    first_trace: &mut [u64],
    second_trace: &mut [u64],
    work: &mut [u64],
    state: &mut [u8],
) -> TestLoadAnswer
    ensures { TestLoadPromise job.now seed costs.now (test_load_at_entry first_trace second_trace work state) result
        (test_load_at_exit first_trace second_trace work state) }
{
    let accepted = AcceptedJob::read(job)?;
    test_load::test_accepted(
        &accepted,
        seed,
        costs,
        first_trace,
        second_trace,
        work,
        state,
    )
}
