// One run of an accepted job over lent areas: the plain or the mispredicting one, from the job's own state or from another, by a table of
// window costs.
#![tactic(auto)]

ghost use Rattle.std.specs.Prelude.{◌≡◌, ◌&&◌, ◌+◌, leb, length};
ghost use Rattle.rules.specs.Rules.Calls.{table_size, working_words};
ghost use Rattle.rules.specs.Rules.Promises.{areas_at_entry, areas_at_exit};
ghost use Rattle.job_run.specs.JobRuns.{Runnable, AreasFit, LoadedFrom, RunFrom, RunInAreas};

use execution::{Mode, Ran};
use job::accepted::AcceptedJob;
use window_costs::table::WindowCosts;

// The state that stands at an offset of some bytes, the table of window costs and the words of the job's program are loaded for a run.
fn load(job: &AcceptedJob, costs: &WindowCosts, states: &[u8], at: usize, work: &mut [u64])
    requires { Runnable job.now states.now at work.old }
    ensures { LoadedFrom job.now costs.now states.now at work.old work.new }
{
    let t = job.trailer;
    transfer::load_state(states, at, t.locations(), work);
    work::store_costs(work, costs.entries);
    program::write_words(&job.bytes[..t.state], t.count, work, work::LABELS);
}

// The run with the state that stands at an offset of some bytes.
pub fn run_state(
    job: &AcceptedJob,
    mode: Mode,
    costs: &WindowCosts,
    states: &[u8],
    at: usize,
    work: &mut [u64],
    trace: &mut [u64],
) -> Ran
    requires { Runnable job.now states.now at work.old }
    ensures { RunFrom job.now mode costs.now states.now at work.old work.new trace.old trace.new result }
{
    load(job, costs, states, at, work);
    let t = job.trailer;
    execution::run(&job.bytes[..t.state], t, mode, work, trace)
}

// Whether the working area is long enough, and the end area for n locations and the table outside the image.
pub fn areas_fit(n: usize, end: &[u64], work: &[u64]) -> bool
    ensures { result ≡ (leb working_words (length work.now) && leb (n + table_size) (length end.now)) }
{
    work::WORDS <= work.len()
        && transfer::TABLE_WORDS <= end.len()
        && n <= end.len() - transfer::TABLE_WORDS
}

// The run with the job's own state, and what it leaves in the trace area and the end area. The working words still tell of the locations of D,
// so that the caller clears them. It calls `execution::run` itself: with two calls of it the compiler
// keeps the run a function of its own, whose steps have the processor's registers for themselves (docs/PERFORMANCE.md).
// The areas go as the slices that the caller lends: a struct of them would have to say of each besides that it is still the same area, and two of its
// fields could not be lent to one call.
pub fn run_in_areas(
    job: &AcceptedJob,
    mode: Mode,
    costs: &WindowCosts,
    trace: &mut [u64],
    end: &mut [u64],
    work: &mut [u64],
) -> Ran
    requires { AreasFit job.now end.old work.old }
    ensures { RunInAreas job.now mode costs.now (areas_at_entry trace end work) (areas_at_exit trace end work) result }
{
    let t = job.trailer;
    load(job, costs, job.bytes, t.state, work);
    let ran = execution::run(&job.bytes[..t.state], t, mode, work, trace);
    transfer::save_state(work, t.locations(), end);
    ran
}
