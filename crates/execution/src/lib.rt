// The plain run and the mispredicting run over the lent areas: steps are made as long as none of the stops is found.
#![tactic(auto)]

pub mod first;
pub mod halt;
pub mod rule;
pub mod step;

ghost use Rattle.std.specs.Prelude.{◌≡◌, ◌≤◌, length};
ghost use Rattle.rules.specs.Rules.Calls.{working_words};
ghost use Rattle.execution.specs.Running.{Loaded, RanTo, report_of};
ghost use Rattle.execution.specs.Starts.{beginning, whole};

use location::LocationSet;
use rules::{Counts, Stop, Trailer};
use stepping::Progress;
use work::machine::Control;

// Which of the two runs.
#[derive(Clone, Copy)]
pub enum Mode {
    Plain,
    Mispredicting,
}

// What a run that has ended reports: its stop and counts, the full set and the plain set.
#[derive(Drop)]
pub struct Ran {
    pub counts: Counts,
    pub full: LocationSet,
    pub plain: LocationSet,
}

// Nothing is done yet. With nothing open the window is not 0.
fn beginning() -> Progress
    ensures { result ≡ beginning }
{
    Progress {
        control: Control {
            place: 0,
            depth: 0,
            log: 0,
            opened: 0,
            window: 1,
        },
        observations: 0,
        steps: 0,
        full: LocationSet::empty(),
        plain: LocationSet::empty(),
    }
}

// What is reported of a run that stops. Every branch that was opened is open or rolled back.
fn report(stop: Stop, c: Progress) -> Ran
    requires { c.control.depth ≤ c.control.opened }
    ensures { result ≡ report_of stop c }
{
    Ran {
        counts: Counts {
            stop,
            observations: c.observations,
            steps: c.steps,
            rollbacks: c.control.opened - c.control.depth,
        },
        full: c.full,
        plain: c.plain,
    }
}

// A whole run, from the state that the working words hold.
pub fn run(p: &[u8], t: Trailer, mode: Mode, work: &mut [u64], trace: &mut [u64]) -> Ran
    requires { Loaded p.now t work.old × (working_words ≤ length work.old) }
    ensures { RanTo t work.old trace.old work.new trace.new result
        (whole p.now t mode work.old trace.old) }
{
    let mut c = beginning();
    loop {
        match halt::halt_of(p, t, mode, work, trace, c) {
            None => {
                let until = halt::free_until(trace, c, t.budget);
                let next = first::record_next(p, t, work, c);
                c = step::make_steps(p, t, mode, work, trace, next, until);
            }
            Some(stop) => {
                return match stop {
                    Stop::OutsideFull => report(stop, first::record_next(p, t, work, c)),
                    _ => report(stop, c),
                };
            }
        }
    }
}
