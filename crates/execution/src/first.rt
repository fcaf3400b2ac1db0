// What the next step observes joins D ahead of the step, and is recorded. The steps that are then made bring in nothing; they end before one
// that does.
ghost use Rattle.std.specs.Prelude.{◌≡◌, true, false, List, ℕ, ◌^◌, ◌<◌, ◌≤◌, length};
ghost use Rattle.location.specs.Sets.{registers};
ghost use Rattle.rules.specs.Rules.JobFile.{postfix};
ghost use Rattle.instruction.specs.Meaning.{meaning};
ghost use Rattle.instruction.specs.Registers.{RegistersBelow};
ghost use Rattle.work.specs.Layout.{log_base};
ghost use Rattle.work.specs.Machines.{Fit};
ghost use Rattle.stepping.specs.Progress.{standing};
ghost use Rattle.execution.specs.declared.Mode.{Mode};
ghost use Rattle.execution.specs.Next.{over_at};
ghost use Rattle.execution.specs.Running.{Loaded, Steady, SightOf, Foreseen};

use super::rule::Rule;
use instruction::Instruction;
use location::{Label, Location, LocationSet};
use rules::{Cause, Trailer};
use stepping::Progress;

// What an instruction observes: the rule, and the set of the address, the jump value or the branch register.
#[derive(Drop)]
struct Sight {
    cause: Cause,
    seen: LocationSet,
}

// What an instruction observes in the state of the working words, if it is of a kind that does. No value is read for it.
fn sight_of(p: &[u8], work: &[u64], i: Instruction) -> Option<Sight>
    requires { (postfix (meaning p.now i) ≡ true) × RegistersBelow registers (meaning p.now i) × (log_base ≤ length work.now) }
    ensures { SightOf p.now work.now i result }
{
    match i {
        Instruction::Load(_, e) => Some(Sight {
            cause: Cause::Load,
            seen: expression::sets::set_of(p, work, e),
        }),
        Instruction::Store(_, e) => Some(Sight {
            cause: Cause::Store,
            seen: expression::sets::set_of(p, work, e),
        }),
        Instruction::Jump(e) => Some(Sight {
            cause: Cause::Jump,
            seen: expression::sets::set_of(p, work, e),
        }),
        Instruction::BranchZero(r, _) => Some(Sight {
            cause: Cause::Branch,
            seen: work::load_set(work, Location::register(r)),
        }),
        _ => None,
    }
}

// The set of what the next step observes is recorded and gathered; the step is not made.
pub fn record_next(p: &[u8], t: Trailer, work: &mut [u64], c: Progress) -> Progress
    requires { Loaded p.now t work.old × Fit work.old c.control
        × (over_at c.control.depth t.count c.control.place ≡ false) × (c.observations < 2 ^ 32) }
    ensures { (mode : Mode) (trace : List ℕ) → Steady p.now t mode work.old c.control
        → Foreseen p.now t mode (standing work.old trace c) (standing work.new trace result) }
{
    match super::rule::rule_of(c.control, t.count) {
        Rule::Over | Rule::RollBack => c,
        Rule::Advance => {
            let place = Label::new(c.control.place);
            let d = program::fetch(work, work::LABELS, place);
            let i = descriptor::instruction_of(p, d);
            let Some(next) = sight_of(p, work, i) else {
                return c;
            };
            firsts::record(
                work,
                c.full,
                next.seen,
                c.observations,
                next.cause,
                c.control.place,
            );
            stepping::gather_unmade(c, next.seen)
        }
    }
}
