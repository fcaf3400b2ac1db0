// May the next step be made: the stops in the rules' order. The one place that tests the budget and the room of the trace area, and that stops
// the run for a store outside the image that needs one address too many.
ghost use Rattle.std.specs.Prelude.{◌≡◌, true, false, List, ℕ, ◌+◌, ◌*◌, ◌≤◌, ◌<◌, length};
ghost use Rattle.location.specs.Sets.{registers};
ghost use Rattle.rules.specs.Rules.Mispredicting.{Machine, ordinary};
ghost use Rattle.rules.specs.Rules.Plain.{Code};
ghost use Rattle.rules.specs.Rules.JobFile.{postfix};
ghost use Rattle.instruction.specs.Meaning.{meaning};
ghost use Rattle.work.specs.Layout.{log_base};
ghost use Rattle.work.specs.Machines.{machine_of, Fit};
ghost use Rattle.stepping.specs.Progress.{standing, standing_before};
ghost use Rattle.execution.specs.Next.{forward_by, over_at};
ghost use Rattle.execution.specs.Running.{Loaded, Steady, step_in, observed_by, Ready, HaltOf, FreeUntil};

use super::Mode;
use super::rule::Rule;
use instruction::Instruction;
use location::{Address, Label};
use rules::limits::MAX_ENTRIES;
use rules::{Stop, Trailer};
use stepping::Progress;
use work::machine::Control;

// How many observations an instruction makes, by rule 2 or 3.
fn observations_of(mode: Mode, i: Instruction) -> usize
    ensures { (p : List ℕ) (code : Code) (M : Machine) → result ≡ length (forward_by mode code M (meaning p i)).obs }
{
    match i {
        Instruction::Load(_, _) | Instruction::Store(_, _) | Instruction::Jump(_) => 1,
        Instruction::BranchZero(_, _) => match mode {
            Mode::Plain => 1,
            Mode::Mispredicting => 2,
        },
        _ => 0,
    }
}

// How many observations the next step makes: nothing is evaluated for it.
fn next_observations(p: &[u8], t: Trailer, mode: Mode, work: &[u64], c: Control) -> usize
    requires { Steady p.now t mode work.now c × (over_at c.depth t.count c.place ≡ false) }
    ensures { result ≡ observed_by p.now t mode work.now c }
{
    match super::rule::rule_of(c, t.count) {
        Rule::Over => 0,
        Rule::RollBack => 2,
        Rule::Advance => {
            let label = Label::new(c.place);
            let d = program::fetch(work, work::LABELS, label);
            let i = descriptor::instruction_of(p, d);
            observations_of(mode, i)
        }
    }
}

// Whether an instruction is a store that needs one address too many. The address is evaluated apart from a step's, so that the compiler makes
// that evaluation part of the step.
fn store_needs(p: &[u8], work: &[u64], cells: usize, i: Instruction) -> bool
    requires { (postfix (meaning p.now i) ≡ true) × (log_base ≤ length work.now) }
    ensures { (code : Code) (c : Control) → code.cells ≡ cells
        → result ≡ (ordinary code (machine_of work.now c (registers + cells)) (meaning p.now i)).overfull }
{
    let Instruction::Store(_, e) = i else {
        return false;
    };
    let a = expression::evaluate(p, work, e);
    if a.value < cells as u64 {
        return false;
    }
    outside::is_overfull(work, Address::new(a.value))
}

// Whether the next step is such a store. Nothing is evaluated for it unless the table is full.
fn next_needs(p: &[u8], t: Trailer, work: &[u64], c: Control) -> bool
    requires { Loaded p.now t work.now × Fit work.now c × (over_at c.depth t.count c.place ≡ false) }
    ensures { (mode : Mode) → Steady p.now t mode work.now c
        → result ≡ (step_in p.now t mode work.now c).overfull }
{
    if work::entry_count(work) < MAX_ENTRIES {
        return false;
    }
    match super::rule::rule_of(c, t.count) {
        Rule::Over | Rule::RollBack => false,
        Rule::Advance => {
            let place = Label::new(c.place);
            let d = program::fetch(work, work::LABELS, place);
            let i = descriptor::instruction_of(p, d);
            store_needs(p, work, t.cells, i)
        }
    }
}

// What halts a run before its next step, if anything does: finished, spent, trace full, outside full. With outside full alone what the run has
// gathered changes: the step that is not made adds the set of its address.
pub fn halt_of(
    p: &[u8],
    t: Trailer,
    mode: Mode,
    work: &[u64],
    trace: &[u64],
    c: Progress,
) -> Option<Stop>
    requires { Ready p.now t mode (standing work.now trace.now c) }
    ensures { HaltOf p.now t mode (standing work.now trace.now c) result }
{
    if super::rule::is_over(c.control, t.count) {
        return Some(Stop::Finished);
    }
    if t.budget <= c.steps {
        return Some(Stop::Spent);
    }
    if trace.len() / 2 < c.observations + next_observations(p, t, mode, work, c.control) {
        return Some(Stop::TraceFull);
    }
    if next_needs(p, t, work, c.control) {
        return Some(Stop::OutsideFull);
    }
    None
}

// The step count up to which neither a budget nor the trace area runs out, whatever the steps are, as none makes more than two
// observations; but one step at least, for a caller that has tested that one.
pub fn free_until(trace: &[u64], c: Progress, budget: usize) -> usize
    requires { (2 * c.observations ≤ length trace.now) × (c.steps < budget) }
    ensures { (w : List ℕ) → FreeUntil budget result (standing w trace.now c) }
{
    let room = (trace.len() / 2 - c.observations) / 2;
    let left = budget - c.steps;
    if room == 0 {
        return c.steps + 1;
    }
    if room < left {
        return c.steps + room;
    }
    budget
}
