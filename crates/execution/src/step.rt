// The steps of a run, made without any test of the budget or of the trace area. A step that brings a location into D is not made, nor a store
// that needs one address too many: the progress is then as it was.
ghost use Rattle.std.specs.Prelude.{◌≡◌, List, ℕ};
ghost use Rattle.descriptor.specs.Descriptors.{instruction_in, Valid};
ghost use Rattle.stepping.specs.Progress.{standing, standing_before, standing_after};
ghost use Rattle.execution.specs.Next.{Opens};
ghost use Rattle.execution.specs.Running.{descriptor_at, Executing, Performed, Advancing, NextTried, Unhindered, GoesOn};

use super::Mode;
use super::rule::Rule;
use descriptor::Descriptor;
use instruction::Instruction;
use location::{Label, LocationSet};
use rules::{Tagged, Trailer};
use stepping::Progress;

// Rule 3 for the instruction i; `a` is the value of what it reads first. Each kind goes its own way to the end of the step, so that
// nothing is decided twice.
fn carry_out(
    p: &[u8],
    t: Trailer,
    work: &mut [u64],
    trace: &mut [u64],
    c: Progress,
    i: Instruction,
    a: Tagged,
) -> Progress
    requires { Executing p.now t i a (standing work.old trace.old c) }
    ensures { Performed p.now t i (standing_before work trace c) (standing_after work trace result) }
{
    let next = c.control.place + 1;
    match i {
        Instruction::Skip => stepping::skip(work, c, i),
        Instruction::Assign(r, _) => stepping::assign(work, c, i, r, a),
        Instruction::Load(r, _) => {
            if !a.deps.subset(c.full) {
                return c;
            }
            stepping::load(work, trace, c, i, t.cells, r, a)
        }
        Instruction::Store(r, _) => {
            if !a.deps.subset(c.full) {
                return c;
            }
            stepping::store(work, trace, c, i, t.cells, r, a)
        }
        Instruction::Jump(_) => {
            if !a.deps.subset(c.full) {
                return c;
            }
            let place = evaluation::jump_to(a.value, t.count);
            stepping::go_to(work, trace, c, i, place, a.deps)
        }
        Instruction::BranchZero(_, l) => {
            if !a.deps.subset(c.full) {
                return c;
            }
            let place = evaluation::branch_to(a, l, next);
            stepping::go_to(work, trace, c, i, place, a.deps)
        }
        Instruction::AssignIf(r, _, e) => {
            let v = evaluation::chosen(p, work, r, a, e);
            stepping::assign(work, c, i, r, v)
        }
        Instruction::Barrier => stepping::skip(work, c, i),
    }
}

// The branch that rule 2 opens, by its register and its label, of the instruction of a descriptor in one of the two runs; with none the
// instruction is rule 3's.
fn opening_of(mode: Mode, d: Descriptor) -> Option<(u8, Label)>
    ensures { (p : List ℕ) → Valid p d → Opens mode (instruction_in p d) result }
{
    if d.shape != descriptor::BRANCH {
        return None;
    }
    match mode {
        Mode::Plain => None,
        Mode::Mispredicting => Some((d.first, Label::new(d.extra))),
    }
}

// The instruction of a descriptor, in one of the two runs: rule 2 for a branch that it opens, else rule 3. What it reads first is evaluated
// before its kind is looked at, so that one place evaluates for all kinds.
fn advance_by(
    p: &[u8],
    t: Trailer,
    mode: Mode,
    work: &mut [u64],
    trace: &mut [u64],
    c: Progress,
    d: Descriptor,
) -> Progress
    requires { Advancing p.now t mode (standing work.old trace.old c) × (d ≡ descriptor_at work.old c.control) }
    ensures { NextTried p.now t mode (standing_before work trace c) (standing_after work trace result) }
{
    let a = evaluation::source_value(p, work, d);
    match opening_of(mode, d) {
        Some((r, l)) => {
            if !a.deps.subset(c.full) {
                return c;
            }
            stepping::open_branch(work, trace, c, r, l, a, t.window)
        }
        None => {
            let i = descriptor::instruction_of(p, d);
            carry_out(p, t, work, trace, c, i, a)
        }
    }
}

// The instruction at the place. A skip, a barrier and a jump to a constant go their own ways by the word, and do not wait for what the other kinds
// need. What reads nothing and is no skip is a barrier, so that the kind is not taken from the word. The word of such a jump names its place, and as
// it rests on nothing no set is compared with D.
fn advance(
    p: &[u8],
    t: Trailer,
    mode: Mode,
    work: &mut [u64],
    trace: &mut [u64],
    c: Progress,
) -> Progress
    requires { Advancing p.now t mode (standing work.old trace.old c) }
    ensures { NextTried p.now t mode (standing_before work trace c) (standing_after work trace result) }
{
    let label = Label::new(c.control.place);
    let word = program::word_of(work, work::LABELS, label);
    if descriptor::is_skip(word) {
        return stepping::skip(work, c, Instruction::Skip);
    }
    if descriptor::is_bare(word) {
        return stepping::skip(work, c, Instruction::Barrier);
    }
    let d = descriptor::descriptor_in(word);
    if d.shape == descriptor::JUMP_CONSTANT {
        let i = descriptor::instruction_of(p, d);
        let place = evaluation::jump_to(d.extra as u64, t.count);
        let nothing = LocationSet::empty();
        return stepping::go_to(work, trace, c, i, place, nothing);
    }
    advance_by(p, t, mode, work, trace, c, d)
}

// Steps up to a step count, to the end of the run, or to a step that brings a location in or a store that cannot be made: neither the budget nor
// the trace area runs out before.
pub fn make_steps(
    p: &[u8],
    t: Trailer,
    mode: Mode,
    work: &mut [u64],
    trace: &mut [u64],
    from: Progress,
    until: usize,
) -> Progress
    requires { Unhindered p.now t mode until (standing work.old trace.old from) }
    ensures { GoesOn p.now t mode (standing_before work trace from) (standing_after work trace result) }
{
    let mut c = from;
    while c.steps < until {
        match super::rule::rule_of(c.control, t.count) {
            Rule::Over => {
                return c;
            }
            Rule::RollBack => {
                c = stepping::roll_back(work, trace, c);
            }
            Rule::Advance => {
                let next = advance(p, t, mode, work, trace, c);
                if next.steps == c.steps {
                    return c;
                }
                c = next;
            }
        }
    }
    c
}
