// What one instruction computes from the working words, and writes nowhere: what it reads first, what a load gives, what a
// conditional assignment assigns and where a jump goes. The crate `stepping` carries the instruction out.
#![tactic(auto)]

ghost use Rattle.std.specs.Prelude.{◌≡◌, true, ℕ, ◌+◌, ◌<◌, ◌≤◌, min, length};
ghost use Rattle.location.specs.Sets.{registers, empty};
ghost use Rattle.rules.specs.Rules.Expressions.{sound, tagged, eval, SetFirst};
ghost use Rattle.rules.specs.Rules.JobFile.{little};
ghost use Rattle.rules.specs.Rules.Plain.{Code, joined, loaded_from, chosen, branch_to};
ghost use Rattle.token.specs.Meaning.{tokens_of};
ghost use Rattle.descriptor.specs.Descriptors.{shape_register_constant, shape_register_register, constant_place, instruction_in, first_tokens, General, Valid};
ghost use Rattle.work.specs.Layout.{operand_base, log_base};
ghost use Rattle.work.specs.Words.{set_at, tagged_at};
ghost use Rattle.work.specs.Machines.{state_in};

use descriptor::Descriptor;
use location::{Address, Label, Location, LocationSet};
use rules::Tagged;
use token::Expression;

// A word whose set takes over another.
pub fn joined(t: Tagged, s: LocationSet) -> Tagged
    ensures { result ≡ joined t s }
{
    Tagged {
        deps: s.union(t.deps),
        value: t.value,
    }
}

// What a load at an address below the number of cells gives: the cell's word.
pub fn loaded_cell(work: &[u64], a: Tagged) -> Tagged
    requires { operand_base (registers + a.value) + 5 ≤ length work.now }
    ensures { (code : Code) (cells : ℕ) → code.cells ≡ cells → a.value < cells
        → result ≡ loaded_from code (state_in work.now (registers + cells)) a }
{
    joined(
        work::load(work, Location::cell(Address::new(a.value))),
        a.deps,
    )
}

// What a load at any other address gives: what is remembered there.
pub fn loaded_outside(work: &[u64], a: Tagged) -> Tagged
    requires { log_base ≤ length work.now }
    ensures { (code : Code) (cells : ℕ) → code.cells ≡ cells → cells ≤ a.value
        → result ≡ loaded_from code (state_in work.now (registers + cells)) a }
{
    joined(outside::recall(work, Address::new(a.value)), a.deps)
}

// The value of an expression of one token. It is a register or a constant, since an operator would lack an operand.
fn one_value(p: &[u8], work: &[u64], e: Expression) -> Tagged
    requires { (e.count ≡ 1) × (sound (tokens_of p.now e) ≡ true) × (operand_base registers ≤ length work.now) }
    ensures { result ≡ eval (tagged_at work.now) (tokens_of p.now e) }
{
    let at = e.at;
    let byte = p[at];
    if byte < 16 {
        return work::load(work, Location::register(byte));
    }
    Tagged {
        deps: LocationSet::empty(),
        value: token::word(p, at + 1),
    }
}

// What register r holds after a conditional assignment on c: the expression is evaluated only where it is assigned, and one token
// without the stack. The slices are taken anew, as in `general_value`.
pub fn chosen(p: &[u8], work: &[u64], r: u8, c: Tagged, e: Expression) -> Tagged
    requires e_value { sound (tokens_of p.now e) ≡ true }
    requires registers_in_bounds { operand_base registers ≤ length work.now }
    requires r_lt_registers { r < registers }
    ensures { result ≡ chosen c (eval (tagged_at work.now) (tokens_of p.now e)) (tagged_at work.now r) }
{
    if c.value == 0 {
        return joined(work::load(work, Location::register(r)), c.deps);
    }
    if e.count == 1 {
        return joined(one_value(p, work, e), c.deps);
    }
    joined(expression::evaluate(&p[..], &work[..], e), c.deps)
}

// The place that a jump goes to: END where there is no such label.
pub fn jump_to(value: u64, end: usize) -> usize
    ensures { result ≡ min value end }
{
    if end as u64 <= value {
        return end;
    }
    value as usize
}

pub fn branch_to(t: Tagged, label: Label, next: usize) -> usize
    ensures { result ≡ branch_to t label.0 next }
{
    if t.value == 0 {
        return label.index();
    }
    next
}

// The value of any expression that an instruction reads first. The slices are taken anew, so that a step with a short one does not set
// them up.
fn general_value(p: &[u8], work: &[u64], d: Descriptor) -> Tagged
    requires { Valid p.now d × General p.now d.at (instruction_in p.now d) × (operand_base registers ≤ length work.now) }
    ensures { result ≡ eval (tagged_at work.now) (first_tokens (instruction_in p.now d)) }
{
    let e = descriptor::expression_of(p, d);
    expression::evaluate(&p[..], &work[..], e)
}

// The constant of an instruction whose shape has one.
fn constant_value(p: &[u8], d: Descriptor) -> Tagged
    requires { d.at + constant_place d.shape + 8 ≤ length p.now }
    ensures { result ≡ tagged (little p.now (d.at + constant_place d.shape) 8) empty }
{
    Tagged {
        deps: LocationSet::empty(),
        value: descriptor::constant_of(p, d),
    }
}

// A register and a constant under an operator: the register's set, then the value.
fn with_constant(p: &[u8], work: &[u64], d: Descriptor) -> Tagged
    requires { (d.shape ≡ shape_register_constant) × Valid p.now d × (operand_base registers ≤ length work.now) }
    ensures { result ≡ eval (tagged_at work.now) (first_tokens (instruction_in p.now d)) }
{
    let register = Location::register(d.first);
    let deps = work::load_set(work, register);
    let x = work::load_value(work, register);
    let c = descriptor::constant_of(p, d);
    Tagged {
        value: expression::values::operate_two(descriptor::operator_of(p, d), x, c),
        deps,
    }
}

// The set of two registers under an operator, from their sets alone.
fn set_of_two(p: &[u8], work: &[u64], d: Descriptor) -> LocationSet
    requires { (d.shape ≡ shape_register_register) × Valid p.now d × (operand_base registers ≤ length work.now) }
    ensures { SetFirst (set_at work.now) (first_tokens (instruction_in p.now d)) result }
{
    let left = work::load_set(work, Location::register(d.first));
    let right = work::load_set(work, Location::register(descriptor::second_of(p, d)));
    left.union(right)
}

// Two registers under an operator: their set, then the value.
fn with_register(p: &[u8], work: &[u64], d: Descriptor) -> Tagged
    requires { (d.shape ≡ shape_register_register) × Valid p.now d × (operand_base registers ≤ length work.now) }
    ensures { result ≡ eval (tagged_at work.now) (first_tokens (instruction_in p.now d)) }
{
    let deps = set_of_two(p, work, d);
    let x = work::load_value(work, Location::register(d.first));
    let y = work::load_value(work, Location::register(descriptor::second_of(p, d)));
    Tagged {
        value: expression::values::operate_two(descriptor::operator_of(p, d), x, y),
        deps,
    }
}

// What the instruction of a descriptor reads first, the set ahead of the value in each shape; 0 where it reads nothing. No step asks it of a
// jump to a constant, which its word tells.
pub fn source_value(p: &[u8], work: &[u64], d: Descriptor) -> Tagged
    requires { Valid p.now d × (operand_base registers ≤ length work.now) }
    ensures { result ≡ eval (tagged_at work.now) (first_tokens (instruction_in p.now d)) }
{
    match d.shape {
        descriptor::NOTHING => Tagged {
            value: 0,
            deps: LocationSet::empty(),
        },
        descriptor::REGISTER => work::load(work, Location::register(d.first)),
        descriptor::CONSTANT => constant_value(p, d),
        descriptor::REGISTER_CONSTANT => with_constant(p, work, d),
        descriptor::REGISTER_REGISTER => with_register(p, work, d),
        descriptor::JUMP_CONSTANT => constant_value(p, d),
        descriptor::BRANCH => work::load(work, Location::register(d.first)),
        _ => general_value(p, work, d),
    }
}
