// Instructions: decoding them from the bytes of a program, their kinds, and what they leave of a window.
#![tactic(auto)]

ghost use Rattle.std.specs.Prelude.{◌≡◌, List, ℕ, ◌<◌, get_or};
ghost use Rattle.rules.specs.Rules.Expressions.{Expr};
ghost use Rattle.rules.specs.Rules.Instructions.{Instr, kind};
ghost use Rattle.rules.specs.Rules.JobFile.{word_of, register, with_register, jump, branch, conditional, instr};
ghost use Rattle.rules.specs.Rules.Plain.{Code};
ghost use Rattle.rules.specs.Rules.Mispredicting.{remaining};
ghost use Rattle.token.specs.Meaning.{tokens_of};
ghost use Rattle.instruction.specs.Meaning.{register_read_meaning, label_read_meaning, meaning, instruction_read_meaning, InstructionTested, Makes};

use location::{Label, Location};
use rules::{Kind, Refusal};
use token::Expression;

const REGISTERS: u8 = Location::REGISTERS as u8;

// A register with the offset after it.
fn read_register(p: &[u8], at: usize) -> Result<(u8, usize), Refusal>
    ensures { register_read_meaning result ≡ register p.now at }
{
    if at < p.len() && p[at] < REGISTERS {
        return Ok((p[at], at + 1));
    }
    Err(Refusal::Encoding)
}

// A label with the offset after it.
fn read_label(p: &[u8], at: usize) -> Result<(Label, usize), Refusal>
    ensures { label_read_meaning result ≡ word_of 2 p.now at }
{
    if p.len() <= at || p.len() - at < 2 {
        return Err(Refusal::Encoding);
    }
    let label = Label::new(token::two_bytes(p, at) as usize);
    Ok((label, at + 2))
}

// The eight instructions, each with its own fields; a register is its number.
#[derive(Clone, Copy)]
pub enum Instruction {
    Skip,
    Assign(u8, Expression),
    Load(u8, Expression),
    Store(u8, Expression),
    Jump(Expression),
    BranchZero(u8, Label),
    AssignIf(u8, Expression, Expression),
    Barrier,
}

// An instruction with the offset of the next; `sound` says whether its expressions keep the postfix rule: refusal 4 is tried on the whole
// instruction before 5, so that what was read stands either way.
#[derive(Clone, Copy)]
pub struct Decoded {
    pub instruction: Instruction,
    pub next: usize,
    pub sound: bool,
}

// The fields of an instruction with a register and an expression, which `make` makes of them.
fn read_with_register<F: Fn(u8, Expression) -> Instruction>(
    p: &[u8],
    at: usize,
    make: F,
) -> Result<Decoded, Refusal>
    requires { F.IsAlwaysCallable make }
    ensures { (f : ℕ → Expr → Instr) → Makes p.now (F.post make) f
        → (instruction_read_meaning p.now result ≡ with_register f p.now at) × InstructionTested p.now result }
{
    let (r, start) = read_register(p, at)?;
    let e = token::read_expression(p, start)?;
    Ok(Decoded {
        instruction: make(r, e.expression),
        next: e.next,
        sound: e.sound,
    })
}

fn read_jump(p: &[u8], at: usize) -> Result<Decoded, Refusal>
    ensures { (instruction_read_meaning p.now result ≡ jump p.now at) × InstructionTested p.now result }
{
    let e = token::read_expression(p, at)?;
    Ok(Decoded {
        instruction: Instruction::Jump(e.expression),
        next: e.next,
        sound: e.sound,
    })
}

fn read_branch(p: &[u8], at: usize) -> Result<Decoded, Refusal>
    ensures { (instruction_read_meaning p.now result ≡ branch p.now at) × InstructionTested p.now result }
{
    let (r, start) = read_register(p, at)?;
    let (label, next) = read_label(p, start)?;
    Ok(Decoded {
        instruction: Instruction::BranchZero(r, label),
        next,
        sound: true,
    })
}

fn read_conditional(p: &[u8], at: usize) -> Result<Decoded, Refusal>
    ensures { (instruction_read_meaning p.now result ≡ conditional p.now at) × InstructionTested p.now result }
{
    let (r, start) = read_register(p, at)?;
    let c = token::read_expression(p, start)?;
    let e = token::read_expression(p, c.next)?;
    Ok(Decoded {
        instruction: Instruction::AssignIf(r, c.expression, e.expression),
        next: e.next,
        sound: c.sound & e.sound,
    })
}

// The instruction at an offset.
pub fn decode(p: &[u8], at: usize) -> Result<Decoded, Refusal>
    ensures { (instruction_read_meaning p.now result ≡ instr p.now at) × InstructionTested p.now result }
{
    if p.len() <= at {
        return Err(Refusal::Encoding);
    }
    let next = at + 1;
    match Kind::try_from(p[at])? {
        Kind::Skip => Ok(Decoded {
            instruction: Instruction::Skip,
            next,
            sound: true,
        }),
        Kind::Assign => read_with_register(p, next, |r, e| Instruction::Assign(r, e)),
        Kind::Load => read_with_register(p, next, |r, e| Instruction::Load(r, e)),
        Kind::Store => read_with_register(p, next, |r, e| Instruction::Store(r, e)),
        Kind::Jump => read_jump(p, next),
        Kind::BranchZero => read_branch(p, next),
        Kind::AssignIf => read_conditional(p, next),
        Kind::Barrier => Ok(Decoded {
            instruction: Instruction::Barrier,
            next,
            sound: true,
        }),
    }
}

// The kind's number, as in the kind byte: a number, for it is the place of the kind's entry in a table of window costs.
pub fn kind(i: Instruction) -> usize
    ensures below { result < 8 }
    ensures same { (p : List ℕ) → result ≡ kind (meaning p i) }
{
    match i {
        Instruction::Skip => 0,
        Instruction::Assign(_, _) => 1,
        Instruction::Load(_, _) => 2,
        Instruction::Store(_, _) => 3,
        Instruction::Jump(_) => 4,
        Instruction::BranchZero(_, _) => 5,
        Instruction::AssignIf(_, _, _) => 6,
        Instruction::Barrier => 7,
    }
}

// The window that an instruction leaves: lowered by `cost`, which is its kind's entry in a table of window costs, 0 at least; a barrier
// leaves 0. By returns: as `saturating_sub` or a match by value the step of a skip and of a jump to a constant takes three instructions more.
pub fn lowered(cost: u64, window: u64, i: Instruction) -> u64
    ensures { (p : List ℕ) (code : Code) → cost ≡ get_or code.costs (kind (meaning p i)) 0 → result ≡ remaining code (meaning p i) window }
{
    if matches!(i, Instruction::Barrier) {
        return 0;
    }
    if cost < window {
        return window - cost;
    }
    0
}
