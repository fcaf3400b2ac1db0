// An instruction's word in the table of labels: its byte offset, the shape of what it reads first, its first register, and a branch's label,
// the place that a jump to a constant names or the offset of a second expression, so that a step finds the operands where they stand and
// tests no token again. The word of an instruction without operands, or of a branch, describes it alone. The fields of an accepted instruction
// are found without tests here only.
#![tactic(auto)]

ghost use Rattle.std.specs.Prelude.{◌≡◌, true, List, ℕ, ◌+◌, ◌-◌, ◌^◌, ◌<◌, ◌≤◌, length, get_or};
ghost use Rattle.rules.specs.Rules.Expressions.{Expr};
ghost use Rattle.rules.specs.Rules.Instructions.{Instr, skip};
ghost use Rattle.rules.specs.Rules.JobFile.{little, tokens, expr, with_register, jump, conditional, instr};
ghost use Rattle.rules.specs.Theorems.Readers.{readable, next_offset, value_or};
ghost use Rattle.instruction.specs.Meaning.{meaning, Makes};
ghost use Rattle.descriptor.specs.Descriptors.{one_shape, three_shape, expression_shape, jump_shape, shape_at, first_at, target_at, extra_at, count_at};
ghost use Rattle.descriptor.specs.Descriptors.{offsets, word_at, descriptor_in, constant_place, operator_place, bare, is_skip, is_bare, instruction_in};
ghost use Rattle.descriptor.specs.Descriptors.{WithExpression, SecondAt, Valid};

use instruction::Instruction;
use location::Label;
use token::Expression;

// `at` is the instruction's offset, `shape` what the instruction reads first, `extra` the label of a branch, the place that a jump to a
// constant names (FARTHEST for a larger one), or where the second expression of a conditional assignment stands. In the shapes that do not
// name it, `first` means nothing; nor does `extra` of any other instruction, or `at` where nothing is read, or of a branch.
#[derive(Clone, Copy)]
pub struct Descriptor {
    pub at: usize,
    pub shape: u8,
    pub first: u8,
    pub extra: usize,
}

// The shapes, with the bytes from `at` on that hold the operands, of which byte 0 is the kind byte.
// Nothing: `first` is the kind.
pub const NOTHING: u8 = 0;

// The register `first`.
pub const REGISTER: u8 = 1;

// A constant, bytes 4 to 11.
pub const CONSTANT: u8 = 2;

// The register `first` and a constant, bytes 5 to 12, under the operator in byte 13.
pub const REGISTER_CONSTANT: u8 = 3;

// The register `first` and the one in byte 4, under the operator in byte 5.
pub const REGISTER_REGISTER: u8 = 4;

// A constant that a jump goes to, bytes 3 to 10.
pub const JUMP_CONSTANT: u8 = 5;

// The register `first`, which a branch tests.
pub const BRANCH: u8 = 6;

// Any other expression.
pub const GENERAL: u8 = 7;

// A word holds an offset below this, then the shape, then `first`, then `extra`.
const OFFSETS: u64 = 65536;

// How many shapes there are.
const SHAPES: u64 = 8;

// How many numbers `first` can be.
const FIRSTS: u64 = 256;

// The kind of a barrier, as in the kind byte.
const BARRIER: u8 = 7;

// The farthest place that a word names: no program has so many labels, so that it stands for every larger one.
const FARTHEST: u64 = 65535;

// The byte at an offset, or 0 past the end.
fn byte_at(p: &[u8], at: usize) -> u8
    ensures { result ≡ get_or p.now at 0 }
{
    if at < p.len() {
        return p[at];
    }
    0
}

// The shape of an expression of one token, by the token's byte.
fn shape_of_one(b: u8) -> u8
    ensures { result ≡ one_shape b }
{
    if b < 16 {
        return REGISTER;
    }
    if b == 16 {
        return CONSTANT;
    }
    GENERAL
}

// The shape of three tokens, the first of them at an offset.
fn shape_of_three(p: &[u8], at: usize) -> u8
    requires { at + 10 < 2 ^ 64 }
    ensures { result ≡ three_shape p.now at }
{
    if 15 < byte_at(p, at) {
        return GENERAL;
    }
    let second = byte_at(p, at + 1);
    if second < 16 {
        if byte_at(p, at + 2) < 19 {
            return GENERAL;
        }
        return REGISTER_REGISTER;
    }
    if second != 16 {
        return GENERAL;
    }
    if byte_at(p, at + 10) < 19 {
        return GENERAL;
    }
    REGISTER_CONSTANT
}

// The shape of an expression whose token count is at an offset.
fn shape_of_expression(p: &[u8], at: usize) -> u8
    requires { at + 11 < 2 ^ 64 }
    ensures { result ≡ expression_shape p.now at }
{
    let count = byte_at(p, at);
    if count == 1 {
        return shape_of_one(byte_at(p, at + 1));
    }
    if count == 3 {
        return shape_of_three(p, at + 1);
    }
    GENERAL
}

// The shape of a jump's expression, whose token count is at an offset: a constant stands a byte further to the front than elsewhere,
// and all but that and a register is left to the general way.
fn shape_of_jump(p: &[u8], at: usize) -> u8
    requires { at + 1 < 2 ^ 64 }
    ensures { result ≡ jump_shape p.now at }
{
    if byte_at(p, at) != 1 {
        return GENERAL;
    }
    let token = byte_at(p, at + 1);
    if token < 16 {
        return REGISTER;
    }
    if token != 16 {
        return GENERAL;
    }
    JUMP_CONSTANT
}

// The shape of the instruction at an offset, by its kind byte: here and below the number that the job file has (C interface). By `rules::Kind` each
// function would look at it twice, `instruction_at` in the midst of a step, and answer a refusal too, though the program was accepted.
fn shape_at(p: &[u8], at: usize) -> u8
    requires { at + 13 < 2 ^ 64 }
    ensures { result ≡ shape_at p.now at }
{
    match byte_at(p, at) {
        1 => shape_of_expression(p, at + 2),
        2 => shape_of_expression(p, at + 2),
        3 => shape_of_expression(p, at + 2),
        4 => shape_of_jump(p, at + 1),
        5 => BRANCH,
        6 => shape_of_expression(p, at + 2),
        _ => NOTHING,
    }
}

// The byte where the first register stands, if the shape has one; the kind of an instruction that reads nothing.
fn first_at(p: &[u8], at: usize) -> u8
    requires { at + 3 < 2 ^ 64 }
    ensures { result ≡ first_at p.now at }
{
    match byte_at(p, at) {
        0 => 0,
        4 => byte_at(p, at + 2),
        5 => byte_at(p, at + 1),
        7 => BARRIER,
        _ => byte_at(p, at + 3),
    }
}

// The place that a jump names if it is to a constant; 0 of any other jump. It is found here once, so that a step does not wait for the
// constant's bytes.
fn target_at(p: &[u8], at: usize) -> u64
    requires { (readable (instr p.now at) ≡ true) × (get_or p.now at 0 ≡ 4) }
    ensures { (result ≡ target_at p.now at) × (result ≤ offsets) }
{
    if shape_of_jump(p, at + 1) != JUMP_CONSTANT {
        return 0;
    }
    let constant = token::word(p, at + 3);
    if constant < FARTHEST {
        return constant;
    }
    FARTHEST
}

// The label of a branch; the offset of a conditional assignment's second expression; the place that a jump names; 0 elsewhere.
fn extra_at(p: &[u8], at: usize) -> u64
    requires { (readable (instr p.now at) ≡ true) × (length p.now ≤ offsets) }
    ensures { (result ≡ extra_at p.now at) × (result ≤ offsets) }
{
    match p[at] {
        4 => target_at(p, at),
        5 => token::two_bytes(p, at + 2),
        6 => token::expression_end(p, at + 2) as u64,
        _ => 0,
    }
}

// The word of an instruction that can be read at an offset.
pub fn word_at(p: &[u8], at: usize) -> u64
    requires { (readable (instr p.now at) ≡ true) × (length p.now ≤ offsets) }
    ensures { result ≡ word_at p.now at }
{
    let shape = shape_at(p, at) as u64;
    let first = first_at(p, at) as u64;
    let extra = extra_at(p, at);
    at as u64 + OFFSETS * (shape + SHAPES * (first + FIRSTS * extra))
}

// The offset after an instruction that can be read: its fields are passed by their extents.
pub fn next_offset(p: &[u8], at: usize) -> usize
    requires { readable (instr p.now at) ≡ true }
    ensures { result ≡ next_offset (instr p.now at) }
{
    match p[at] {
        0 => at + 1,
        4 => token::expression_end(p, at + 1),
        5 => at + 4,
        6 => {
            let second = token::expression_end(p, at + 2);
            token::expression_end(p, second)
        }
        7 => at + 1,
        _ => token::expression_end(p, at + 2),
    }
}

// The descriptor that a word holds.
pub fn descriptor_in(word: u64) -> Descriptor
    ensures { result ≡ descriptor_in word }
{
    Descriptor {
        at: (word % OFFSETS) as usize,
        shape: (word / OFFSETS % SHAPES) as u8,
        first: (word / OFFSETS / SHAPES % FIRSTS) as u8,
        extra: (word / OFFSETS / SHAPES / FIRSTS) as usize,
    }
}

// Where the constant of a shape that has one starts.
fn constant_place(shape: u8) -> usize
    ensures { (result ≡ constant_place shape) × (result < 8) }
{
    if shape == REGISTER_CONSTANT {
        return 5;
    }
    if shape == JUMP_CONSTANT {
        return 3;
    }
    4
}

// Where the operator of a shape that has one stands.
fn operator_place(shape: u8) -> usize
    ensures { (result ≡ operator_place shape) × (result < 16) }
{
    if shape == REGISTER_CONSTANT {
        return 13;
    }
    5
}

// The constant of a descriptor's instruction, if its shape has one.
pub fn constant_of(p: &[u8], d: Descriptor) -> u64
    requires { d.at + constant_place d.shape + 8 ≤ length p.now }
    ensures { result ≡ little p.now (d.at + constant_place d.shape) 8 }
{
    let place = constant_place(d.shape);
    token::word(p, d.at + place)
}

// The second register of a descriptor's instruction, if its shape has one.
pub fn second_of(p: &[u8], d: Descriptor) -> u8
    requires { d.at + 4 < length p.now }
    ensures { result ≡ get_or p.now (d.at + 4) 0 }
{
    p[d.at + 4]
}

// The operator of a descriptor's instruction, if its shape has one: its place in the rules' table.
pub fn operator_of(p: &[u8], d: Descriptor) -> u8
    requires { (d.at + operator_place d.shape < length p.now) × (19 ≤ get_or p.now (d.at + operator_place d.shape) 0) }
    ensures { result ≡ get_or p.now (d.at + operator_place d.shape) 0 - 19 }
{
    let place = operator_place(d.shape);
    p[d.at + place] - 19
}

// Where the token count of an instruction's first expression stands: a jump has no register before it.
fn count_at(p: &[u8], at: usize) -> usize
    requires { (at < length p.now) × (at + 2 < 2 ^ 64) }
    ensures { result ≡ count_at p.now at }
{
    if p[at] == 4 {
        return at + 1;
    }
    at + 2
}

// The first expression of a descriptor's instruction.
pub fn expression_of(p: &[u8], d: Descriptor) -> Expression
    requires { readable (expr p.now (count_at p.now d.at)) ≡ true }
    ensures { tokens result.count p.now result.at ≡ expr p.now (count_at p.now d.at) }
{
    token::expression_at(p, count_at(p, d.at))
}

// The instruction that `make` makes of a register and the expression after it.
fn with_register_at<F: Fn(u8, Expression) -> Instruction>(
    p: &[u8],
    at: usize,
    make: F,
) -> Instruction
    requires callable { F.IsAlwaysCallable make }
    requires stands { (at < length p.now) × (readable (expr p.now (at + 1)) ≡ true) }
    ensures { (f : ℕ → Expr → Instr) → Makes p.now (F.post make) f → readable (with_register f p.now at) ≡ true
        → meaning p.now result ≡ value_or skip (with_register f p.now at) }
{
    make(p[at], token::expression_at(p, at + 1))
}

fn jump_at(p: &[u8], at: usize) -> Instruction
    requires { readable (jump p.now at) ≡ true }
    ensures { meaning p.now result ≡ value_or skip (jump p.now at) }
{
    Instruction::Jump(token::expression_at(p, at))
}

// `second` is where the second expression stands: the condition's tokens are not read for that.
fn conditional_at(p: &[u8], at: usize, second: usize) -> Instruction
    requires { (readable (conditional p.now at) ≡ true) × (second ≡ next_offset (expr p.now (at + 1))) }
    ensures { meaning p.now result ≡ value_or skip (conditional p.now at) }
{
    let r = p[at];
    let c = token::expression_at(p, at + 1);
    let e = token::expression_at(p, second);
    Instruction::AssignIf(r, c, e)
}

// The instruction at an offset where one with an expression stands: its fields are taken as they are, with no test. `second` is where the
// second expression of a conditional assignment stands.
fn instruction_at(p: &[u8], at: usize, second: usize) -> Instruction
    requires { WithExpression p.now at × SecondAt p.now at second }
    ensures { meaning p.now result ≡ value_or skip (instr p.now at) }
{
    let k = p[at];
    let next = at + 1;
    match k {
        1 => with_register_at(p, next, |r, e| Instruction::Assign(r, e)),
        2 => with_register_at(p, next, |r, e| Instruction::Load(r, e)),
        3 => with_register_at(p, next, |r, e| Instruction::Store(r, e)),
        4 => jump_at(p, next),
        _ => conditional_at(p, next, second),
    }
}

// The instruction of a kind that reads nothing: one that is not a skip is a barrier.
fn bare(kind: u8) -> Instruction
    ensures { (p : List ℕ) → meaning p result ≡ bare kind }
{
    if kind == 0 {
        return Instruction::Skip;
    }
    Instruction::Barrier
}

// Whether the instruction of a word is a skip by its kind, which is 0: shape and kind are looked at at once.
pub fn is_skip(word: u64) -> bool
    ensures { result ≡ is_skip (descriptor_in word) }
{
    word / OFFSETS % (SHAPES * FIRSTS) == 0
}

// Whether the instruction of a word reads nothing.
pub fn is_bare(word: u64) -> bool
    ensures { result ≡ is_bare (descriptor_in word) }
{
    word / OFFSETS % SHAPES == 0
}

// The instruction of a descriptor. The shape of a jump to a constant tells its kind.
pub fn instruction_of(p: &[u8], d: Descriptor) -> Instruction
    requires { Valid p.now d }
    ensures { meaning p.now result ≡ instruction_in p.now d }
{
    let shape = d.shape;
    if shape == NOTHING {
        return bare(d.first);
    }
    if shape == BRANCH {
        return Instruction::BranchZero(d.first, Label::new(d.extra));
    }
    if shape == JUMP_CONSTANT {
        return jump_at(p, d.at + 1);
    }
    instruction_at(p, d.at, d.extra)
}
