// Operands of a routine as text: read part by part, and written as the tokens of document 01's postfix. Bytes are written as far as the
// area goes: into an area without length a reading only counts.
#![tactic(auto)]

ghost use Rattle.std.specs.Prelude.{◌≡◌, ◌∷◌, [], ◌+◌, ◌*◌, ◌^◌, ◌<◌, drop};
ghost use Rattle.rules.specs.Rules.Limits.{max_tokens};
ghost use Rattle.rules.specs.Rules.Expressions.{const};
ghost use Rattle.rules.specs.Rules.Encoding.{token_bytes};
ghost use Rattle.rules.specs.Rules.Parts.{segment, parts};
ghost use Rattle.rules.specs.Rules.TextReading.{taken, simple_named, expression, operand};
ghost use Rattle.operand.specs.Operands.{Roomy, NameAt, TokenPut, OperandTold, OperatorTold, ClosedTold, WholeTold};

use lexer::Part;
use rules::limits::MAX_TOKENS;

// The byte of a constant's token.
const CONSTANT: u8 = 16;

// How far a reading has come: the offset in the text, the place in the area, the tokens of the expression so far, and the values that
// they hold (a number as the rules count it: 9 marks the postfix rule as broken, for good). That there is room (`Roomy`) stands in clauses:
// a ghost field for it would forbid `..p`, and each progress at another offset would need a call with a contract of its own.
#[derive(Clone, Copy)]
struct Progress {
    at: usize,
    to: usize,
    count: usize,
    held: usize,
}

// A token of one byte, which takes so many operands, after those read so far; the text goes on at an offset.
fn put_token(p: Progress, at: usize, byte: u8, takes: usize, out: &mut [u8]) -> Option<Progress>
    requires { Roomy p }
    ensures { TokenPut p at (byte ∷ []) takes out.old out.new result }
{
    if MAX_TOKENS <= p.count {
        return None;
    }
    let to = byte_writer::put_byte(out, p.to, byte);
    Some(Progress {
        at,
        to,
        count: p.count + 1,
        held: token::held_after(p.held, takes),
    })
}

// A constant, likewise.
fn put_constant(p: Progress, at: usize, value: u64, out: &mut [u8]) -> Option<Progress>
    requires { Roomy p }
    ensures { TokenPut p at (token_bytes (const value)) 0 out.old out.new result }
{
    if MAX_TOKENS <= p.count {
        return None;
    }
    let first = byte_writer::put_byte(out, p.to, CONSTANT);
    let to = byte_writer::put_number(out, first, value, 8);
    Some(Progress {
        at,
        to,
        count: p.count + 1,
        held: token::held_after(p.held, 0),
    })
}

// A register or a constant, by its name.
fn read_simple(
    text: &[u8],
    start: usize,
    end: usize,
    p: Progress,
    out: &mut [u8],
) -> Option<Progress>
    requires { NameAt text.now p.at start end × Roomy p }
    ensures { OperandTold text.now (taken (simple_named (segment text.now start end)) (parts (drop end text.now)))
        p out.old out.new result }
{
    let name = &text[start..end];
    if let Some(register) = names::register_named(name) {
        return put_token(p, end, register, 0, out);
    }
    put_constant(p, end, names::constant_named(name)?, out)
}

// An operator's byte, and the offset after its name.
#[derive(Drop)]
struct OperatorAt {
    byte: u8,
    next: usize,
}

// The operator whose name stands first.
fn operator_at(text: &[u8], at: usize) -> Option<OperatorAt>
    ensures { OperatorTold text.now at result }
{
    let Part::Name(start, end) = lexer::part_at(text, at) else {
        return None;
    };
    let byte = names::operator_named(&text[start..end])?;
    Some(OperatorAt { byte, next: end })
}

// The operator after its two operands, where the closing bracket stands.
fn close(text: &[u8], p: Progress, byte: u8, out: &mut [u8]) -> Option<Progress>
    requires { Roomy p }
    ensures { ClosedTold text.now p byte out.old out.new result }
{
    let Part::Closing(next) = lexer::part_at(text, p.at) else {
        return None;
    };
    put_token(p, next, byte, 2, out)
}

// "A bracketed operand is again an expression": this reader and the next call each other, and what is left of the text falls. The levels
// bound the depth of the calls.
#[cycle(read_expression_read_operand)]
fn read_operand(text: &[u8], p: Progress, levels: usize, out: &mut [u8]) -> Option<Progress>
    requires { Roomy p }
    ensures { OperandTold text.now (operand levels (parts (drop p.at text.now)))
        p out.old out.new result }
{
    if levels == 0 {
        return None;
    }
    match lexer::part_at(text, p.at) {
        Part::Name(start, end) => match names::sign_named(&text[start..end]) {
            Some(sign) => {
                let signed = read_operand(text, Progress { at: end, ..p }, levels - 1, out)?;
                put_token(signed, signed.at, sign, 1, out)
            }
            None => read_simple(text, start, end, p, out),
        },
        Part::Opening(next) => read_expression(text, Progress { at: next, ..p }, levels - 1, out),
        _ => None,
    }
}

// Two operands round an operator, and the closing bracket.
#[cycle(read_expression_read_operand)]
fn read_expression(text: &[u8], p: Progress, levels: usize, out: &mut [u8]) -> Option<Progress>
    requires { Roomy p }
    ensures { OperandTold text.now (expression (operand levels) (parts (drop p.at text.now)))
        p out.old out.new result }
{
    let left = read_operand(text, p, levels, out)?;
    let operator = operator_at(text, left.at)?;
    let after_operator = Progress {
        at: operator.next,
        ..left
    };
    let right = read_operand(text, after_operator, levels, out)?;
    close(text, right, operator.byte, out)
}

// An expression of the file for an operand of the text: the offset after the operand, the place after the expression's bytes, and whether the
// expression keeps the postfix rule.
#[derive(Drop)]
pub struct Whole {
    pub at: usize,
    pub to: usize,
    pub sound: bool,
}

// A field of an instruction: its tokens, then before them their count. Each level of signs and brackets has a token of its own, so that there are
// no more levels than tokens.
pub fn read_whole(text: &[u8], at: usize, out: &mut [u8], to: usize) -> Option<Whole>
    requires { to + 9 * max_tokens + 1 < 2 ^ 64 }
    ensures { WholeTold text.now at out.old to out.new result }
{
    let first = Progress {
        at,
        to: to + 1,
        count: 0,
        held: 0,
    };
    let p = read_operand(text, first, MAX_TOKENS, out)?;
    byte_writer::put_byte(out, to, p.count as u8);
    Some(Whole {
        at: p.at,
        to: p.to,
        sound: p.held == 1,
    })
}
