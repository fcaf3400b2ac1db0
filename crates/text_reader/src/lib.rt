// A routine as text, read line by line and written as the bytes of document 01's program. Bytes are written as far as the area goes: into
// an area without length a reading only tests and counts.
#![tactic(auto)]

ghost use Rattle.std.specs.Prelude.{◌≡◌, ◌+◌, ◌^◌, ◌<◌, drop};
ghost use Rattle.rules.specs.Rules.Limits.{max_instructions};
ghost use Rattle.rules.specs.Rules.Instructions.{kind_number};
ghost use Rattle.rules.specs.Rules.Parts.{parts};
ghost use Rattle.rules.specs.Rules.TextReading.{line_of};
ghost use Rattle.rules.specs.Rules.TextPromises.{ReadPromise};
ghost use Rattle.text_reader.specs.Faults.{held_line, fault_line};
ghost use Rattle.text_reader.specs.Fields.{RegisterTold, OperandTold, LabelTold, AssignmentTold, BranchTold, ConditionalTold, FieldsTold};
ghost use Rattle.text_reader.specs.Reading.{largest, no_parts, instruction_line, LineTold, CountTold, ScanTold};

use lexer::{Part, Place};
use rules::limits::MAX_INSTRUCTIONS;
use rules::{Kind, ReadAnswer, ReadProgram, Refusal};

// How far a reading has come: the offset in the text, and the place in the area. A field that is not there, or that breaks a rule, gives none.
#[derive(Clone, Copy)]
struct Progress {
    at: usize,
    to: usize,
}

// The instruction that a line holds: its label, below the limit of a program, and how many instructions the routine has.
#[derive(Clone, Copy)]
struct Numbered {
    label: usize,
    count: usize,
    ghost is_label: { label < max_instructions },
}

// Whether no part stands in the line from an offset on.
fn ends_at(text: &[u8], at: usize) -> bool
    ensures { result ≡ no_parts (parts (drop at text.now)) }
{
    matches!(lexer::part_at(text, at), Part::End)
}

fn read_register(text: &[u8], p: Progress, out: &mut [u8]) -> Option<Progress>
    requires { p.to + 1 < 2 ^ 64 }
    ensures { RegisterTold text.now p.at out.old p.to out.new result }
{
    let Part::Name(start, end) = lexer::part_at(text, p.at) else {
        return None;
    };
    let register = names::register_named(&text[start..end])?;
    let next = byte_writer::put_byte(out, p.to, register);
    Some(Progress { at: end, to: next })
}

// An expression that keeps the postfix rule.
fn read_operand(text: &[u8], p: Progress, out: &mut [u8]) -> Option<Progress>
    requires { p.to + 145 < 2 ^ 64 }
    ensures { OperandTold text.now p.at out.old p.to out.new result }
{
    let whole = operand::read_whole(text, p.at, out, p.to)?;
    if !whole.sound {
        return None;
    }
    Some(Progress {
        at: whole.at,
        to: whole.to,
    })
}

// The label of a branch, which is an instruction itself.
fn read_label(text: &[u8], p: Progress, own: Numbered, out: &mut [u8]) -> Option<Progress>
    requires { p.to + 2 < 2 ^ 64 }
    ensures { LabelTold text.now p.at own.count own.label out.old p.to out.new result }
{
    let Part::Name(start, end) = lexer::part_at(text, p.at) else {
        return None;
    };
    let label = names::constant_named(&text[start..end])?;
    if (own.count as u64) < label {
        return None;
    }
    if label == (own.label + 1) as u64 {
        return None;
    }
    let next = byte_writer::put_number(out, p.to, label, 2);
    Some(Progress { at: end, to: next })
}

// A register, then an operand.
fn read_assignment(text: &[u8], p: Progress, out: &mut [u8]) -> Option<Progress>
    requires { p.to + 146 < 2 ^ 64 }
    ensures { AssignmentTold text.now p.at out.old p.to out.new result }
{
    let p = read_register(text, p, out)?;
    read_operand(text, p, out)
}

// A register, then a label.
fn read_branch(text: &[u8], p: Progress, own: Numbered, out: &mut [u8]) -> Option<Progress>
    requires { p.to + 3 < 2 ^ 64 }
    ensures { BranchTold text.now p.at own.count own.label out.old p.to out.new result }
{
    let p = read_register(text, p, out)?;
    read_label(text, p, own, out)
}

// A register, then two operands.
fn read_conditional(text: &[u8], p: Progress, out: &mut [u8]) -> Option<Progress>
    requires { p.to + 291 < 2 ^ 64 }
    ensures { ConditionalTold text.now p.at out.old p.to out.new result }
{
    let p = read_assignment(text, p, out)?;
    read_operand(text, p, out)
}

// What follows an instruction word, by kind.
fn read_fields(
    text: &[u8],
    p: Progress,
    kind: Kind,
    own: Numbered,
    out: &mut [u8],
) -> Option<Progress>
    requires { p.to + 291 < 2 ^ 64 }
    ensures { FieldsTold text.now p.at (kind_number kind) own.count own.label out.old p.to out.new result }
{
    match kind {
        Kind::Skip | Kind::Barrier => Some(p),
        Kind::Assign | Kind::Load | Kind::Store => read_assignment(text, p, out),
        Kind::Jump => read_operand(text, p, out),
        Kind::BranchZero => read_branch(text, p, own, out),
        Kind::AssignIf => read_conditional(text, p, out),
    }
}

// What a line without fault leaves: the place after its bytes, and the instructions so far. A faulty line gives none.
#[derive(Drop)]
struct LineRead {
    to: usize,
    count: usize,
}

// The instruction whose word is known, which has to be the whole line.
fn read_instruction(
    text: &[u8],
    p: Progress,
    kind: Kind,
    own: Numbered,
    out: &mut [u8],
) -> Option<LineRead>
    requires { p.to + largest < 2 ^ 64 }
    ensures { LineTold (instruction_line text.now p.at (kind_number kind)) own.count own.label out.old p.to out.new result }
{
    let to = byte_writer::put_byte(out, p.to, u8::from(kind));
    let p = read_fields(text, Progress { to, ..p }, kind, own, out)?;
    if !ends_at(text, p.at) {
        return None;
    }
    Some(LineRead {
        to: p.to,
        count: own.label + 1,
    })
}

// The line whose first part may stand there. Its instruction has label i, of n.
fn read_line(text: &[u8], p: Progress, n: usize, i: usize, out: &mut [u8]) -> Option<LineRead>
    requires { p.to + largest < 2 ^ 64 }
    ensures { LineTold (line_of (parts (drop p.at text.now))) n i out.old p.to out.new result }
{
    match lexer::part_at(text, p.at) {
        Part::End => Some(LineRead { to: p.to, count: i }),
        Part::Name(start, end) => {
            if MAX_INSTRUCTIONS <= i {
                return None;
            }
            let kind = names::kind_named(&text[start..end])?;
            let own = Numbered { label: i, count: n };
            read_instruction(text, Progress { at: end, ..p }, kind, own, out)
        }
        _ => None,
    }
}

// What reading all lines gives: the place after the program's bytes, its instructions, and the line of the first fault, counted from 1.
#[derive(Drop)]
struct Scanned {
    to: usize,
    count: usize,
    fault: Option<usize>,
}

// All lines of a text, of which n are not blank. The lexer moves a small struct of offset and line on, as document 01 has it: no iterator does.
fn read_lines(text: &[u8], n: usize, out: &mut [u8]) -> Scanned
    ensures { ScanTold text.now n out.old out.new result }
{
    let mut place = Place { at: 0, line: 0 };
    let mut count = 0;
    let mut to = 0;
    while place.at <= text.len() {
        let line = lexer::line_at(text, place);
        place = line.next;
        let from = Progress { at: line.start, to };
        let Some(read) = read_line(text, from, n, count, out) else {
            return Scanned {
                to,
                count,
                fault: Some(place.line),
            };
        };
        to = read.to;
        count = read.count;
    }
    Scanned {
        to,
        count,
        fault: None,
    }
}

// How many lines a text has, and how many of them are not blank.
#[derive(Drop)]
struct Counted {
    lines: usize,
    held: usize,
}

// The line whose first part may stand at an offset: 0 where it is blank, else 1.
fn held_at(text: &[u8], at: usize) -> usize
    ensures { result ≡ held_line (line_of (parts (drop at text.now))) }
{
    usize::from(!ends_at(text, at))
}

fn count_lines(text: &[u8]) -> Counted
    ensures { CountTold text.now result }
{
    let mut place = Place { at: 0, line: 0 };
    let mut held = 0;
    while place.at <= text.len() {
        let line = lexer::line_at(text, place);
        held += held_at(text, line.start);
        place = line.next;
    }
    Counted {
        lines: place.line,
        held,
    }
}

// The program of a text, into an area of bytes, in three passes: the lines that are not blank are counted, all lines are read to test them
// and to count the bytes, and read again to write. So a refusal writes nothing.
pub fn read_text(text: &[u8], out: &mut [u8]) -> ReadAnswer
    ensures { ReadPromise text.now out.old result out.new }
{
    let counted = count_lines(text);
    let n = counted.held;
    if n == 0 {
        return Err(Refusal::Text);
    }
    let first = read_lines(text, n, &mut out[0..0]);
    if first.fault.is_some() {
        return Err(Refusal::Text);
    }
    if out.len() < first.to {
        return Err(Refusal::Output);
    }
    let second = read_lines(text, n, out);
    Ok(ReadProgram {
        bytes: second.to,
        instructions: second.count,
    })
}

// Where a text is refused, for people: the line of the first fault, counted from 1. A number, 0 where there is none, since programs
// print it.
pub fn fault_line(text: &[u8]) -> usize
    ensures { result ≡ fault_line text.now }
{
    let counted = count_lines(text);
    let n = counted.held;
    if n == 0 {
        return counted.lines;
    }
    read_lines(text, n, &mut []).fault.unwrap_or(0)
}
