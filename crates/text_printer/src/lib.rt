// A job's program as text, written into an area of bytes that the caller lends. Bytes are written as far as the area goes: into an
// area without length a pass only counts.
#![tactic(auto)]

ghost use Rattle.std.specs.Prelude.{◌≡◌, true, List, ℕ, ◌+◌, ◌^◌, ◌<◌, ◌≤◌, length, get_or};
ghost use Rattle.rules.specs.Rules.Operators.{neg, add};
ghost use Rattle.rules.specs.Rules.Instructions.{assign, beqz, cassign};
ghost use Rattle.rules.specs.Rules.Limits.{max_instructions};
ghost use Rattle.rules.specs.Rules.JobFile.{unary, binary, tokens, program};
ghost use Rattle.rules.specs.Rules.Listing.{decimal};
ghost use Rattle.rules.specs.Rules.TextPrinting.{register_text, top_text, expr_text, spaced, field_text, instr_text};
ghost use Rattle.rules.specs.Rules.TextCalls.{print_call};
ghost use Rattle.rules.specs.Rules.Demands.{Exact};
ghost use Rattle.rules.specs.Rules.TextPromises.{PrintPromise};
ghost use Rattle.rules.specs.Theorems.Readers.{readable};
ghost use Rattle.byte_writer.specs.Writing.{Put};
ghost use Rattle.byte_writer.specs.Writers.{HasRoom, Writes};
ghost use Rattle.token.specs.Meaning.{token_meaning, tokens_of};
ghost use Rattle.instruction.specs.Meaning.{meaning};
ghost use Rattle.text_printer.specs.Operands.{sign_part, operator_part, texts_at, below_after, IndexedAll, Operand, Printable};
ghost use Rattle.text_printer.specs.Programs.{PrintableInstr, word_text, program_printed, printed};

use byte_writer::Writer;
use instruction::Instruction;
use job::accepted::AcceptedJob;
use location::Label;
use rules::limits::MAX_TOKENS;
use rules::{PrintAnswer, Refusal};
use token::{Expression, Token};

#[tactic(auto, unfolding(rules::specs::Rules::TextPrinting::register_text))]
fn put_register(writer: &mut Writer<'_>, r: u8)
    requires { HasRoom writer.old (register_text r) }
    ensures { Writes writer.old (register_text r) writer.new }
{
    writer.put_byte(b'r');
    writer.put_decimal(r as u64);
}

// A sign and a space, by the sign's place in the rules' table: the token's byte less 17, as it is read.
fn sign_text(i: u8) -> &'static [u8]
    ensures { result.now ≡ sign_part (get_or unary i neg) }
{
    match i {
        1 => b"not ",
        _ => b"neg ",
    }
}

// An operator's name between spaces, by the operator's place in the rules' table: the token's byte less 19, as it is read.
fn operator_text(i: u8) -> &'static [u8]
    ensures { result.now ≡ operator_part (get_or binary i add) }
{
    match i {
        1 => b" sub ",
        2 => b" mul ",
        3 => b" and ",
        4 => b" or ",
        5 => b" xor ",
        6 => b" shl ",
        7 => b" shr ",
        8 => b" eq ",
        9 => b" ult ",
        _ => b" add ",
    }
}

// How many tokens stand before the operand that token i, counted from 0, ends. `below` says it for each operand that ends before: at j for
// the one that the first j tokens end with.
fn below_after(below: &[usize], i: usize, t: Token) -> usize
    requires { (i < length below.now) × (get_or below.now i 0 ≤ i) }
    ensures { result ≡ below_after below.now i (token_meaning t) }
{
    match t {
        Token::Register(_) => i,
        Token::Constant(_) => i,
        Token::Unary(_) => below[i],
        Token::Binary(_) => {
            let right = below[i];
            below[right]
        }
    }
}

// The offset of each token of an expression, and at j how many tokens stand before the operand that the first j tokens end with. So a printer
// finds both operands of an operator, the right one ending just before it, and the left one just before the right. The two arrays are no
// pairs: one has a place for each token, the other for each number of tokens, 0 too.
fn index_tokens(p: &[u8], e: Expression, offsets: &mut [usize], below: &mut [usize])
    requires { (readable (tokens e.count p.now e.at) ≡ true) × (e.count ≤ length offsets.old) × (e.count < length below.old) }
    ensures { IndexedAll p.now e offsets.new below.new }
{
    below[0] = 0;
    let mut offset = e.at;
    for i in 0..e.count {
        let read = token::token_at(p, offset);
        let first = below_after(below, i, read.token);
        offsets[i] = offset;
        below[i + 1] = first;
        offset = read.next;
    }
}

// The text of the operand that the first k tokens end with. The last of them is a register, a constant, or an operator after its operands;
// k falls from call to call, so at most 16 calls are open.
fn put_operand(writer: &mut Writer<'_>, p: &[u8], offsets: &[usize], below: &[usize], k: usize)
    requires { Operand p.now offsets.now below.now k writer.old.at }
    ensures { Writes writer.old (top_text (texts_at p.now offsets.now k)) writer.new }
{
    let last = k - 1;
    match token::token_at(p, offsets[last]).token {
        Token::Register(r) => put_register(writer, r),
        Token::Constant(c) => writer.put_decimal(c),
        Token::Unary(i) => {
            writer.put_text(sign_text(i));
            put_operand(writer, p, offsets, below, last);
        }
        Token::Binary(i) => {
            let left = below[last];
            writer.put_byte(b'(');
            put_operand(writer, p, offsets, below, left);
            writer.put_text(operator_text(i));
            put_operand(writer, p, offsets, below, last);
            writer.put_byte(b')');
        }
    }
}

// An expression of an accepted program.
fn put_expression(writer: &mut Writer<'_>, p: &[u8], e: Expression)
    requires { Printable (tokens_of p.now e) × HasRoom writer.old (expr_text (tokens_of p.now e)) }
    ensures { Writes writer.old (expr_text (tokens_of p.now e)) writer.new }
{
    let mut offsets = [0usize; MAX_TOKENS];
    let mut below = [0usize; MAX_TOKENS + 1];
    index_tokens(p, e, &mut offsets, &mut below);
    put_operand(writer, p, &offsets, &below, e.count);
}

// ---- fields, each after its space
fn put_register_field(writer: &mut Writer<'_>, r: u8)
    requires { HasRoom writer.old (spaced (register_text r)) }
    ensures { Writes writer.old (spaced (register_text r)) writer.new }
{
    writer.put_byte(b' ');
    put_register(writer, r);
}

fn put_label_field(writer: &mut Writer<'_>, l: Label)
    requires { HasRoom writer.old (spaced (decimal l.0)) }
    ensures { Writes writer.old (spaced (decimal l.0)) writer.new }
{
    writer.put_byte(b' ');
    writer.put_decimal(l.index() as u64);
}

fn put_expression_field(writer: &mut Writer<'_>, p: &[u8], e: Expression)
    requires { Printable (tokens_of p.now e) × HasRoom writer.old (spaced (expr_text (tokens_of p.now e))) }
    ensures { Writes writer.old (spaced (expr_text (tokens_of p.now e))) writer.new }
{
    writer.put_byte(b' ');
    put_expression(writer, p, e);
}

#[tactic(auto, using(crate::proofs::Programs::lengths))]
fn put_register_and_expression(writer: &mut Writer<'_>, p: &[u8], r: u8, e: Expression)
    requires { Printable (tokens_of p.now e) × HasRoom writer.old (field_text (assign r (tokens_of p.now e))) }
    ensures { Writes writer.old (field_text (assign r (tokens_of p.now e))) writer.new }
{
    put_register_field(writer, r);
    put_expression_field(writer, p, e);
}

#[tactic(auto, using(crate::proofs::Programs::lengths))]
fn put_register_and_label(writer: &mut Writer<'_>, r: u8, l: Label)
    requires { HasRoom writer.old (field_text (beqz r l.0)) }
    ensures { Writes writer.old (field_text (beqz r l.0)) writer.new }
{
    put_register_field(writer, r);
    put_label_field(writer, l);
}

#[tactic(auto, using(crate::proofs::Programs::lengths))]
fn put_register_and_two(writer: &mut Writer<'_>, p: &[u8], r: u8, c: Expression, e: Expression)
    requires { Printable (tokens_of p.now c) × Printable (tokens_of p.now e)
        × HasRoom writer.old (field_text (cassign r (tokens_of p.now c) (tokens_of p.now e))) }
    ensures { Writes writer.old (field_text (cassign r (tokens_of p.now c) (tokens_of p.now e))) writer.new }
{
    put_register_field(writer, r);
    put_expression_field(writer, p, c);
    put_expression_field(writer, p, e);
}

fn put_fields(writer: &mut Writer<'_>, p: &[u8], i: Instruction)
    requires { PrintableInstr (meaning p.now i) × HasRoom writer.old (field_text (meaning p.now i)) }
    ensures { Writes writer.old (field_text (meaning p.now i)) writer.new }
{
    match i {
        Instruction::Skip => {}
        Instruction::Assign(r, e) => put_register_and_expression(writer, p, r, e),
        Instruction::Load(r, e) => put_register_and_expression(writer, p, r, e),
        Instruction::Store(r, e) => put_register_and_expression(writer, p, r, e),
        Instruction::Jump(e) => put_expression_field(writer, p, e),
        Instruction::BranchZero(r, l) => put_register_and_label(writer, r, l),
        Instruction::AssignIf(r, c, e) => put_register_and_two(writer, p, r, c, e),
        Instruction::Barrier => {}
    }
}

// The word of an instruction, whatever the bytes are that its expressions stand in. Not inlined: in its own function the compiler makes
// offsets of the words, and in the caller's a table of addresses, which would be data of the library's own.
#[tactic(auto, unfolding(crate::specs::Programs::word_text, rules::specs::Rules::TextReading::instruction_words, rules::specs::Rules::Answers::text))]
#[inline(never)]
fn instruction_word(i: Instruction) -> &'static [u8]
    ensures { (p : List ℕ) → result.now ≡ word_text (meaning p i) }
{
    match i {
        Instruction::Skip => b"skip",
        Instruction::Assign(_, _) => b"set",
        Instruction::Load(_, _) => b"load",
        Instruction::Store(_, _) => b"store",
        Instruction::Jump(_) => b"jmp",
        Instruction::BranchZero(_, _) => b"beqz",
        Instruction::AssignIf(_, _, _) => b"cset",
        Instruction::Barrier => b"spbarr",
    }
}

// A line: the word, the fields and a newline.
#[tactic(auto, using(crate::proofs::Programs::lengths))]
fn put_instruction(writer: &mut Writer<'_>, p: &[u8], i: Instruction)
    requires { PrintableInstr (meaning p.now i) × HasRoom writer.old (instr_text (meaning p.now i)) }
    ensures { Writes writer.old (instr_text (meaning p.now i)) writer.new }
{
    writer.put_text(instruction_word(i));
    put_fields(writer, p, i);
    writer.put_byte(b'\n');
}

// The lines of an accepted program of n instructions, from the front of the area as far as they fit. The result is their length.
fn put_program(p: &[u8], n: usize, out: &mut [u8]) -> usize
    requires { (readable (program n n 0 p.now 0) ≡ true) × (n ≤ max_instructions) }
    ensures { Put out.old 0 (program_printed p.now n) out.new result }
{
    let mut writer = Writer::new(out);
    let mut offset = 0;
    for _ in 0..n {
        let d = instruction::decode(p, offset).unwrap();
        put_instruction(&mut writer, p, d.instruction);
        offset = d.next;
    }
    writer.at
}

// The text of an accepted program: its length by a pass into an area without length, then 12, then the text.
fn print_program(p: &[u8], n: usize, out: &mut [u8]) -> PrintAnswer
    requires { (readable (program n n 0 p.now 0) ≡ true) × (n ≤ max_instructions) }
    ensures { Exact (printed (program_printed p.now n) out.old) result out.new }
{
    let mut none = [0u8; 0];
    let length = put_program(p, n, &mut none);
    if out.len() < length {
        return Err(Refusal::Output);
    }
    put_program(p, n, out);
    Ok(length)
}

// The program of an accepted job stands before its state.
fn print_accepted(job: &AcceptedJob, out: &mut [u8]) -> PrintAnswer
    ensures { Exact (print_call job.now.bytes.now out.old) result out.new }
{
    let t = job.trailer;
    print_program(&job.bytes[..t.state], t.count, out)
}

// The program of a job as text, from the front of the area, or a refusal: 1 to 8 of the job, then 12. Any bytes and any area will do.
// Reading the text restores the program (`round_trip` of the promise).
pub fn print_text(job: &[u8], out: &mut [u8]) -> PrintAnswer
    ensures { PrintPromise job.now out.old result out.new }
{
    let accepted = AcceptedJob::read(job)?;
    print_accepted(&accepted, out)
}
