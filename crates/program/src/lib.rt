// A program: its tests (refusals 4 to 7), the table of its labels, and the descriptor of a label.
#![tactic(auto)]

ghost use Rattle.std.specs.Prelude.{◌≡◌, true, List, ℕ, ◌+◌, ◌<◌, ◌≤◌, length, get_or};
ghost use Rattle.std.proofs.lemmas.List.Edits.{sets};
ghost use Rattle.rules.specs.Rules.JobFile.{branch_label_holds, instruction, program};
ghost use Rattle.instruction.specs.Meaning.{meaning};
ghost use Rattle.program.specs.Checks.{checked_of};
ghost use Rattle.descriptor.specs.Descriptors.{offsets, descriptor_in};
ghost use Rattle.rules.specs.Theorems.Readers.{readable};
ghost use Rattle.program.specs.Words.{words_from};

use descriptor::Descriptor;
use instruction::Instruction;
use location::Label;
use rules::Refusal;

// Whether the branch label, if it has one, of the instruction with a label is allowed: at most n, and not the next label.
fn branch_label_holds(i: Instruction, n: usize, label: usize) -> bool
    requires { label < n }
    ensures { (p : List ℕ) → result ≡ branch_label_holds n label (meaning p i) }
{
    match i {
        Instruction::BranchZero(_, to) => to.index() <= n && to.index() != label + 1,
        _ => true,
    }
}

// The offset after an instruction that passed its tests, or the refusal: 4, then 5, then 6.
fn check_instruction(p: &[u8], at: usize, n: usize, label: usize) -> Result<usize, Refusal>
    requires { label < n }
    ensures { result ≡ checked_of (instruction n label p.now at) }
{
    let d = instruction::decode(p, at)?;
    if !d.sound {
        return Err(Refusal::Postfix);
    }
    if !branch_label_holds(d.instruction, n, label) {
        return Err(Refusal::BranchLabel);
    }
    Ok(d.next)
}

// A program of n instructions: 4, 5 and 6 on each in turn, then 7.
pub fn check_program(p: &[u8], n: usize) -> Result<usize, Refusal>
    ensures { result ≡ checked_of (program n n 0 p.now 0) }
{
    let mut at = 0;
    for label in 0..n {
        at = check_instruction(p, at, n, label)?;
    }
    if at != p.len() {
        return Err(Refusal::Surplus);
    }
    Ok(at)
}

// Writes the words of the n instructions of an accepted program to a table, from a base on. Here and below the table is a part of the working words
// that the caller lends (C interface). Other parts are written between these calls, so that a struct of slice and base would be made for each.
pub fn write_words(p: &[u8], n: usize, table: &mut [u64], base: usize)
    requires { (readable (program n n 0 p.now 0) ≡ true) × (length p.now ≤ offsets) × (base + n ≤ length table.old) }
    ensures { table.new ≡ sets table.old base (words_from n p.now 0) }
{
    let mut at: usize = 0;
    for label in 0..n {
        table[base + label] = descriptor::word_at(p, at);
        at = descriptor::next_offset(p, at);
    }
}

// The word of a label in the table.
pub fn word_of(table: &[u64], base: usize, label: Label) -> u64
    requires { base + label.0 < length table.now }
    ensures { result ≡ get_or table.now (base + label.0) 0 }
{
    table[base + label.index()]
}

// The descriptor of a label, by its word in the table.
pub fn fetch(table: &[u64], base: usize, label: Label) -> Descriptor
    requires { base + label.0 < length table.now }
    ensures { result ≡ descriptor_in (get_or table.now (base + label.0) 0) }
{
    descriptor::descriptor_in(word_of(table, base, label))
}
