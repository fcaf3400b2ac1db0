// The program that reads a routine as text: routine.txt in its folder. It prints how many bytes and instructions the program has, or, on
// standard error, the line of the first fault and the refusal's number. A missing file is an empty text.
// What fails is told on standard error and ends it with status 1; a refusal, and a text that is too long, with 0.
// Assumed of the system: what std's contracts say of its calls.
#![tactic(auto)]

use std::process::ExitCode;

// One byte more than the longest text that is read: a longer file is seen to be too long, and is read no further.
const MOST: usize = 262145;

// Enough for every program that is accepted: 512 instructions of at most 292 bytes.
const PROGRAM: usize = 149504;

fn tell_counts(rt: &(impl Print + Eprint), bytes: usize, instructions: usize) -> ExitCode {
    match println!(rt; "{bytes} bytes, {instructions} instructions") {
        Ok(()) => ExitCode::SUCCESS,
        Err(error) => file_reader::tell_failure(rt, "standard output", error),
    }
}

fn tell_fault(rt: &impl Eprint, line: usize, number: u32) {
    let _ = eprintln!(rt; "{line}: refused {number}");
}

// The counts are those of the rules, by the contract of `read_text`, and the line is that of the first fault, by the contract of `fault_line`.
fn show(rt: &(impl Print + Eprint), text: &[u8]) -> ExitCode {
    let mut program = [0u8; PROGRAM];
    match text_reader::read_text(text, &mut program) {
        Ok(read) => tell_counts(rt, read.bytes, read.instructions),
        Err(cause) => {
            tell_fault(rt, text_reader::fault_line(text), u32::from(cause));
            ExitCode::SUCCESS
        }
    }
}

fn main(rt: HostRuntime) -> ExitCode {
    let mut buffer = [0u8; MOST];
    match file_reader::read_file(&rt, b"routine.txt", &mut buffer) {
        Some(n) => {
            if n == MOST {
                let _ = eprintln!(rt; "longer than 262144 bytes");
                return ExitCode::SUCCESS;
            }
            show(&rt, &buffer[..n])
        }
        None => ExitCode::FAILURE,
    }
}
