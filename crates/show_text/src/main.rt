// The program that prints a routine as text: the program of the job job.mua in its folder. A missing file is an empty job.
// A refusal, and what fails, is told on standard error, where nothing stands otherwise. What fails ends it with status 1, a refusal with 0.
// Assumed of the system: what std's contracts say of its calls.
#![tactic(auto)]

use rules::Refusal;
use rules::limits::MAX_BYTES;
use std::process::ExitCode;

// Enough for the text of every job: no byte of a program is printed as more than seven.
const TEXT: usize = 7 * MAX_BYTES;

fn tell_refusal(rt: &impl Eprint, cause: Refusal) {
    let number = u32::from(cause);
    let _ = eprintln!(rt; "refused {number}");
}

// The text is that of the rules, by the contract of `print_text`.
fn show(rt: &(impl Print + Eprint), job: &[u8]) -> ExitCode {
    let mut text = [0u8; TEXT];
    match text_printer::print_text(job, &mut text) {
        Err(cause) => {
            tell_refusal(rt, cause);
            ExitCode::SUCCESS
        }
        Ok(n) => match rt.write_all(&text[..n]) {
            Ok(()) => ExitCode::SUCCESS,
            Err(error) => file_reader::tell_failure(rt, "standard output", error),
        },
    }
}

// Each program has its `main`: what they share is the reading of the job.
fn main(rt: HostRuntime) -> ExitCode {
    let mut buffer = [0u8; file_reader::JOB_BUFFER];
    match file_reader::read_job(&rt, b"job.mua", &mut buffer) {
        Some(n) => show(&rt, &buffer[..n]),
        None => ExitCode::FAILURE,
    }
}
