// The program that prints one run: the listing of job.mua in its folder. A missing file is an empty job.
// Where the file cannot be read, or the listing cannot be written, it says why on standard error and ends with status 1.
// Assumed of the system: what std's contracts say of its calls.
#![tactic(auto)]

use std::process::ExitCode;

// The lines are those of the rules' listing, by the contract of `print_listing`.
fn show(rt: &(impl Print + Eprint), job: &[u8]) -> ExitCode {
    let mut lines = [0u8; printer::LINES];
    let n = printer::print_listing(job, &mut lines);
    match rt.write_all(&lines[..n]) {
        Ok(()) => ExitCode::SUCCESS,
        Err(error) => file_reader::tell_failure(rt, "standard output", error),
    }
}

// Each program has its `main`: what they share is the reading of the job.
fn main(rt: HostRuntime) -> ExitCode {
    let mut buffer = [0u8; file_reader::JOB_BUFFER];
    match file_reader::read_job(&rt, b"job.mua", &mut buffer) {
        Some(n) => show(&rt, &buffer[..n]),
        None => ExitCode::FAILURE,
    }
}
