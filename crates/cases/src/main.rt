// The worked cases of document 01's section "A run printed whole", run on the bytes of job files. Each case prints a heading and
// then the listing of its job; reference/ prints the same cases by the second implementation.
// The contract of each job fixes its bytes, by the definitions of the rules' tables. Assumed of the system: what std's contracts say of its calls.
// Where the output cannot be written, it says why on standard error and ends with status 1.
#![tactic(auto)]

ghost use Rattle.std.specs.Prelude.{◌≡◌, ◌+◌, ◌-◌, ◌*◌, ◌≤◌, length};
ghost use Rattle.rules.specs.Rules.Encoding.{word_bytes};
ghost use Rattle.rules.specs.Cases.Files.{file};
ghost use Rattle.rules.specs.Cases.Document01.{barrier_program, public, state};
ghost use Rattle.rules.specs.Cases.Document01.{job as printedJob};
ghost use Rattle.cases.specs.Jobs.{laid_out, nested_with, many_cells};

use rules::PairWord;
use std::io;
use std::process::ExitCode;

// 0 assign r2, r0 ult r1; 1 beqz r2, 4; 2 load r3, r0; 3 load r4, r3 add 2
const PRINTED: [u8; 28] =
    *b"\x01\x02\x03\x00\x01\x1c\x05\x02\x04\x00\x02\x03\x01\x00\x02\x04\x03\x03\x10\x02\x00\x00\x00\x00\x00\x00\x00\x13";

// The same with spbarr put in as 2, and beqz to 5.
const BARRIER: [u8; 29] =
    *b"\x01\x02\x03\x00\x01\x1c\x05\x02\x05\x00\x07\x02\x03\x01\x00\x02\x04\x03\x03\x10\x02\x00\x00\x00\x00\x00\x00\x00\x13";

// What stands in a job beside its program's bytes: how many instructions and cells it has, r0, r1, the window and the budget.
#[derive(Clone, Copy)]
struct Numbers {
    count: u8,
    cells: u8,
    r0: u8,
    r1: u8,
    window: u8,
    budget: u8,
}

// Those of the printed job.
const NUMBERS: Numbers = Numbers {
    count: 4,
    cells: 4,
    r0: 1,
    r1: 1,
    window: 10,
    budget: 100,
};

// A job in an area of zeros: a program, its numbers, cell 1 = 1, r0 and r1 public.
fn lay_out(program: &[u8], n: Numbers, job: &mut [u8])
    requires program_len_bound { length program.now ≤ 200 }
    requires le_cells { 2 ≤ n.cells }
    requires cells_in_bounds { length program.now + 8 * n.cells + 176 ≤ length job.old }
    ensures { job.new ≡ laid_out program.now n.count n.cells n.r0 n.r1 n.window n.budget job.old }
{
    let s = program.len();
    job[..s].copy_from_slice(program);
    let q = s + 128 + 8 * (n.cells as usize);
    job[s] = n.r0;
    job[s + 8] = n.r1;
    job[s + 136] = 1;
    job[q] = 3;
    job[q + 32] = (s % 256) as u8;
    job[q + 34] = (q % 256) as u8;
    job[q + 35] = (q / 256 % 256) as u8;
    job[q + 36] = n.count;
    job[q + 38] = n.cells;
    job[q + 40] = n.window;
    job[q + 44] = n.budget;
}

// The printed job with another r0, window or budget.
fn printed(r0: u8, window: u8, budget: u8) -> [u8; 236]
    ensures { result ≡ printedJob r0 window budget }
{
    let mut job = [0u8; 236];
    let numbers = Numbers {
        r0,
        window,
        budget,
        ..NUMBERS
    };
    lay_out(&PRINTED, numbers, &mut job);
    job
}

fn barrier() -> [u8; 237]
    ensures { result ≡ file barrier_program 5 (state 1 1 1) public 10 100 }
{
    let mut job = [0u8; 237];
    let numbers = Numbers {
        count: 5,
        ..NUMBERS
    };
    lay_out(&BARRIER, numbers, &mut job);
    job
}

// 0 beqz r0, label; 1 beqz r1, 3; 2 skip: registers 0, window 2
fn nested(label: u8) -> [u8; 217]
    ensures { result ≡ file (nested_with label) 3 (state 0 0 1) public 2 100 }
{
    let program = [5, 0, label, 0, 5, 1, 3, 0, 0];
    let mut job = [0u8; 217];
    let numbers = Numbers {
        count: 3,
        r0: 0,
        r1: 0,
        window: 2,
        ..NUMBERS
    };
    lay_out(&program, numbers, &mut job);
    job
}

// The printed job with more cells, in the bytes that they take.
fn with_cells<const N: usize>(cells: u8) -> [u8; N]
    requires le_cells { 4 ≤ cells }
    requires n_holds { N ≡ 204 + 8 * cells }
    ensures { result ≡ many_cells (cells - 4) }
{
    let mut job = [0u8; N];
    let numbers = Numbers { cells, ..NUMBERS };
    lay_out(&PRINTED, numbers, &mut job);
    job
}

// The heading, and the lines of the run with so many observations lent: the rules', by the contract of `print_run`.
fn show_case(rt: &impl Print, name: &str, job: &[u8], observations: usize) -> io::Result<()>
    requires { observations ≤ 512 }
{
    let words = 2 * observations;
    let mut trace = [0u64; printer::TRACE];
    let mut lines = [0u8; printer::LINES];
    let n = printer::print_run(job, &mut trace[..words], &mut lines);
    println!(rt; "case {name}")?;
    rt.write_all(&lines[..n])
}

fn write_word(rt: &impl Print, word: PairWord) -> io::Result<()> {
    match word {
        PairWord::NotComparable => println!(rt; "not comparable"),
        PairWord::Undecided => println!(rt; "undecided"),
        PairWord::PlainDiffers => println!(rt; "plain differs"),
        PairWord::LeakShown => println!(rt; "leak shown"),
        PairWord::Equal => println!(rt; "equal"),
    }
}

// The heading, and the word on the job's state and a second one.
fn show_pair(rt: &impl Print, name: &str, job: &[u8], second: &[u8]) -> io::Result<()> {
    let mut first_trace = [0u64; printer::TRACE];
    let mut second_trace = [0u64; printer::TRACE];
    let mut work = [0u64; work::WORDS];
    let costs = window_costs::fixed();
    println!(rt; "case {name}")?;
    match checker::compare(
        job,
        second,
        &costs,
        &mut first_trace,
        &mut second_trace,
        &mut work,
    ) {
        Err(_) => println!(rt; "refused"),
        Ok(pair) => write_word(rt, pair.word),
    }
}

// The printed job's state with cell 1 = 0.
fn second_state() -> [u8; 160]
    ensures { result ≡ word_bytes (state 1 1 0) }
{
    let mut state = [0u8; 160];
    state[0] = 1;
    state[8] = 1;
    state
}

fn show_all(rt: &impl Print) -> io::Result<()> {
    show_case(rt, "printed whole", &printed(1, 10, 100), 512)?;
    show_case(rt, "w 0", &printed(1, 0, 100), 512)?;
    show_case(rt, "w 1", &printed(1, 1, 100), 512)?;
    show_case(rt, "w 2", &printed(1, 2, 100), 512)?;
    show_case(rt, "b 0", &printed(1, 10, 0), 512)?;
    show_case(rt, "b 4", &printed(1, 10, 4), 512)?;
    show_case(rt, "b 5", &printed(1, 10, 5), 512)?;
    show_case(rt, "five observations lent", &printed(1, 10, 100), 5)?;
    show_case(rt, "r0 = 0", &printed(0, 10, 100), 512)?;
    show_case(rt, "spbarr put in as 2", &barrier(), 512)?;
    show_pair(
        rt,
        "second state with cell 1 = 0",
        &printed(1, 10, 100),
        &second_state(),
    )?;
    show_case(rt, "nested", &nested(3), 512)?;
    show_case(rt, "m 240", &with_cells::<2124>(240), 512)?;
    show_case(rt, "m 241", &with_cells::<2132>(241), 512)?;
    show_case(rt, "nested, first label 1", &nested(1), 512)
}

fn main(rt: HostRuntime) -> ExitCode {
    match show_all(&rt) {
        Ok(()) => ExitCode::SUCCESS,
        Err(error) => file_reader::tell_failure(&rt, "standard output", error),
    }
}
