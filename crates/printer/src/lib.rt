// A run printed whole, from any bytes as a job to the bytes of its lines, by a table of eight ones. The caller lends a trace area and an area for the lines;
// the end area and the working area are this crate's own, long enough for every job. Nothing has to be tested beforehand.
#![tactic(auto)]

ghost use Rattle.std.specs.Prelude.{◌≡◌, ◌+◌, ◌*◌, ◌≤◌, length};
ghost use Rattle.rules.specs.Rules.JobFile.{parse};
ghost use Rattle.printer.specs.Printing.{instruction_count, Prints, Listed};

use location::LocationSet;

// 512 observations of two words each.
pub const TRACE: usize = 1024;

// Enough for every listing of 512 observations: at most 30 bytes each, and at most 31,086 after them.
pub const LINES: usize = 46446;

// An end area that is long enough for every job: its locations, then the table outside the image.
const END: usize = LocationSet::LIMIT + transfer::TABLE_WORDS;

// The number of instructions, by which END is known. A refused job shows no place: 0.
fn instruction_count(job: &[u8]) -> usize
    ensures { result ≡ instruction_count (parse job.now) }
{
    match job::read_job(job) {
        Ok(read) => read.trailer.count,
        Err(_) => 0,
    }
}

// The run of a job in the lent trace area, and its lines from the front of `out` as far as they fit. The result is their length.
pub fn print_run(job: &[u8], trace: &mut [u64], out: &mut [u8]) -> usize
    ensures exact { Prints job.now trace.old trace.new out.old out.new result }
    ensures bounded { result ≤ 15 * length trace.old + 31086 }
{
    let mut end = [0u64; END];
    let mut work = [0u64; work::WORDS];
    let n = instruction_count(job);
    let costs = window_costs::fixed();
    let answer = checker::run(job, &costs, trace, &mut end, &mut work);
    listing::write_answer(n, answer, trace, out)
}

// The listing of a job, with 512 observations lent: the whole of it always fits.
pub fn print_listing(job: &[u8], out: &mut [u8; LINES]) -> usize
    ensures { Listed job.now out.old out.new result }
{
    let mut trace = [0u64; TRACE];
    print_run(job, &mut trace, out)
}
