// A job file: its trailer, program and public list; refusals 1 to 8 in their order. No offset is trusted
// before it is tested: `read_job` asks nothing of the bytes.
#![tactic(auto)]

pub mod accepted;

ghost use Rattle.std.specs.Prelude.{◌≡◌, ◌+◌, ◌-◌, ◌/◌, ◌%◌, ◌^◌, ◌<◌, ◌≤◌, length, get_or};
ghost use Rattle.location.specs.Sets.{registers, limit};
ghost use Rattle.rules.specs.Rules.Limits.{max_cells, list_size};
ghost use Rattle.rules.specs.Rules.JobFile.{trailer, public_of, none_from, program_of, finish, parse};
ghost use Rattle.job.specs.Answers.{job_read_of};

use location::{Location, LocationSet};
use rules::limits::{MAX_BYTES, TRAILER_SIZE};
use rules::{Refusal, Trailer};

// Cells are numbered after the registers.
const REGISTERS: usize = Location::REGISTERS as usize;

// The public list of a job file with these offsets.
fn public_list(job: &[u8], t: Trailer) -> LocationSet
    requires { t.list + list_size ≤ length job.now }
    ensures { result ≡ public_of t job.now }
{
    let at = t.list;
    let a = token::word(job, at);
    let b = token::word(job, at + 8);
    let c = token::word(job, at + 16);
    let d = token::word(job, at + 24);
    LocationSet {
        words: [a, b, c, d],
    }
}

// Whether no cell from a first one on is in the set.
fn no_cell_from(set: LocationSet, first: usize) -> bool
    requires { first ≤ max_cells }
    ensures { result ≡ none_from set (registers + first) (limit - (registers + first)) }
{
    set.members_from(Location::new(REGISTERS + first))
        .next()
        .is_none()
}

// What reading a job file gives: its trailer and its public list.
#[derive(Clone, Copy)]
pub struct JobRead {
    pub trailer: Trailer,
    pub public: LocationSet,
}

// The program's tests, then that of the public list, which is read here and nowhere else.
fn check_parts(job: &[u8], t: Trailer) -> Result<JobRead, Refusal>
    requires { (t.cells ≤ max_cells) × (t.state ≤ length job.now) × (t.list + list_size ≤ length job.now) }
    ensures { result ≡ job_read_of t (finish job.now t (program_of job.now t)) }
{
    program::check_program(&job[..t.state], t.count)?;
    let public = public_list(job, t);
    if !no_cell_from(public, t.cells) {
        return Err(Refusal::PublicList);
    }
    Ok(JobRead { trailer: t, public })
}

// The whole file: 1, 2, 3, then the program's, then 8.
pub fn read_job(job: &[u8]) -> Result<JobRead, Refusal>
    ensures { result ≡ job_read_of (trailer job.now) (parse job.now) }
{
    let len = job.len();
    if len < TRAILER_SIZE || MAX_BYTES < len {
        return Err(Refusal::Length);
    }
    let t = trailer::trailer_at(job, len - TRAILER_SIZE);
    if !trailer::limits_hold(t) {
        return Err(Refusal::Trailer);
    }
    if !trailer::offsets_hold(t, len) {
        return Err(Refusal::Offsets);
    }
    check_parts(job, t)
}
