// Reading a file into a buffer, and telling a failure of the system. Assumed of the system: what std's contracts say of its calls.
#![tactic(auto)]

ghost use Rattle.std.specs.Prelude.{◌≡◌, length};
ghost use Rattle.std.specs.Process.{exit_status};
ghost use Rattle.file_reader.specs.Reading.{InBuffer, FullRefused};

use rules::limits::MAX_BYTES;
use std::fs::File;
use std::io::{Cursor, ErrorKind, Read, Write};
use std::process::ExitCode;
use std::rt::Files;
use std::{io, str};

// One byte more than a job may have: a longer file is seen to be too long, and is read no further.
pub const JOB_BUFFER: usize = MAX_BYTES + 1;

// The system's words for a failure: the text of an error up to the error's number, or up to the zeros that follow it in a buffer.
fn cause_of(text: &str) -> &str {
    match text.split_once(" (os error ") {
        Some((cause, _)) => cause,
        None => text.trim_end_matches('\0'),
    }
}

// Tells on standard error what failed, as the caller names it, and why, and answers the status of a program that fails. Where the telling
// fails too, the status alone tells it.
pub fn tell_failure(rt: &impl Eprint, what: &str, error: io::Error) -> ExitCode
    ensures { exit_status result ≡ 1 }
{
    let mut writer = Cursor::new([0u8; 256]);
    let _ = write!(writer, "{error}");
    let words = writer.into_inner();
    let cause = match str::from_utf8(&words) {
        Ok(text) => cause_of(text),
        Err(_) => "",
    };
    let _ = eprintln!(rt; "{what}: {cause}");
    ExitCode::FAILURE
}

// Reads until the buffer is full or the file ends: how many bytes of the file stand at the front of the buffer, or none where it could not
// be read. A failure is told. A read says how much it moved, so the loop counts by that.
fn read_all<F: Read>(rt: &impl Eprint, file: &mut F, path: &str, buffer: &mut [u8]) -> Option<usize>
    ensures { InBuffer result (length buffer.new) }
{
    let mut done = 0;
    while done < buffer.len() {
        match file.read(&mut buffer[done..]) {
            Ok(0) => return Some(done),
            Ok(count) => done += count,
            Err(error) => {
                tell_failure(rt, path, error);
                return None;
            }
        }
    }
    Some(done)
}

// Reads the file of that name, as `read_file` does.
fn read_named(rt: &(impl Files + Eprint), path: &str, buffer: &mut [u8]) -> Option<usize>
    ensures { InBuffer result (length buffer.new) }
{
    match File::open(rt, path) {
        Ok(mut file) => read_all(rt, &mut file, path, buffer),
        Err(error) if error.kind() == ErrorKind::NotFound => Some(0),
        Err(error) => {
            tell_failure(rt, path, error);
            None
        }
    }
}

// How many bytes of a file stand at the front of the buffer, or none where it could not be read. A name that no file has is read as no bytes;
// any other failure is told on standard error, as that of a name that is no text, which std cannot open. A file that is longer than the buffer
// fills it.
pub fn read_file(rt: &(impl Files + Eprint), path: &[u8], buffer: &mut [u8]) -> Option<usize>
    ensures { InBuffer result (length buffer.new) }
{
    match str::from_utf8(path) {
        Ok(name) => read_named(rt, name, buffer),
        Err(_) => {
            let _ = eprintln!(rt; "a file's name is not UTF-8");
            None
        }
    }
}

// The bytes of a job's file. One that fills the buffer is refused as a job, whatever follows.
pub fn read_job(
    rt: &(impl Files + Eprint),
    path: &[u8],
    buffer: &mut [u8; JOB_BUFFER],
) -> Option<usize>
    ensures within { InBuffer result (length buffer.new) }
    ensures whole { FullRefused result buffer.new }
{
    read_file(rt, path, buffer)
}
