// The printed run: the lines of an answer and its trace, written into an area of bytes that the caller lends.
#![tactic(auto)]

ghost use Rattle.std.specs.Prelude.{◌≡◌, ◌∷◌};
ghost use Rattle.location.specs.Sets.{limit};
ghost use Rattle.rules.specs.Rules.Answers.{text, stop_word, verdict_word, cause_word};
ghost use Rattle.rules.specs.Rules.Instructions.{observed};
ghost use Rattle.rules.specs.Rules.Listing.{decimal, line, number_line, kind_word, observation_line, trace_lines};
ghost use Rattle.rules.specs.Rules.Listing.{location_text, members, set_line, summary};
ghost use Rattle.rules.specs.Rules.Listing.{first_line, first_lines};
ghost use Rattle.byte_writer.specs.Writing.{Put};
ghost use Rattle.byte_writer.specs.Writers.{HasRoom, Writes};
ghost use Rattle.listing.specs.Lines.{observations_in, member_text, report_text, printed};

use byte_writer::Writer;
use location::{Location, LocationSet};
use rules::observation::{LOAD, PC, ROLLBACK, START};
use rules::{Cause, First, Judged, RunAnswer, Stop, Verdict};

// ---- lines
#[tactic(auto, using(crate::proofs::Lengths::lengths))]
fn put_line(writer: &mut Writer<'_>, name: &[u8], rest: &[u8])
    requires { HasRoom writer.old (line name.now rest.now) }
    ensures { Writes writer.old (line name.now rest.now) writer.new }
{
    writer.put_text(name);
    writer.put_text(rest);
    writer.put_byte(b'\n');
}

// A blank and the number.
fn put_number(writer: &mut Writer<'_>, n: u64)
    requires { HasRoom writer.old (32 ∷ decimal n) }
    ensures { Writes writer.old (32 ∷ decimal n) writer.new }
{
    writer.put_byte(b' ');
    writer.put_decimal(n);
}

#[tactic(auto, using(crate::proofs::Lengths::lengths))]
fn put_number_line(writer: &mut Writer<'_>, name: &[u8], n: u64)
    requires { HasRoom writer.old (number_line name.now n) }
    ensures { Writes writer.old (number_line name.now n) writer.new }
{
    writer.put_text(name);
    put_number(writer, n);
    writer.put_byte(b'\n');
}

// ---- the trace
// The kind is a word of the trace, which C reads, so it is a number here.
#[tactic(auto, unfolding(rules::specs::Rules::Listing::kind_word, rules::specs::Rules::Answers::text))]
fn kind_text(kind: u64) -> &'static [u8]
    ensures { result.now ≡ kind_word kind }
{
    match kind {
        START => b"start",
        ROLLBACK => b"rollback",
        PC => b"pc",
        LOAD => b"load",
        _ => b"store",
    }
}

// The place that was gone to is END where it is the number of instructions.
fn put_observation(writer: &mut Writer<'_>, n: u64, kind: u64, value: u64)
    requires { HasRoom writer.old (observation_line n (observed kind value)) }
    ensures { Writes writer.old (observation_line n (observed kind value)) writer.new }
{
    if kind == PC && value == n {
        put_line(writer, kind_text(kind), b" end");
    } else {
        put_number_line(writer, kind_text(kind), value);
    }
}

// The first count observations of the trace, or as many as it has, two words each.
fn put_trace(writer: &mut Writer<'_>, n: u64, count: usize, trace: &[u64])
    requires { HasRoom writer.old (trace_lines n (observations_in count trace.now)) }
    ensures { Writes writer.old (trace_lines n (observations_in count trace.now)) writer.new }
{
    for i in 0..count.min(trace.len() / 2) {
        put_observation(writer, n, trace[2 * i], trace[2 * i + 1]);
    }
}

// ---- the summary
#[tactic(auto, unfolding(rules::specs::Rules::Listing::location_text, rules::specs::Rules::Answers::text))]
fn put_location(writer: &mut Writer<'_>, l: usize)
    requires { HasRoom writer.old (location_text l) }
    ensures { Writes writer.old (location_text l) writer.new }
{
    let number = l as u64;
    if number < Location::REGISTERS {
        writer.put_text(b" r");
        writer.put_decimal(number);
    } else {
        writer.put_text(b" m");
        writer.put_decimal(number - Location::REGISTERS);
    }
}

fn put_member(writer: &mut Writer<'_>, s: LocationSet, l: usize)
    requires { HasRoom writer.old (member_text s l) }
    ensures { Writes writer.old (member_text s l) writer.new }
{
    if s.member(Location::new(l)) {
        put_location(writer, l);
    }
}

fn put_members(writer: &mut Writer<'_>, s: LocationSet)
    requires { HasRoom writer.old (members s 0 limit) }
    ensures { Writes writer.old (members s 0 limit) writer.new }
{
    for l in 0..LocationSet::LIMIT {
        put_member(writer, s, l);
    }
}

// Beside a number line it has another part in the middle: one function for both would take that part as a closure, and be no plainer.
#[tactic(auto, using(crate::proofs::Lengths::lengths))]
fn put_set(writer: &mut Writer<'_>, name: &[u8], s: LocationSet)
    requires { HasRoom writer.old (set_line name.now s) }
    ensures { Writes writer.old (set_line name.now s) writer.new }
{
    writer.put_text(name);
    put_members(writer, s);
    writer.put_byte(b'\n');
}

#[tactic(auto, unfolding(rules::specs::Rules::Answers::text))]
fn stop_text(stop: Stop) -> &'static [u8]
    ensures { result.now ≡ stop_word stop }
{
    match stop {
        Stop::Finished => b"finished",
        Stop::Spent => b"spent",
        Stop::TraceFull => b"trace full",
        Stop::OutsideFull => b"outside full",
    }
}

#[tactic(auto, unfolding(rules::specs::Rules::Answers::text))]
fn verdict_text(verdict: Verdict) -> &'static [u8]
    ensures { result.now ≡ verdict_word verdict }
{
    match verdict {
        Verdict::Undecided => b"undecided",
        Verdict::Clean => b"clean",
        Verdict::Speculative => b"speculative",
        Verdict::Plain => b"plain",
    }
}

#[tactic(auto, using(crate::proofs::Lengths::lengths), unfolding(rules::specs::Rules::Answers::text))]
fn put_summary(writer: &mut Writer<'_>, ran: Judged, full: LocationSet, plain: LocationSet)
    requires { HasRoom writer.old (summary ran.counts full plain ran.verdict) }
    ensures { Writes writer.old (summary ran.counts full plain ran.verdict) writer.new }
{
    put_line(writer, b"stop ", stop_text(ran.counts.stop));
    put_number_line(writer, b"steps", ran.counts.steps as u64);
    put_number_line(writer, b"rollbacks", ran.counts.rollbacks as u64);
    put_set(writer, b"depends", full);
    put_set(writer, b"plain", plain);
    put_line(writer, b"verdict ", verdict_text(ran.verdict));
}

// ---- the reports
#[tactic(auto, unfolding(rules::specs::Rules::Answers::text))]
fn cause_text(cause: Cause) -> &'static [u8]
    ensures { result.now ≡ cause_word cause }
{
    match cause {
        Cause::Branch => b"branch",
        Cause::Jump => b"jump",
        Cause::Load => b"load",
        Cause::Store => b"store",
    }
}

// What brought location l into D.
#[tactic(auto, using(crate::proofs::Lengths::lengths))]
fn put_first(writer: &mut Writer<'_>, l: usize, first: First)
    requires { HasRoom writer.old (first_line l first) }
    ensures { Writes writer.old (first_line l first) writer.new }
{
    writer.put_text(b"first");
    put_location(writer, l);
    put_number(writer, first.index as u64);
    writer.put_byte(b' ');
    writer.put_text(cause_text(first.cause));
    put_number(writer, first.label as u64);
    writer.put_byte(b'\n');
}

// The line of location l, where it is in the set.
fn put_report(writer: &mut Writer<'_>, s: LocationSet, l: usize, first: First)
    requires { HasRoom writer.old (report_text s l first) }
    ensures { Writes writer.old (report_text s l first) writer.new }
{
    if s.member(Location::new(l)) {
        put_first(writer, l, first);
    }
}

// The lines of all locations of a set, ascending.
fn put_firsts(writer: &mut Writer<'_>, s: LocationSet, firsts: &[First; LocationSet::LIMIT])
    requires { HasRoom writer.old (first_lines s firsts.now 0 limit) }
    ensures { Writes writer.old (first_lines s firsts.now 0 limit) writer.new }
{
    for (l, &first) in firsts.iter().enumerate() {
        put_report(writer, s, l, first);
    }
}

// ---- the whole
fn put_answer(writer: &mut Writer<'_>, n: u64, answer: RunAnswer, trace: &[u64])
    requires { HasRoom writer.old (printed n answer trace.now) }
    ensures { Writes writer.old (printed n answer trace.now) writer.new }
{
    match answer.outcome {
        Err(refusal) => put_number_line(writer, b"refused", u32::from(refusal) as u64),
        Ok(ran) => {
            put_trace(writer, n, ran.counts.observations, trace);
            put_summary(writer, ran, answer.full, answer.plain);
            put_firsts(writer, answer.full, &answer.firsts);
        }
    }
}

// The lines of an answer of a program with n instructions, whose trace stands at the front of `trace`. The result is their
// length; the area holds them from its front as far as they fit, and all its other bytes keep their contents.
pub fn write_answer(n: usize, answer: RunAnswer, trace: &[u64], out: &mut [u8]) -> usize
    ensures { Put out.old 0 (printed n answer trace.now) out.new result }
{
    let mut writer = Writer::new(out);
    put_answer(&mut writer, n as u64, answer, trace);
    writer.at
}
