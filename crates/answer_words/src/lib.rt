// An answer as words, for callers that have no enums: the numbers of its cases, by the `From`s of `rules`, and its words in their order.
#![tactic(auto)]

ghost use Rattle.std.specs.Prelude.{◌≡◌, ◌+◌, ◌≤◌, length, replicate};
ghost use Rattle.std.proofs.lemmas.List.Edits.{sets};
ghost use Rattle.rules.specs.Rules.Answers.{refusal_number};
ghost use Rattle.answer_words.specs.Words.{count_words, report_words, reports_words, MembersOnly, run_words, plain_words, pair_words};
ghost use Rattle.answer_words.specs.Words.{unfinished_words, test_load_words, read_words, print_words};

use location::LocationSet;
use rules::{Counts, First, PairWord, PlainCounts, Refusal, Verdict};

// How many words the reports of all locations have.
const REPORT_WORDS: usize = 768;

// The documents' number of a refusal.
pub fn refusal_number(n: Refusal) -> u32
    ensures { result ≡ refusal_number n }
{
    u32::from(n)
}

// Stop, observations, steps and rollbacks, from a place on.
fn write_counts(c: Counts, answer: &mut [u64], at: usize)
    requires { at + 4 ≤ length answer.old }
    ensures { answer.new ≡ sets answer.old at (count_words c) }
{
    answer[at] = u64::from(c.stop);
    answer[at + 1] = c.observations as u64;
    answer[at + 2] = c.steps as u64;
    answer[at + 3] = c.rollbacks as u64;
}

// Index, cause and label of a report, from a place on.
fn write_report(x: First, answer: &mut [u64], at: usize)
    requires { at + 3 ≤ length answer.old }
    ensures { answer.new ≡ sets answer.old at (report_words x) }
{
    answer[at] = x.index as u64;
    answer[at + 1] = u64::from(x.cause);
    answer[at + 2] = x.label as u64;
}

// Nothing is reported of any location, from a place on.
fn clear_reports(answer: &mut [u64], at: usize)
    requires { at + 768 ≤ length answer.old }
    ensures { answer.new ≡ sets answer.old at (replicate 768 0) }
{
    answer[at..at + REPORT_WORDS].fill(0);
}

// The reports of all locations, from a place on: after the clearing those of D alone are written, as nothing is reported of the others.
fn write_reports(
    full: LocationSet,
    firsts: [First; LocationSet::LIMIT],
    answer: &mut [u64],
    at: usize,
)
    requires { (at + 768 ≤ length answer.old) × MembersOnly full firsts }
    ensures { answer.new ≡ sets answer.old at (reports_words firsts) }
{
    clear_reports(answer, at);
    for l in full.members() {
        let i = l.index();
        write_report(firsts[i], answer, at + 3 * i);
    }
}

// Stop, observations, steps, rollbacks, four words of D, four of the plain set, verdict, and of each location index, cause and label.
pub fn write_run(
    c: Counts,
    full: LocationSet,
    plain: LocationSet,
    v: Verdict,
    firsts: [First; LocationSet::LIMIT],
    answer: &mut [u64; 781],
)
    requires { MembersOnly full firsts }
    ensures { answer.new ≡ sets answer.old 0 (run_words c full plain v firsts) }
{
    write_counts(c, &mut answer[..], 0);
    answer[4..8].copy_from_slice(&full.words);
    answer[8..12].copy_from_slice(&plain.words);
    answer[12] = u64::from(v);
    write_reports(full, firsts, &mut answer[..], 13);
}

// Stop, observations, steps, four words of the plain set.
pub fn write_plain(c: PlainCounts, plain: LocationSet, answer: &mut [u64; 7])
    ensures { answer.new ≡ sets answer.old 0 (plain_words c plain) }
{
    answer[0] = u64::from(c.stop);
    answer[1] = c.observations as u64;
    answer[2] = c.steps as u64;
    answer[3..].copy_from_slice(&plain.words);
}

// The word, then stop, observations, steps and rollbacks of each run.
pub fn write_pair(w: PairWord, c: Counts, d: Counts, answer: &mut [u64; 9])
    ensures { answer.new ≡ sets answer.old 0 (pair_words w c d) }
{
    answer[0] = u64::from(w);
    write_counts(c, &mut answer[..], 1);
    write_counts(d, &mut answer[..], 5);
}

// A test load of which the job's own run has not finished: the word, what that run counts, and 0 for all of the second run.
pub fn write_unfinished(own: Counts, answer: &mut [u64; 10])
    ensures { answer.new ≡ sets answer.old 0 (unfinished_words own) }
{
    answer[0] = u64::from(PairWord::Undecided);
    write_counts(own, &mut answer[..], 1);
    answer[5..].fill(0);
}

// A test load whose new state was run: the word, what each run counts, and 1.
pub fn write_test_load(w: PairWord, first: Counts, second: Counts, answer: &mut [u64; 10])
    ensures { answer.new ≡ sets answer.old 0 (test_load_words w first second) }
{
    answer[0] = u64::from(w);
    write_counts(first, &mut answer[..], 1);
    write_counts(second, &mut answer[..], 5);
    answer[9] = 1;
}

// The bytes and the instructions of a program that was read from a text.
pub fn write_read(bytes: usize, instructions: usize, answer: &mut [u64; 2])
    ensures { answer.new ≡ sets answer.old 0 (read_words bytes instructions) }
{
    answer[0] = bytes as u64;
    answer[1] = instructions as u64;
}

// The bytes of a text that was printed.
pub fn write_print(length: usize, answer: &mut [u64; 1])
    ensures { answer.new ≡ sets answer.old 0 (print_words length) }
{
    answer[0] = length as u64;
}
