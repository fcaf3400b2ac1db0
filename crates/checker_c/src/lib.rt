// The calls for C and Rust: include/checker.h says what each takes and returns. A slice is a pointer and a length.
//
// The number and the words that each call returns are those of an answer for which the promise of the call that it makes holds, for
// every input: demands 1 to 3, the meaning of the words on a pair, what a test load claims of its new state, what is claimed of a table of
// window costs, and that a printed text restores its program. A refusal leaves the answer's words as they were.
#![tactic(auto)]

ghost use Rattle.rules.specs.Rules.Promises.{RunPromise, PlainPromise, PairPromise, areas_at_entry, areas_at_exit, pair_at_entry, pair_at_exit};
ghost use Rattle.rules.specs.Rules.TextPromises.{ReadPromise, PrintPromise};
ghost use Rattle.rules.specs.Rules.TestLoadPromises.{TestLoadPromise, test_load_at_entry, test_load_at_exit};
ghost use Rattle.checker_c.specs.Calls.{RunReturns, PlainReturns, PairReturns, TestLoadReturns, ReadReturns, PrintReturns};

use rules::TestLoad;

#[unsafe(no_mangle)]
pub extern "C" fn checker_run(
    job: &[u8],
    costs: &[u8],
    trace: &mut [u64],
    end: &mut [u64],
    work: &mut [u64],
    answer: &mut [u64; 781],
) -> u32
    ensures { RunReturns answer result
        (λ x. RunPromise job.now costs.now (areas_at_entry trace end work) x (areas_at_exit trace end work)) }
{
    let r = checker::run(job, costs, trace, end, work);
    match r.outcome {
        Err(refusal) => u32::from(refusal),
        Ok(ran) => {
            answer_words::write_run(ran.counts, r.full, r.plain, ran.verdict, r.firsts, answer);
            0
        }
    }
}

#[unsafe(no_mangle)]
pub extern "C" fn checker_plain_run(
    job: &[u8],
    trace: &mut [u64],
    end: &mut [u64],
    work: &mut [u64],
    answer: &mut [u64; 7],
) -> u32
    ensures { PlainReturns answer result
        (λ x. PlainPromise job.now (areas_at_entry trace end work) x (areas_at_exit trace end work)) }
{
    let r = checker::plain_run(job, trace, end, work);
    match r.outcome {
        Err(refusal) => u32::from(refusal),
        Ok(counts) => {
            answer_words::write_plain(counts, r.plain, answer);
            0
        }
    }
}

#[unsafe(no_mangle)]
pub extern "C" fn checker_compare(
    job: &[u8],
    second: &[u8],
    costs: &[u8],
    first_trace: &mut [u64],
    second_trace: &mut [u64],
    work: &mut [u64],
    answer: &mut [u64; 9],
) -> u32
    ensures { PairReturns answer result
        (λ x. PairPromise job.now second.now costs.now (pair_at_entry first_trace second_trace work) x
        (pair_at_exit first_trace second_trace work)) }
{
    match checker::compare(job, second, costs, first_trace, second_trace, work) {
        Err(refusal) => u32::from(refusal),
        Ok(pair) => {
            answer_words::write_pair(pair.word, pair.first, pair.second, answer);
            0
        }
    }
}

#[unsafe(no_mangle)]
pub extern "C" fn checker_test_load(
    job: &[u8],
    seed: u64,
    costs: &[u8],
    first_trace: &mut [u64],
    second_trace: &mut [u64],
    work: &mut [u64],
    state: &mut [u8],
    answer: &mut [u64; 10],
) -> u32
    ensures { TestLoadReturns answer result
        (λ x. TestLoadPromise job.now seed costs.now (test_load_at_entry first_trace second_trace work state) x
        (test_load_at_exit first_trace second_trace work state)) }
{
    match checker::test_load(job, seed, costs, first_trace, second_trace, work, state) {
        Err(refusal) => u32::from(refusal),
        Ok(TestLoad::Undecided(own)) => {
            answer_words::write_unfinished(own, answer);
            0
        }
        Ok(TestLoad::Compared(pair)) => {
            answer_words::write_test_load(pair.word, pair.first, pair.second, answer);
            0
        }
    }
}

#[unsafe(no_mangle)]
pub extern "C" fn checker_read_text(text: &[u8], out: &mut [u8], answer: &mut [u64; 2]) -> u32
    ensures { ReadReturns answer result (λ x. ReadPromise text.now out.old x out.new) }
{
    match text_reader::read_text(text, out) {
        Err(refusal) => u32::from(refusal),
        Ok(read) => {
            answer_words::write_read(read.bytes, read.instructions, answer);
            0
        }
    }
}

#[unsafe(no_mangle)]
pub extern "C" fn checker_print_text(job: &[u8], out: &mut [u8], answer: &mut [u64; 1]) -> u32
    ensures { PrintReturns answer result (λ x. PrintPromise job.now out.old x out.new) }
{
    match text_printer::print_text(job, out) {
        Err(refusal) => u32::from(refusal),
        Ok(bytes) => {
            answer_words::write_print(bytes, answer);
            0
        }
    }
}
