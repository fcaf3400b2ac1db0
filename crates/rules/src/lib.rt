// The types that the contracts of the checker show, the kinds of observation and the limits. What they mean is said in specs/Rules.
#![tactic(auto)]

ghost use Rattle.std.specs.Prelude.{◌≡◌, ◌^◌, ◌<◌};
ghost use Rattle.rules.specs.Rules.JobFile.{locations};

use location::{Location, LocationSet};

pub mod limits;
mod numbers;
pub mod observation;

const REGISTERS: usize = Location::REGISTERS as usize;

// A word with the set of locations that it rests on; the set first, as in an operand of the working words.
#[derive(Clone, Copy)]
pub struct Tagged {
    pub deps: LocationSet,
    pub value: u64,
}

// Why a run ended.
#[derive(Clone, Copy)]
pub enum Stop {
    Finished,
    Spent,
    TraceFull,
    OutsideFull,
}

#[derive(Drop)]
pub enum Verdict {
    Undecided,
    Clean,
    Speculative,
    Plain,
}

// The word on a pair of states.
#[derive(Drop)]
pub enum PairWord {
    NotComparable,
    Undecided,
    PlainDiffers,
    LeakShown,
    Equal,
}

// The causes of refusal, in the order of their numbers.
#[derive(Drop)]
pub enum Refusal {
    Length,
    Trailer,
    Offsets,
    Encoding,
    Postfix,
    BranchLabel,
    Surplus,
    PublicList,
    SecondState,
    Areas,
    Text,
    Output,
    Seed,
    Costs,
}

// The kinds of instruction, in the order of their bytes.
#[derive(Clone, Copy, PartialEq, Eq)]
pub enum Kind {
    Skip,
    Assign,
    Load,
    Store,
    Jump,
    BranchZero,
    AssignIf,
    Barrier,
}

// The numbers of a job file's trailer: the offsets of the state and of the public list, the counts of instructions and
// cells, the window, the zero and the budget.
#[derive(Clone, Copy)]
pub struct Trailer {
    pub state: usize,
    pub list: usize,
    pub count: usize,
    pub cells: usize,
    pub window: usize,
    pub zero: usize,
    pub budget: usize,
}

impl Trailer {
    // How many locations the job has: its registers and its cells.
    pub fn locations(self) -> usize
        requires { locations self < 2 ^ 64 }
        ensures { result ≡ locations self }
    {
        REGISTERS + self.cells
    }
}

// What a mispredicting run counts.
#[derive(Clone, Copy)]
pub struct Counts {
    pub stop: Stop,
    pub observations: usize,
    pub steps: usize,
    pub rollbacks: usize,
}

// What a plain run counts.
#[derive(Drop)]
pub struct PlainCounts {
    pub stop: Stop,
    pub observations: usize,
    pub steps: usize,
}

// What a run counts, and its verdict.
#[derive(Drop)]
pub struct Judged {
    pub counts: Counts,
    pub verdict: Verdict,
}

pub type RunOutcome = Result<Judged, Refusal>;

// The rule by which an instruction observes a set: of a branch's register, of a jump's value, of a load's or a store's address.
#[derive(Clone, Copy)]
pub enum Cause {
    Branch,
    Jump,
    Load,
    Store,
}

// What is reported of a location of D: the index of the first observation whose set holds it, the rule concerned and the label of that
// instruction. A location that is not in D has index 0, Branch and label 0.
#[derive(Clone, Copy)]
pub struct First {
    pub index: u32,
    pub label: u16,
    pub cause: Cause,
}

// The answer of a run: the two sets, D and the plain set, stand beside the outcome, and are empty where the job is refused; then there is
// nothing to report of any location. They stay beside it since the rules speak of the sets of a refused answer too (Calls: `run_refused`;
// Demands: `Brought`).
#[derive(Drop)]
pub struct RunAnswer {
    pub outcome: RunOutcome,
    pub full: LocationSet,
    pub plain: LocationSet,
    pub firsts: [First; LocationSet::LIMIT],
}

pub type PlainOutcome = Result<PlainCounts, Refusal>;

// The answer of a plain run: the plain set is empty where the job is refused, which is why it stands beside the outcome (Calls: `plain_refused`).
#[derive(Drop)]
pub struct PlainAnswer {
    pub outcome: PlainOutcome,
    pub plain: LocationSet,
}

// The word on a pair and what each of the two runs counts.
#[derive(Drop)]
pub struct Compared {
    pub word: PairWord,
    pub first: Counts,
    pub second: Counts,
}

// The answer on a pair.
pub type PairAnswer = Result<Compared, Refusal>;

// What a test load comes to. Undecided where the job's own run has not finished: what it counts, and no state was made. Else what is said of
// the pair of the job's state and the new one.
#[derive(Drop)]
pub enum TestLoad {
    Undecided(Counts),
    Compared(Compared),
}

pub type TestLoadAnswer = Result<TestLoad, Refusal>;

// The bytes and the instructions of a program that was read from a text.
#[derive(Drop)]
pub struct ReadProgram {
    pub bytes: usize,
    pub instructions: usize,
}

pub type ReadAnswer = Result<ReadProgram, Refusal>;

// The answer of printing a job's program as text: the bytes of the text.
pub type PrintAnswer = Result<usize, Refusal>;
