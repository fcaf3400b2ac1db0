// The enums as numbers, for files and callers that have no enums: the documents' number of a refusal and of a kind of instruction, and a
// number for each stop, verdict, rule and word on a pair, in the documents' order.
ghost use Rattle.std.specs.Prelude.{◌≡◌};
ghost use Rattle.rules.specs.Rules.Instructions.{kind_number, DecodesKind};
ghost use Rattle.rules.specs.Rules.Answers.{stop_number, verdict_number, cause_number, pair_number, refusal_number};

use crate::{Cause, Kind, PairWord, Refusal, Stop, Verdict};

impl From<Stop> for u64 {
    ghost from_gives = { λ stop n. n ≡ stop_number stop };

    fn from(stop: Stop) -> u64 {
        match stop {
            Stop::Finished => 0,
            Stop::Spent => 1,
            Stop::TraceFull => 2,
            Stop::OutsideFull => 3,
        }
    }
}

impl From<Verdict> for u64 {
    ghost from_gives = { λ verdict n. n ≡ verdict_number verdict };

    fn from(verdict: Verdict) -> u64 {
        match verdict {
            Verdict::Undecided => 0,
            Verdict::Clean => 1,
            Verdict::Speculative => 2,
            Verdict::Plain => 3,
        }
    }
}

impl From<PairWord> for u64 {
    ghost from_gives = { λ word n. n ≡ pair_number word };

    fn from(word: PairWord) -> u64 {
        match word {
            PairWord::NotComparable => 0,
            PairWord::Undecided => 1,
            PairWord::PlainDiffers => 2,
            PairWord::LeakShown => 3,
            PairWord::Equal => 4,
        }
    }
}

impl From<Cause> for u64 {
    ghost from_gives = { λ cause n. n ≡ cause_number cause };

    fn from(cause: Cause) -> u64 {
        match cause {
            Cause::Branch => 0,
            Cause::Jump => 1,
            Cause::Load => 2,
            Cause::Store => 3,
        }
    }
}

impl From<Refusal> for u32 {
    ghost from_gives = { λ refusal n. n ≡ refusal_number refusal };

    fn from(refusal: Refusal) -> u32 {
        match refusal {
            Refusal::Length => 1,
            Refusal::Trailer => 2,
            Refusal::Offsets => 3,
            Refusal::Encoding => 4,
            Refusal::Postfix => 5,
            Refusal::BranchLabel => 6,
            Refusal::Surplus => 7,
            Refusal::PublicList => 8,
            Refusal::SecondState => 9,
            Refusal::Areas => 10,
            Refusal::Text => 11,
            Refusal::Output => 12,
            Refusal::Seed => 13,
            Refusal::Costs => 14,
        }
    }
}

impl From<Kind> for u8 {
    ghost from_gives = { λ kind n. n ≡ kind_number kind };

    fn from(kind: Kind) -> u8 {
        match kind {
            Kind::Skip => 0,
            Kind::Assign => 1,
            Kind::Load => 2,
            Kind::Store => 3,
            Kind::Jump => 4,
            Kind::BranchZero => 5,
            Kind::AssignIf => 6,
            Kind::Barrier => 7,
        }
    }
}

// A byte that is no kind's is refused.
impl TryFrom<u8> for Kind {
    type Error = Refusal;

    ghost try_from_gives = { DecodesKind };

    fn try_from(byte: u8) -> Result<Kind, Refusal> {
        match byte {
            0 => Ok(Kind::Skip),
            1 => Ok(Kind::Assign),
            2 => Ok(Kind::Load),
            3 => Ok(Kind::Store),
            4 => Ok(Kind::Jump),
            5 => Ok(Kind::BranchZero),
            6 => Ok(Kind::AssignIf),
            7 => Ok(Kind::Barrier),
            _ => Err(Refusal::Encoding),
        }
    }
}
