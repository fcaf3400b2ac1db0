// The two judgements: the verdict on a run and the word on a pair, of what the runs have left. The plain traces are compared without a
// second pair of runs: where a run has finished they are its trace with each outermost wrong path struck out.
#![tactic(auto)]

ghost use Rattle.std.specs.Prelude.{◌≡◌};
ghost use Rattle.rules.specs.Rules.Runs.{is_finished, judge};
ghost use Rattle.judgement.specs.Words.{pair_word_of};

use location::LocationSet;
use rules::{PairWord, Stop, Verdict};

// Whether a run has finished: it is at END with nothing open, and nothing stopped it before.
pub fn finished(stop: Stop) -> bool
    ensures { result ≡ is_finished stop }
{
    matches!(stop, Stop::Finished)
}

// The verdict on a run, by its stop, D and the plain set.
#[tactic(auto, unfolding(rules::specs::Rules::Runs::judge))]
pub fn verdict_of(public: LocationSet, stop: Stop, full: LocationSet, plain: LocationSet) -> Verdict
    ensures { result ≡ judge public stop full plain }
{
    if !finished(stop) {
        return Verdict::Undecided;
    }
    if full.subset(public) {
        return Verdict::Clean;
    }
    if full.subset(public.union(plain)) {
        return Verdict::Plain;
    }
    Verdict::Speculative
}

// The first word that fits, of two stops and two traces.
pub fn pair_word(alike: bool, first: Stop, second: Stop, a: &[u64], b: &[u64]) -> PairWord
    ensures { result ≡ pair_word_of alike first second a.now b.now }
{
    if !alike {
        return PairWord::NotComparable;
    }
    if !finished(first) || !finished(second) {
        return PairWord::Undecided;
    }
    if !trace::same_struck(a, b) {
        return PairWord::PlainDiffers;
    }
    if !trace::same(a, b) {
        return PairWord::LeakShown;
    }
    PairWord::Equal
}
