// Two traces compared, as the words that runs have written (two an observation): word for word, and with everything from each
// outermost start to its rollback struck out, as the plain runs' traces are.
#![tactic(auto)]

ghost use Rattle.std.specs.Prelude.{◌≡◌};
ghost use Rattle.rules.specs.Rules.Pairs.{same_words};
ghost use Rattle.trace.specs.Struck.{struck_words, Closed, Outside};

use rules::observation::{ROLLBACK, START};

// Whether two traces are the same.
#[tactic(auto, using(crate::proofs::Laws::by_words))]
pub fn same(a: &[u64], b: &[u64]) -> bool
    ensures { result ≡ same_words a.now b.now }
{
    a == b
}

// What follows the rollback of a branch in a trace; where there is none, the end of the trace.
fn past_rollback(t: &[u64], id: u64) -> &[u64]
    ensures { Closed t.now id result.now }
{
    let mut left = t;
    while let [kind, value, rest @ ..] = left {
        left = rest;
        if *kind == ROLLBACK && *value == id {
            break;
        }
    }
    left
}

// A trace from its first observation on that is not struck out, of a trace that begins on no wrong path.
fn outside(t: &[u64]) -> &[u64]
    ensures { Outside t.now result.now }
{
    let mut left = t;
    while let [kind, id, rest @ ..] = left {
        if *kind != START {
            break;
        }
        left = past_rollback(rest, *id);
    }
    left
}

// Whether two traces are the same once the wrong paths are struck out of both.
pub fn same_struck(a: &[u64], b: &[u64]) -> bool
    ensures { result ≡ same_words (struck_words a.now) (struck_words b.now) }
{
    let mut one = outside(a);
    let mut other = outside(b);
    while let [kind, value, rest @ ..] = one {
        let [other_kind, other_value, other_rest @ ..] = other else {
            return false;
        };
        if kind != other_kind || value != other_value {
            return false;
        }
        one = outside(rest);
        other = outside(other_rest);
    }
    other.len() < 2
}
