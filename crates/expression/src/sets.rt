// The set of locations that an expression of the job rests on: one pass over its tokens, from the registers' sets alone (document 02, F-5).
ghost use Rattle.std.specs.Prelude.{◌≡◌, true, ◌≤◌, length};
ghost use Rattle.location.specs.Sets.{registers};
ghost use Rattle.rules.specs.Rules.Expressions.{SetFirst};
ghost use Rattle.rules.specs.Rules.JobFile.{tokens};
ghost use Rattle.rules.specs.Theorems.Readers.{readable};
ghost use Rattle.token.specs.Meaning.{tokens_of};
ghost use Rattle.work.specs.Layout.{operand_base};
ghost use Rattle.work.specs.Words.{set_at};

use location::{Location, LocationSet};
use token::Expression;

// Only sets are read (`work::load_set`), so that the result is the same whatever the registers hold. Token i stands at from + i: a constant
// moves `from` on by its eight bytes.
pub fn set_of(p: &[u8], work: &[u64], e: Expression) -> LocationSet
    requires { (readable (tokens e.count p.now e.at) ≡ true) × (operand_base registers ≤ length work.now) }
    ensures { SetFirst (set_at work.now) (tokens_of p.now e) result }
{
    let mut deps = LocationSet::empty();
    let mut from = e.at;
    for i in 0..e.count {
        let byte = p[from + i];
        if byte < 16 {
            let more = work::load_set(work, Location::register(byte));
            deps = deps.union(more);
        } else if byte == 16 {
            from += 8;
        }
    }
    deps
}
