// An expression of the job: the set of locations that it rests on, and then its value.
#![tactic(auto)]

pub mod sets;
pub mod values;

ghost use Rattle.std.specs.Prelude.{◌≡◌, true, ◌≤◌, length};
ghost use Rattle.location.specs.Sets.{registers};
ghost use Rattle.rules.specs.Rules.Expressions.{sound, eval};
ghost use Rattle.token.specs.Meaning.{tokens_of};
ghost use Rattle.work.specs.Layout.{operand_base};
ghost use Rattle.work.specs.Words.{tagged_at};

use rules::Tagged;
use token::Expression;

// The set of an expression that keeps the postfix rule, then its value. `whole` is `e`, made again of its two numbers: the compiler then
// passes these in the processor's registers, not through memory.
pub fn evaluate(p: &[u8], work: &[u64], e: Expression) -> Tagged
    requires { (sound (tokens_of p.now e) ≡ true) × (operand_base registers ≤ length work.now) }
    ensures { result ≡ eval (tagged_at work.now) (tokens_of p.now e) }
{
    let whole = Expression {
        at: e.at,
        count: e.count,
    };
    Tagged {
        deps: sets::set_of(p, work, whole),
        value: values::value_of(p, work, whole),
    }
}
