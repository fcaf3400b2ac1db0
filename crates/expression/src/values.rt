// The value of an expression of the job, without its set.
ghost use Rattle.std.specs.Prelude.{◌≡◌, true, ◌≤◌, length, get_or};
ghost use Rattle.location.specs.Sets.{registers};
ghost use Rattle.rules.specs.Rules.Operators.{neg, apply1, add, apply2};
ghost use Rattle.rules.specs.Rules.Expressions.{sound, eval};
ghost use Rattle.rules.specs.Rules.JobFile.{unary, binary};
ghost use Rattle.token.specs.Meaning.{tokens_of};
ghost use Rattle.work.specs.Layout.{operand_base};
ghost use Rattle.work.specs.Words.{tagged_at};

use location::Location;
use token::Expression;

// The slots below the top of the stack: seven for values, as an expression holds eight at most, and before them one that takes the top as it
// is before the first value.
const SLOTS: usize = 8;

// An operator goes by its number, its place in the rules' table, and is no enum: a token's byte is looked at once, in this pass that steps wait for
// (docs/DECISIONS.md, "The code").

// An operator of one operand.
fn operate_one(i: u8, x: u64) -> u64
    ensures { result ≡ apply1 (get_or unary i neg) x }
{
    match i {
        1 => word::not(x),
        _ => word::neg(x),
    }
}

// An operator of two operands.
pub fn operate_two(i: u8, x: u64, y: u64) -> u64
    ensures { result ≡ apply2 (get_or binary i add) x y }
{
    match i {
        1 => word::sub(x, y),
        2 => word::mul(x, y),
        3 => word::and(x, y),
        4 => word::or(x, y),
        5 => word::xor(x, y),
        6 => word::shl(x, y),
        7 => word::shr(x, y),
        8 => word::eq(x, y),
        9 => word::ult(x, y),
        _ => word::add(x, y),
    }
}

// The value of an expression that keeps the postfix rule: each token is read once, over a stack of values, whose top is a variable; those
// below it stand in the slots before `held`. Offsets are as in `sets::set_of`.
// A token's byte is tested for what comes most often first: a register, then an operator of two operands.
pub fn value_of(p: &[u8], work: &[u64], e: Expression) -> u64
    requires { (sound (tokens_of p.now e) ≡ true) × (operand_base registers ≤ length work.now) }
    ensures { result ≡ (eval (tagged_at work.now) (tokens_of p.now e)).value }
{
    let mut stack = [0u64; SLOTS];
    let mut top: u64 = 0;
    let mut held = 0;
    let mut from = e.at;
    for i in 0..e.count {
        let byte = p[from + i];
        if byte < 16 {
            stack[held] = top;
            held += 1;
            top = work::load_value(work, Location::register(byte));
        } else if 18 < byte {
            held -= 1;
            let below = stack[held];
            top = operate_two(byte - 19, below, top);
        } else if byte == 16 {
            stack[held] = top;
            held += 1;
            top = token::word(p, from + i + 1);
            from += 8;
        } else {
            top = operate_one(byte - 17, top);
        }
    }
    top
}
