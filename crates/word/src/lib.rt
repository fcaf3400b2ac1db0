// The operators of expressions on words of 64 bits. Each one's contract is its equation with the rules' operator.
#![tactic(auto)]

ghost use Rattle.std.specs.Prelude.{◌≡◌};
ghost use Rattle.rules.specs.Rules.Operators.{apply1, neg, inv, apply2, add, sub, mul, and, or, xor, shl, shr, eq, ult};

// 2^32, which splits a word into two halves.
const HALF: u64 = 1 << 32;

// The bits of a word; a shift's count is taken modulo this.
const BITS: u64 = 64;

pub fn neg(x: u64) -> u64
    ensures { result ≡ apply1 neg x }
{
    x.wrapping_neg()
}

pub fn not(x: u64) -> u64
    ensures { result ≡ apply1 inv x }
{
    !x
}

pub fn add(x: u64, y: u64) -> u64
    ensures { result ≡ apply2 add x y }
{
    x.wrapping_add(y)
}

pub fn sub(x: u64, y: u64) -> u64
    ensures { result ≡ apply2 sub x y }
{
    x.wrapping_sub(y)
}

// The low 64 bits of the product. The product of the high halves is a multiple of 2^64, and the two cross products count
// modulo 2^32.
pub fn mul(x: u64, y: u64) -> u64
    ensures { result ≡ apply2 mul x y }
{
    let x0 = x % HALF;
    let x1 = x / HALF;
    let y0 = y % HALF;
    let y1 = y / HALF;
    let cross = (x1 * y0).wrapping_add(x0 * y1) % HALF;
    (cross * HALF).wrapping_add(x0 * y0)
}

pub fn and(x: u64, y: u64) -> u64
    ensures { result ≡ apply2 and x y }
{
    x & y
}

pub fn or(x: u64, y: u64) -> u64
    ensures { result ≡ apply2 or x y }
{
    x | y
}

pub fn xor(x: u64, y: u64) -> u64
    ensures { result ≡ apply2 xor x y }
{
    x ^ y
}

pub fn shl(x: u64, k: u64) -> u64
    ensures { result ≡ apply2 shl x k }
{
    x << (k % BITS)
}

pub fn shr(x: u64, k: u64) -> u64
    ensures { result ≡ apply2 shr x k }
{
    x >> (k % BITS)
}

pub fn eq(x: u64, y: u64) -> u64
    ensures { result ≡ apply2 eq x y }
{
    u64::from(x == y)
}

pub fn ult(x: u64, y: u64) -> u64
    ensures { result ≡ apply2 ult x y }
{
    u64::from(x < y)
}
