// Reading bytes: numbers, the tokens of expressions, and expressions with the postfix rule. A reader is given the bytes
// and an offset; it answers what stands there with the next offset, or a refusal.
#![tactic(auto)]

ghost use Rattle.std.specs.Prelude.{◌≡◌, true, ◌+◌, ◌^◌, ◌<◌, ◌≤◌, length};
ghost use Rattle.rules.specs.Rules.Expressions.{takes, after};
ghost use Rattle.rules.specs.Rules.JobFile.{got, little, token, tokens, expr};
ghost use Rattle.rules.specs.Theorems.Readers.{readable, next_offset};
ghost use Rattle.token.specs.Meaning.{token_meaning, token_read_meaning, scan_of, expression_read_meaning, ExpressionTested};

use rules::Refusal;
use rules::limits::MAX_TOKENS;

// The number in two bytes at an offset, the lowest first. A sum of two reads is one load to the compiler, whatever uses the number; what a
// loop over the bytes gives is one only while no use needs a single byte.
pub fn two_bytes(s: &[u8], at: usize) -> u64
    requires { at + 2 ≤ length s.now }
    ensures { (result ≡ little s.now at 2) × (result < 2 ^ 16) }
{
    u64::from(s[at]) + 256 * u64::from(s[at + 1])
}

// The number in four bytes.
pub fn four_bytes(s: &[u8], at: usize) -> u64
    requires { at + 4 ≤ length s.now }
    ensures { (result ≡ little s.now at 4) × (result < 2 ^ 32) }
{
    two_bytes(s, at) + 65536 * two_bytes(s, at + 2)
}

// The number in the eight bytes of a word.
pub fn word(s: &[u8], at: usize) -> u64
    requires { at + 8 ≤ length s.now }
    ensures { result ≡ little s.now at 8 }
{
    four_bytes(s, at) + 4294967296 * four_bytes(s, at + 4)
}

// A token: a register, a constant, or an operator of one or of two operands by its place in the rules' table of them.
// An operator is that number and no enum: a step goes by it too (`expression::values`), where an enum would be one more look at the token, and an
// enum for the printer of texts alone would be a second form of the same.
#[derive(Drop)]
pub enum Token {
    Register(u8),
    Constant(u64),
    Unary(u8),
    Binary(u8),
}

// A token and the offset after it.
#[derive(Drop)]
pub struct TokenAt {
    pub token: Token,
    pub next: usize,
}

// The token at an offset where one can be read: taken as it stands, with no test of the length. The numbers, here and below, are the bytes of the
// job file (C interface): up to 15 a register, 16 a constant, 17 and 18 an operator of one operand, 19 to 28 one of two.
pub fn token_at(p: &[u8], at: usize) -> TokenAt
    requires { readable (token p.now at) ≡ true }
    ensures { got (token_meaning result.token) result.next ≡ token p.now at }
{
    let byte = p[at];
    let next = at + 1;
    if byte < 16 {
        return TokenAt {
            token: Token::Register(byte),
            next,
        };
    }
    if byte == 16 {
        let constant = word(p, next);
        return TokenAt {
            token: Token::Constant(constant),
            next: next + 8,
        };
    }
    if byte < 19 {
        return TokenAt {
            token: Token::Unary(byte - 17),
            next,
        };
    }
    TokenAt {
        token: Token::Binary(byte - 19),
        next,
    }
}

// Whether a token can be read at an offset: its byte is known, and what the byte asks for stands before the end.
fn stands(p: &[u8], at: usize) -> bool
    ensures { result ≡ readable (token p.now at) }
{
    match p.get(at) {
        Some(16) => 9 <= p.len() - at,
        Some(byte) => *byte <= 28,
        None => false,
    }
}

// The token at an offset of any bytes.
fn read_token(p: &[u8], at: usize) -> Result<TokenAt, Refusal>
    ensures { token_read_meaning result ≡ token p.now at }
{
    if stands(p, at) {
        return Ok(token_at(p, at));
    }
    Err(Refusal::Encoding)
}

// How many operands a token takes.
fn taken(t: Token) -> usize
    ensures { result ≡ takes (token_meaning t) }
{
    match t {
        Token::Register(_) | Token::Constant(_) => 0,
        Token::Unary(_) => 1,
        Token::Binary(_) => 2,
    }
}

// The values held after a token that takes k, where `held` are held before it. 9 marks the postfix rule as broken, for good: the number is
// that of the rules' `after`, which the contract names.
pub fn held_after(held: usize, k: usize) -> usize
    ensures { result ≡ after held k }
{
    if 8 < held || held < k || 7 < held - k {
        return 9;
    }
    held - k + 1
}

// The tokens of an expression: the offset after them, and the values held after them.
#[derive(Clone, Copy)]
struct Scan {
    next: usize,
    held: usize,
}

fn scan_tokens(p: &[u8], at: usize, count: usize) -> Result<Scan, Refusal>
    ensures { result ≡ scan_of 0 (tokens count p.now at) }
{
    let mut held = 0;
    let mut next = at;
    for _ in 0..count {
        let read = read_token(p, next)?;
        held = held_after(held, taken(read.token));
        next = read.next;
    }
    Ok(Scan { next, held })
}

// An expression in the bytes: where its tokens start, and how many there are.
#[derive(Clone, Copy)]
pub struct Expression {
    pub at: usize,
    pub count: usize,
}

// An expression with the offset after it; `sound` says whether it keeps the postfix rule.
#[derive(Clone, Copy)]
pub struct ExpressionRead {
    pub expression: Expression,
    pub next: usize,
    pub sound: bool,
}

// The expression at an offset: its tokens are read once, for their extent and for the postfix rule.
pub fn read_expression(p: &[u8], at: usize) -> Result<ExpressionRead, Refusal>
    ensures { (expression_read_meaning p.now result ≡ expr p.now at) × ExpressionTested p.now result }
{
    if p.len() <= at {
        return Err(Refusal::Encoding);
    }
    let count = usize::from(p[at]);
    if count < 1 || MAX_TOKENS < count {
        return Err(Refusal::Encoding);
    }
    let start = at + 1;
    let scan = scan_tokens(p, start, count)?;
    Ok(ExpressionRead {
        expression: Expression { at: start, count },
        next: scan.next,
        sound: scan.held == 1,
    })
}

// The expression at an offset where one can be read, as it stands: no token is read.
pub fn expression_at(p: &[u8], at: usize) -> Expression
    requires { readable (expr p.now at) ≡ true }
    ensures { tokens result.count p.now result.at ≡ expr p.now at }
{
    let count = usize::from(p[at]);
    Expression { at: at + 1, count }
}

// The offset after the token at an offset where one can be read: only a constant has bytes after its first.
fn token_end(p: &[u8], at: usize) -> usize
    requires { readable (token p.now at) ≡ true }
    ensures { result ≡ next_offset (token p.now at) }
{
    if p[at] == 16 {
        return at + 9;
    }
    at + 1
}

// The offset after the tokens of an expression that can be read.
fn tokens_end(p: &[u8], e: Expression) -> usize
    requires { readable (tokens e.count p.now e.at) ≡ true }
    ensures { result ≡ next_offset (tokens e.count p.now e.at) }
{
    let mut offset = e.at;
    for _ in 0..e.count {
        offset = token_end(p, offset);
    }
    offset
}

// The offset after the expression at an offset where one can be read.
pub fn expression_end(p: &[u8], at: usize) -> usize
    requires { readable (expr p.now at) ≡ true }
    ensures { result ≡ next_offset (expr p.now at) }
{
    tokens_end(p, expression_at(p, at))
}
