// What a name of a text stands for: a constant, a register, a sign, an operator or an instruction word. A name is a list of bytes.
#![tactic(auto)]

ghost use Rattle.std.specs.Prelude.{◌≡◌};
ghost use Rattle.rules.specs.Rules.Pairs.{same_words};
ghost use Rattle.rules.specs.Rules.TextReading.{constant_named, register_named, sign_named, operator_named, instruction_words, place_among};
ghost use Rattle.names.specs.Meaning.{digits_number, number_of, register_byte, sign_byte, operator_byte, kind_place};

use location::Location;
use rules::Kind;

// The value of digits, if there are no other bytes and a word has room for it.
fn value(name: &[u8]) -> Option<u64>
    ensures { result ≡ digits_number 0 name.now }
{
    let mut x: u64 = 0;
    for byte in name {
        if !byte.is_ascii_digit() {
            return None;
        }
        x = x.checked_mul(10)?.checked_add(u64::from(byte - b'0'))?;
    }
    Some(x)
}

// A constant, by its name: at least one digit, and no zero before others.
pub fn constant_named(name: &[u8]) -> Option<u64>
    ensures { result ≡ number_of (constant_named name.now) }
{
    let [first, others @ ..] = name else {
        return None;
    };
    if *first == b'0' && !others.is_empty() {
        return None;
    }
    value(name)
}

// A register, by its name: the letter r before a constant that is one's number.
pub fn register_named(name: &[u8]) -> Option<u8>
    ensures { result ≡ register_byte (register_named name.now) }
{
    let number = name.strip_prefix(b"r")?;
    let register = constant_named(number)?;
    if Location::REGISTERS as u64 <= register {
        return None;
    }
    Some(register as u8)
}

// Whether a name is this word. The words below are compared one by one: a table of them would be data of the library's own, with addresses
// that a loader fills in.
fn same_word(name: &[u8], word: &[u8]) -> bool
    ensures { result ≡ same_words name.now word.now }
{
    name == word
}

// The token of a sign, by its name.
pub fn sign_named(name: &[u8]) -> Option<u8>
    ensures { result ≡ sign_byte (sign_named name.now) }
{
    if same_word(name, b"neg") {
        return Some(17);
    }
    if same_word(name, b"not") {
        return Some(18);
    }
    None
}

// The token of an operator, by its name.
pub fn operator_named(name: &[u8]) -> Option<u8>
    ensures { result ≡ operator_byte (operator_named name.now) }
{
    if same_word(name, b"add") {
        return Some(19);
    }
    if same_word(name, b"sub") {
        return Some(20);
    }
    if same_word(name, b"mul") {
        return Some(21);
    }
    if same_word(name, b"and") {
        return Some(22);
    }
    if same_word(name, b"or") {
        return Some(23);
    }
    if same_word(name, b"xor") {
        return Some(24);
    }
    if same_word(name, b"shl") {
        return Some(25);
    }
    if same_word(name, b"shr") {
        return Some(26);
    }
    if same_word(name, b"eq") {
        return Some(27);
    }
    if same_word(name, b"ult") {
        return Some(28);
    }
    None
}

// The kind of an instruction, by its fixed word.
pub fn kind_named(name: &[u8]) -> Option<Kind>
    ensures { kind_place result ≡ place_among instruction_words name.now }
{
    if same_word(name, b"skip") {
        return Some(Kind::Skip);
    }
    if same_word(name, b"set") {
        return Some(Kind::Assign);
    }
    if same_word(name, b"load") {
        return Some(Kind::Load);
    }
    if same_word(name, b"store") {
        return Some(Kind::Store);
    }
    if same_word(name, b"jmp") {
        return Some(Kind::Jump);
    }
    if same_word(name, b"beqz") {
        return Some(Kind::BranchZero);
    }
    if same_word(name, b"cset") {
        return Some(Kind::AssignIf);
    }
    if same_word(name, b"spbarr") {
        return Some(Kind::Barrier);
    }
    None // of no instruction
}
