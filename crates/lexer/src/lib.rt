// The parts and lines of a routine as text. A text is any bytes, and an offset any number: past the end nothing stands.
#![tactic(auto)]

ghost use Rattle.std.specs.Prelude.{◌≡◌, ◌+◌, drop};
ghost use Rattle.rules.specs.Rules.Parts.{in_name};
ghost use Rattle.lexer.specs.Places.{SpanEnd, blanks, name_length, line_length, PartTold, Passable, blanks_passed, line_passed, line_at};

// Whether a byte is a letter or a digit.
#[tactic(auto, unfolding(rules::specs::Rules::Parts::in_name))]
fn in_name(b: u8) -> bool
    ensures { result ≡ in_name b }
{
    matches!(b, b'0'..=b'9' | b'a'..=b'z')
}

// The offset after the bytes that stand from an offset on and meet a test, up to the first that does not.
fn span_end<F: Fn(u8) -> bool>(text: &[u8], at: usize, goes_on: F) -> usize
    requires { F.IsAlwaysCallable goes_on }
    ensures { SpanEnd (F.post goes_on) text.now at result }
{
    if text.len() <= at {
        return at;
    }
    for i in at..text.len() {
        if !goes_on(text[i]) {
            return i;
        }
    }
    text.len()
}

// The offset after the spaces that stand at an offset.
fn blanks_end(text: &[u8], at: usize) -> usize
    ensures { result ≡ at + blanks (drop at text.now) }
{
    span_end(text, at, |byte| byte == b' ')
}

// The offset after the letters and digits that stand at an offset.
fn name_end(text: &[u8], at: usize) -> usize
    ensures { result ≡ at + name_length (drop at text.now) }
{
    span_end(text, at, in_name)
}

// The offset of the newline that ends the line at an offset, or of the text's end.
fn line_end(text: &[u8], at: usize) -> usize
    ensures { result ≡ at + line_length (drop at text.now) }
{
    span_end(text, at, |byte| byte != b'\n')
}

// A part of a line: of a name its first byte and the offset after it, of a bracket the offset after it. A remark and the line's
// end are the end of the parts.
#[derive(Drop)]
pub enum Part {
    End,
    Name(usize, usize),
    Opening(usize),
    Closing(usize),
    Other,
}

// The part that stands first from an offset on.
pub fn part_at(text: &[u8], at: usize) -> Part
    ensures { PartTold text.now at result }
{
    let start = blanks_end(text, at);
    let Some(&byte) = text.get(start) else {
        return Part::End;
    };
    if in_name(byte) {
        return Part::Name(start, name_end(text, start));
    }
    match byte {
        b'\n' | b'#' => Part::End,
        b'(' => Part::Opening(start + 1),
        b')' => Part::Closing(start + 1),
        _ => Part::Other,
    }
}

// A reading place: an offset of a text, and the number of lines that end before it.
#[derive(Clone, Copy)]
pub struct Place {
    pub at: usize,
    pub line: usize,
}

// The place after the spaces that stand at a place.
pub fn blanks_passed(text: &[u8], p: Place) -> Place
    ensures { result ≡ blanks_passed text.now p }
{
    Place {
        at: blanks_end(text, p.at),
        ..p
    }
}

// The place after the newline that ends the line at a place; after the last line, one past the text's end.
pub fn line_passed(text: &[u8], p: Place) -> Place
    requires { Passable text.now p }
    ensures { result ≡ line_passed text.now p }
{
    Place {
        at: line_end(text, p.at) + 1,
        line: p.line + 1,
    }
}

// The place is moved past the spaces that stand there, as `blanks_passed` tells.
pub fn pass_blanks(text: &[u8], place: &mut Place)
    ensures { place.new ≡ blanks_passed text.now place.old }
{
    *place = blanks_passed(text, *place);
}

// The place is moved past the line, as `line_passed` tells.
pub fn pass_line(text: &[u8], place: &mut Place)
    requires { Passable text.now place.old }
    ensures { place.new ≡ line_passed text.now place.old }
{
    *place = line_passed(text, *place);
}

// A line: where its first part may stand, and the place of the next line.
#[derive(Drop)]
pub struct LineAt {
    pub start: usize,
    pub next: Place,
}

// The line at a place: a local place is moved past its spaces, and then past the line.
pub fn line_at(text: &[u8], from: Place) -> LineAt
    requires { Passable text.now from }
    ensures { result ≡ line_at text.now from }
{
    let mut place = from;
    pass_blanks(text, &mut place);
    let start = place.at;
    pass_line(text, &mut place);
    LineAt { start, next: place }
}
