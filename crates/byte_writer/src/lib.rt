// Bytes written into an area that the caller lends: a byte, a text, the decimal digits of a number, a number in bytes.
// What is written goes from a place on, as far as the area goes, and the next place is the one after it.
#![tactic(auto)]

ghost use Rattle.std.specs.Prelude.{◌≡◌, ◌∷◌, [], ◌+◌, ◌^◌, ◌<◌, length, drop};
ghost use Rattle.rules.specs.Rules.Listing.{decimal};
ghost use Rattle.rules.specs.Rules.Encoding.{bytes_of};
ghost use Rattle.byte_writer.specs.Writing.{Put};
ghost use Rattle.byte_writer.specs.Writers.{Starts, HasRoom, Writes};

// A number of 64 bits has at most 20 decimal digits; this is the place of the last.
const LAST: usize = 19;

// On an area and a place, as `put_number`: who calls them stores a byte at an earlier place too, or has a place from elsewhere, so that a writer would be
// made anew for each call.
pub fn put_byte(out: &mut [u8], at: usize, byte: u8) -> usize
    requires { at + 1 < 2 ^ 64 }
    ensures { Put out.old at (byte ∷ []) out.new result }
{
    if at < out.len() {
        out[at] = byte;
    }
    at + 1
}

// A number in k bytes, the lowest first.
pub fn put_number(out: &mut [u8], at: usize, n: u64, k: usize) -> usize
    requires { at + k < 2 ^ 64 }
    ensures { Put out.old at (bytes_of k n) out.new result }
{
    let mut next = at;
    let mut rest = n;
    for _ in 0..k {
        next = put_byte(out, next, (rest % 256) as u8);
        rest /= 256;
    }
    next
}

// The decimal digits of a number, lowest last, at the end of the buffer; the result is where they start. The number ends this loop, not
// the buffer, so it counts its place down by hand.
fn find_digits(buffer: &mut [u8], n: u64) -> usize
    requires { length buffer.old ≡ 20 }
    ensures { (result < 20) × (drop result buffer.new ≡ decimal n) }
{
    let mut rest = n;
    let mut i = LAST;
    while 10 <= rest {
        buffer[i] = b'0' + (rest % 10) as u8;
        rest /= 10;
        i -= 1;
    }
    buffer[i] = b'0' + rest as u8;
    i
}

// A lent area, and the place in it that is written next.
#[derive(Drop)]
pub struct Writer<'a> {
    pub out: &'a mut [u8],
    pub at: usize,
}

impl<'a> Writer<'a> {
    pub fn new(out: &'a mut [u8]) -> Writer<'a>
        ensures { Starts out.entry result }
    {
        Writer { out, at: 0 }
    }

    pub fn put_byte(&mut self, byte: u8)
        requires { HasRoom self.old (byte ∷ []) }
        ensures { Writes self.old (byte ∷ []) self.new }
    {
        self.at = put_byte(self.out, self.at, byte);
    }

    pub fn put_text(&mut self, bytes: &[u8])
        requires { HasRoom self.old bytes.now }
        ensures { Writes self.old bytes.now self.new }
    {
        for &byte in bytes {
            self.put_byte(byte);
        }
    }

    pub fn put_decimal(&mut self, n: u64)
        requires { HasRoom self.old (decimal n) }
        ensures { Writes self.old (decimal n) self.new }
    {
        let mut buffer = [0u8; LAST + 1];
        let first = find_digits(&mut buffer, n);
        self.put_text(&buffer[first..]);
    }
}
