// The three kinds of number that must not be mixed up (labels, addresses, locations), and the set of locations.
// Fields are private: a number of one kind becomes one of another only by the functions here, each of which says so by its name, so that
// there is no `From` between them and numbers.
#![tactic(auto)]

ghost use Rattle.std.specs.Prelude.{◌≡◌, ◌+◌, ◌-◌, ◌<◌, ◌^◌};
ghost use Rattle.std.specs.Iterator.{at_most};
ghost use Rattle.location.specs.Sets.{registers, limit, empty, single, union, subset, member, rest};
ghost use Rattle.location.specs.Members.{IsFirstFrom, GivesMember};

// An instruction's number in the program; the number of instructions is the place END.
#[derive(Clone, Copy)]
pub struct Label(usize);

// A memory address, of 64 bits; a cell has an address below the number of cells.
#[derive(Clone, Copy)]
pub struct Address(u64);

// A register or a cell, by its number: register r is location r, cell a is location 16 + a.
#[derive(Clone, Copy)]
pub struct Location(usize);

impl Label {
    pub fn new(n: usize) -> Self
        ensures { result.0 ≡ n }
    {
        Label(n)
    }

    // The label's number.
    pub fn index(self) -> usize
        ensures { result ≡ self.0 }
    {
        let Label(index) = self;
        index
    }
}

impl Address {
    pub fn new(a: u64) -> Self
        ensures { result.0 ≡ a }
    {
        Address(a)
    }

    // The address's value.
    pub fn value(self) -> u64
        ensures { result ≡ self.0 }
    {
        let Address(address) = self;
        address
    }
}

impl Location {
    // How many registers there are; cells are numbered after them.
    pub const REGISTERS: u64 = 16;

    // The location of a number.
    pub fn new(n: usize) -> Self
        ensures { result.0 ≡ n }
    {
        Location(n)
    }

    pub fn register(r: u8) -> Self
        ensures { result.0 ≡ r }
    {
        Location(r as usize)
    }

    pub fn cell(a: Address) -> Self
        requires { registers + a.0 < 2 ^ 64 }
        ensures { result.0 ≡ registers + a.0 }
    {
        Location((Self::REGISTERS + a.0) as usize)
    }

    // The location's number.
    pub fn index(self) -> usize
        ensures { result ≡ self.0 }
    {
        let Location(location) = self;
        location
    }
}

// A set of locations: location 64 i + k is bit k of word i. A number at or above the limit is in no set.
#[derive(Clone, Copy)]
pub struct LocationSet {
    pub words: [u64; 4],
}

impl LocationSet {
    pub const LIMIT: usize = 256;
    // How many locations a word has.
    pub const BITS: usize = 64;

    pub fn empty() -> Self
        ensures { result ≡ empty }
    {
        LocationSet { words: [0; 4] }
    }

    pub fn single(l: Location) -> Self
        ensures { result ≡ single l.0 }
    {
        let mut words = [0; 4];
        if l.0 < Self::LIMIT {
            words[l.0 / Self::BITS] = 1 << (l.0 % Self::BITS);
        }
        LocationSet { words }
    }

    pub fn union(self, other: Self) -> Self
        ensures { result ≡ union self other }
    {
        let a = self.words;
        let b = other.words;
        LocationSet {
            words: [a[0] | b[0], a[1] | b[1], a[2] | b[2], a[3] | b[3]],
        }
    }

    // Whether every location of this set is in the other. All words are tested at once, as a run's steps do it.
    pub fn subset(self, other: Self) -> bool
        ensures { result ≡ subset self other }
    {
        let a = self.words;
        let b = other.words;
        let first = ((a[0] | b[0]) ^ b[0]) | ((a[1] | b[1]) ^ b[1]);
        let last = ((a[2] | b[2]) ^ b[2]) | ((a[3] | b[3]) ^ b[3]);
        first | last == 0
    }

    pub fn member(self, l: Location) -> bool
        ensures { result ≡ member self l.0 }
    {
        l.0 < Self::LIMIT && (self.words[l.0 / Self::BITS] >> (l.0 % Self::BITS)) % 2 == 1
    }

    // The locations of the set from l to the end of l's word: location l + k is bit k.
    pub fn rest(self, l: Location) -> u64
        requires { l.0 < limit }
        ensures { result ≡ rest self l.0 }
    {
        self.words[l.0 / Self::BITS] >> (l.0 % Self::BITS)
    }

    // The first location of the set from l on. Where nothing is left of a word, the next word follows, so that no range gives the places.
    fn first_from(self, l: usize) -> Option<Location>
        ensures { IsFirstFrom self l result }
    {
        let mut at = l;
        while at < Self::LIMIT {
            let left = self.rest(Location(at));
            if left == 0 {
                at += Self::BITS - at % Self::BITS;
            } else if left % 2 == 1 {
                return Some(Location(at));
            } else {
                at += 1;
            }
        }
        None
    }

    // The locations of the set from l on, in their order.
    pub fn members_from(self, l: Location) -> Members
        ensures { (result.set ≡ self) × (result.next ≡ l.0) }
    {
        Members {
            set: self,
            next: l.0,
        }
    }

    // The locations of the set, in their order.
    pub fn members(self) -> Members
        ensures { (result.set ≡ self) × (result.next ≡ 0) }
    {
        self.members_from(Location(0))
    }
}

// The locations of a set from one number on. From `LocationSet::members`.
#[derive(Clone, Drop)]
pub struct Members {
    set: LocationSet,
    // What was given, and all that was passed, is below.
    next: usize,
}

impl Iterator for Members {
    type Item = Location;

    ghost next_gives = { GivesMember };

    ghost remaining = { λ s. at_most (limit - s.next) };

    fn next(&mut self) -> Option<Location> {
        let l = self.set.first_from(self.next)?;
        self.next = l.0 + 1;
        Some(l)
    }
}
