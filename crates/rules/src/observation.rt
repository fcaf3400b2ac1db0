// The kinds of observation: the first of the two words that one has in a trace area. They are numbers, as that
// area is the caller's, and C reads it by the same (CHECKER_START and following).
pub const START: u64 = 0;

pub const ROLLBACK: u64 = 1;

pub const PC: u64 = 2;

pub const LOAD: u64 = 3;

pub const STORE: u64 = 4;
