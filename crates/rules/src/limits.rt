// The limits of a job file and of a run, and the bytes of a file's parts.
pub const MAX_BYTES: usize = 16384;

pub const MAX_INSTRUCTIONS: usize = 512;

// Of an expression.
pub const MAX_TOKENS: usize = 16;

pub const MAX_CELLS: usize = 240;

pub const MAX_WINDOW: usize = 200;

pub const MAX_BUDGET: usize = 1000000;

// Of addresses outside the image at which a store is remembered.
pub const MAX_ENTRIES: usize = 64;

// Of the kinds of instruction, each of which has an entry in a table of window costs.
pub const KINDS: usize = 8;

// Of an entry of such a table.
pub const MIN_COST: u8 = 1;

pub const MAX_COST: u8 = 16;

// The registers, without the cells.
pub const REGISTERS_SIZE: usize = 128;

pub const LIST_SIZE: usize = 32;

pub const TRAILER_SIZE: usize = 16;
