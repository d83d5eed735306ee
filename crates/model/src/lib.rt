// The sizes and limits of specs/Sizes.antt, for code, and the two kinds of number that a store issues.
#![tactic(auto)]

pub const MAX_KEY: usize = 24;

// The bytes that a key may have.
pub const FIRST_PRINTABLE: u64 = 33;

pub const LAST_PRINTABLE: u64 = 126;

pub const MAX_VALUE: usize = 96;

pub const MAX_KEY_ROOMS: u64 = 1024;

pub const MAX_VERSION_ROOMS: u64 = 65536;

pub const MAX_DESKS: u64 = 64;

pub const MAX_WRITES: usize = 16;

pub const LAST_NUMBER: u64 = 18446744073709551614;

// Bytes of a field in the dump and the journal: the magic, a record's mark, a number, a count or a length, a tag.
pub const MAGIC_WIDTH: usize = 8;

pub const MARK_WIDTH: usize = 2;

pub const NUMBER_WIDTH: usize = 8;

pub const COUNT_WIDTH: usize = 4;

pub const TAG_WIDTH: usize = 1;

// The mark 4C 01 of a record in the journal, as a number.
pub const MARK: u64 = 332;

// The number of a transaction, which is its handle too.
#[derive(Clone, Copy)]
pub struct Start(pub u64);

// The number of a version.
#[derive(Clone, Copy)]
pub struct Commit(pub u64);
