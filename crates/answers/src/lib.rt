// What the public calls answer.
#![tactic(auto)]

ghost use Rattle.std.specs.Prelude.{◌≡◌};
ghost use Rattle.answers.specs.Paper.{number_of};

use model::{Commit, Start};

// Why a call is refused, but for a conflict and a dump's faults.
#[derive(Clone, Copy)]
pub enum Refusal {
    // a lent memory of the store is not sound
    Unsound,
    // rooms that no store may have, or too little memory for them
    BadSizes,
    BadKey,
    LongValue,
    // no open transaction with that start
    NotOpen,
    DesksTaken,
    TooManyWrites,
    // the last number is issued
    Spent,
    NoKeyRoom,
    NoVersionRoom,
    ShortOutput,
    // a number below the floor or above the counter
    OutOfReach,
    // a replay beside an open transaction
    DesksOpen,
}

// make, put, delete, abort
#[derive(Clone, Copy)]
pub enum Done {
    Done,
    Refused(Refusal),
}

// load; a fault has the offset where its field starts
#[derive(Clone, Copy)]
pub enum Loaded {
    Done,
    CutShort(usize),
    Malformed(usize),
    TooBig(usize),
    Refused(Refusal),
}

// begin; with the desk
#[derive(Clone, Copy)]
pub enum Begun {
    As(Start, usize),
    Refused(Refusal),
}

// read, newest and as_of: the kind
#[derive(Clone, Copy)]
pub enum Found {
    OwnValue,
    HallValue,
    NothingThere,
    Refused(Refusal),
}

// commit; a conflict has the number of clashing keys
#[derive(Clone, Copy)]
pub enum Committed {
    As(Commit),
    Closed,
    Conflict(usize),
    Refused(Refusal),
}

// commit with a journal; with the length of the record that was written
#[derive(Clone, Copy)]
pub struct Recorded {
    pub answer: Committed,
    pub length: usize,
}

// sweep; with the cutoff and the number dropped
#[derive(Clone, Copy)]
pub enum Swept {
    At(u64, u64),
    Refused(Refusal),
}

// thin; with the number dropped
#[derive(Clone, Copy)]
pub enum Thinned {
    Dropped(u64),
    Refused(Refusal),
}

// counts: keys, versions, open desks
#[derive(Clone, Copy)]
pub enum Counted {
    Held(u64, u64, u64),
    Refused(Refusal),
}

// dump: how many bytes were written
#[derive(Clone, Copy)]
pub enum Dumped {
    Bytes(usize),
    Refused(Refusal),
}

// replay: where the whole records end, or the offset of the record that stopped it
#[derive(Clone, Copy)]
pub enum Replayed {
    UpTo(usize),
    Malformed(usize),
    NoKeyRoom(usize),
    NoVersionRoom(usize),
    Refused(Refusal),
}

// batch: how many bytes of answers were written, or the offset of the record that is wrong
#[derive(Clone, Copy)]
pub enum Batched {
    Answers(usize),
    Malformed(usize),
    Reserved(usize),
    Refused(Refusal),
}

// Numbers of refusals that come with more than themselves. A replay tells a lack of room with an offset.
pub const CONFLICT: u64 = 9;

pub const NO_KEY_ROOM: u64 = 10;

pub const NO_VERSION_ROOM: u64 = 11;

// Of a dump; 14 of a journal too.
pub const CUT_SHORT: u64 = 13;

pub const MALFORMED: u64 = 14;

pub const TOO_BIG: u64 = 15;

// Of a batch.
pub const MALFORMED_BATCH: u64 = 18;

pub const RESERVED_KIND: u64 = 19;

// The kinds of what is found.
pub const NOTHING_THERE: u64 = 0;

pub const OWN_VALUE: u64 = 1;

pub const HALL_VALUE: u64 = 2;

// The refusal's number.
pub fn number_of(r: Refusal) -> u64
    ensures { result ≡ number_of r }
{
    match r {
        Refusal::Unsound => 1,
        Refusal::BadSizes => 2,
        Refusal::BadKey => 3,
        Refusal::LongValue => 4,
        Refusal::NotOpen => 5,
        Refusal::DesksTaken => 6,
        Refusal::TooManyWrites => 7,
        Refusal::Spent => 8,
        Refusal::NoKeyRoom => NO_KEY_ROOM,
        Refusal::NoVersionRoom => NO_VERSION_ROOM,
        Refusal::ShortOutput => 12,
        Refusal::OutOfReach => 16,
        Refusal::DesksOpen => 17,
    }
}
