// The answers as plain structs. Each begins with the number of a refusal, zero if there is none; a field of which the
// answer does not speak is zero.
#![tactic(auto)]

ghost use Rattle.std.specs.Prelude.{◌≡◌};
ghost use Rattle.boundary.specs.Boundary.{as_done, as_loaded, as_begun, as_found, as_committed, as_recorded, as_swept, as_thinned, as_counted, as_dumped, as_replayed, as_batched};

use answers::{
    Batched, Begun, Committed, Counted, Done, Dumped, Loaded, Recorded, Replayed, Swept, Thinned,
};
use hall_values::Placed;

// load; with the offset where the offending field starts
#[repr(C)]
#[derive(Drop)]
pub struct HbLoaded {
    pub refusal: u64,
    pub offset: usize,
}

#[repr(C)]
#[derive(Drop)]
pub struct HbBegun {
    pub refusal: u64,
    pub start: u64,
    pub desk: usize,
}

// read and newest; a value's bytes stand at `at`, of desk memory if it is its own, else of hall memory
#[repr(C)]
#[derive(Drop)]
pub struct HbFound {
    pub refusal: u64,
    pub kind: u64,
    pub at: usize,
    pub len: usize,
}

// commit; number zero where it closed without writes, and of a conflict how many keys clash
#[repr(C)]
#[derive(Drop)]
pub struct HbCommitted {
    pub refusal: u64,
    pub number: u64,
    pub clashes: usize,
}

// commit with a journal; the same, with the length of the record that was written
#[repr(C)]
#[derive(Drop)]
pub struct HbRecorded {
    pub refusal: u64,
    pub number: u64,
    pub clashes: usize,
    pub len: usize,
}

#[repr(C)]
#[derive(Drop)]
pub struct HbSwept {
    pub refusal: u64,
    pub cutoff: u64,
    pub dropped: u64,
}

#[repr(C)]
#[derive(Drop)]
pub struct HbThinned {
    pub refusal: u64,
    pub dropped: u64,
}

#[repr(C)]
#[derive(Drop)]
pub struct HbCounted {
    pub refusal: u64,
    pub keys: u64,
    pub versions: u64,
    pub desks: u64,
}

// dump; with the bytes written
#[repr(C)]
#[derive(Drop)]
pub struct HbDumped {
    pub refusal: u64,
    pub len: usize,
}

// replay; with the offset where the whole records end, or of the record that stopped it
#[repr(C)]
#[derive(Drop)]
pub struct HbReplayed {
    pub refusal: u64,
    pub offset: usize,
}

// batch; with the bytes of answers that were written, or the offset of the record that is wrong
#[repr(C)]
#[derive(Drop)]
pub struct HbBatched {
    pub refusal: u64,
    pub len: usize,
    pub offset: usize,
}

pub fn refusal(a: Done) -> u64
    ensures { result ≡ as_done a }
{
    match a {
        Done::Done => 0,
        Done::Refused(r) => answers::number_of(r),
    }
}

pub fn loaded(a: Loaded) -> HbLoaded
    ensures { result ≡ as_loaded a }
{
    match a {
        Loaded::Done => HbLoaded {
            refusal: 0,
            offset: 0,
        },
        Loaded::CutShort(at) => HbLoaded {
            refusal: answers::CUT_SHORT,
            offset: at,
        },
        Loaded::Malformed(at) => HbLoaded {
            refusal: answers::MALFORMED,
            offset: at,
        },
        Loaded::TooBig(at) => HbLoaded {
            refusal: answers::TOO_BIG,
            offset: at,
        },
        Loaded::Refused(r) => HbLoaded {
            refusal: answers::number_of(r),
            offset: 0,
        },
    }
}

pub fn begun(a: Begun) -> HbBegun
    ensures { result ≡ as_begun a }
{
    match a {
        Begun::As(t, d) => HbBegun {
            refusal: 0,
            start: t.0,
            desk: d,
        },
        Begun::Refused(r) => HbBegun {
            refusal: answers::number_of(r),
            start: 0,
            desk: 0,
        },
    }
}

pub fn found(a: Placed) -> HbFound
    ensures { result ≡ as_found a }
{
    match a {
        Placed::Refused(r) => HbFound {
            refusal: answers::number_of(r),
            kind: 0,
            at: 0,
            len: 0,
        },
        Placed::Own(at, len) => HbFound {
            refusal: 0,
            kind: answers::OWN_VALUE,
            at,
            len,
        },
        Placed::Held(at, len) => HbFound {
            refusal: 0,
            kind: answers::HALL_VALUE,
            at,
            len,
        },
        Placed::Nothing => HbFound {
            refusal: 0,
            kind: answers::NOTHING_THERE,
            at: 0,
            len: 0,
        },
    }
}

pub fn committed(a: Committed) -> HbCommitted
    ensures { result ≡ as_committed a }
{
    match a {
        Committed::As(n) => HbCommitted {
            refusal: 0,
            number: n.0,
            clashes: 0,
        },
        Committed::Closed => HbCommitted {
            refusal: 0,
            number: 0,
            clashes: 0,
        },
        Committed::Conflict(n) => HbCommitted {
            refusal: answers::CONFLICT,
            number: 0,
            clashes: n,
        },
        Committed::Refused(r) => HbCommitted {
            refusal: answers::number_of(r),
            number: 0,
            clashes: 0,
        },
    }
}

pub fn recorded(a: Recorded) -> HbRecorded
    ensures { result ≡ as_recorded a }
{
    let answer = a.answer;
    let told = committed(answer);
    HbRecorded {
        refusal: told.refusal,
        number: told.number,
        clashes: told.clashes,
        len: a.length,
    }
}

pub fn swept(a: Swept) -> HbSwept
    ensures { result ≡ as_swept a }
{
    match a {
        Swept::At(c, d) => HbSwept {
            refusal: 0,
            cutoff: c,
            dropped: d,
        },
        Swept::Refused(r) => HbSwept {
            refusal: answers::number_of(r),
            cutoff: 0,
            dropped: 0,
        },
    }
}

pub fn thinned(a: Thinned) -> HbThinned
    ensures { result ≡ as_thinned a }
{
    match a {
        Thinned::Dropped(d) => HbThinned {
            refusal: 0,
            dropped: d,
        },
        Thinned::Refused(r) => HbThinned {
            refusal: answers::number_of(r),
            dropped: 0,
        },
    }
}

pub fn counted(a: Counted) -> HbCounted
    ensures { result ≡ as_counted a }
{
    match a {
        Counted::Held(k, v, d) => HbCounted {
            refusal: 0,
            keys: k,
            versions: v,
            desks: d,
        },
        Counted::Refused(r) => HbCounted {
            refusal: answers::number_of(r),
            keys: 0,
            versions: 0,
            desks: 0,
        },
    }
}

pub fn dumped(a: Dumped) -> HbDumped
    ensures { result ≡ as_dumped a }
{
    match a {
        Dumped::Bytes(n) => HbDumped { refusal: 0, len: n },
        Dumped::Refused(r) => HbDumped {
            refusal: answers::number_of(r),
            len: 0,
        },
    }
}

pub fn replayed(a: Replayed) -> HbReplayed
    ensures { result ≡ as_replayed a }
{
    match a {
        Replayed::UpTo(at) => HbReplayed {
            refusal: 0,
            offset: at,
        },
        Replayed::Malformed(at) => HbReplayed {
            refusal: answers::MALFORMED,
            offset: at,
        },
        Replayed::NoKeyRoom(at) => HbReplayed {
            refusal: answers::NO_KEY_ROOM,
            offset: at,
        },
        Replayed::NoVersionRoom(at) => HbReplayed {
            refusal: answers::NO_VERSION_ROOM,
            offset: at,
        },
        Replayed::Refused(r) => HbReplayed {
            refusal: answers::number_of(r),
            offset: 0,
        },
    }
}

pub fn batched(a: Batched) -> HbBatched
    ensures { result ≡ as_batched a }
{
    match a {
        Batched::Answers(n) => HbBatched {
            refusal: 0,
            len: n,
            offset: 0,
        },
        Batched::Malformed(at) => HbBatched {
            refusal: answers::MALFORMED_BATCH,
            len: 0,
            offset: at,
        },
        Batched::Reserved(at) => HbBatched {
            refusal: answers::RESERVED_KIND,
            len: 0,
            offset: at,
        },
        Batched::Refused(r) => HbBatched {
            refusal: answers::number_of(r),
            len: 0,
            offset: 0,
        },
    }
}
