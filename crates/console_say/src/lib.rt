// Answers as text.
#![tactic(auto)]

pub mod help;

ghost use Rattle.std.specs.Prelude.{◌+◌, ◌-◌, ◌≤◌, length};

use answers::{Begun, Committed, Counted, Done, Found, Loaded, Refusal, Replayed, Swept, Thinned};
use memory::numbers;
use text_words::append;

// Puts the number's digits into the text at `at`.
fn number(n: u64, text: &mut [u8], at: usize) -> usize
    ensures { result ≤ at + (length text.old - at) }
{
    let mut digits = [0u8; 20];
    let k = io::decimal(n, &mut digits);
    append(&digits[..k], text, at)
}

// A space and a number.
fn next_number(n: u64, text: &mut [u8], at: usize) -> usize
    ensures { result ≤ at + (length text.old - at) }
{
    let end = append(b" ", text, at);
    number(n, text, end)
}

// No call of the language.
pub fn what(text: &mut [u8]) -> usize
    ensures { result ≤ length text.old }
{
    append(b"what", text, 0)
}

pub fn ok(text: &mut [u8]) -> usize
    ensures { result ≤ length text.old }
{
    append(b"ok", text, 0)
}

pub fn no(n: u64, text: &mut [u8]) -> usize
    ensures { result ≤ length text.old }
{
    let at = append(b"no", text, 0);
    next_number(n, text, at)
}

pub fn refused(r: Refusal, text: &mut [u8]) -> usize
    ensures { result ≤ length text.old }
{
    no(answers::number_of(r), text)
}

// A fault of a dump, a journal or a batch, at that offset.
pub fn fault(n: u64, offset: usize, text: &mut [u8]) -> usize
    ensures { result ≤ length text.old }
{
    let at = no(n, text);
    next_number(offset as u64, text, at)
}

// A word, then bytes as hex.
pub fn word_and_bytes(word: &[u8], bytes: &[u8], text: &mut [u8]) -> usize
    ensures { result ≤ length text.old }
{
    let at = append(word, text, 0);
    let at = append(b" ", text, at);
    text_hex::encode(bytes, text, at)
}

// A word, then numbers.
pub fn word_and_number(word: &[u8], n: u64, text: &mut [u8]) -> usize
    ensures { result ≤ length text.old }
{
    let at = append(word, text, 0);
    next_number(n, text, at)
}

fn word_and_two(word: &[u8], a: u64, b: u64, text: &mut [u8]) -> usize
    ensures { result ≤ length text.old }
{
    let at = word_and_number(word, a, text);
    next_number(b, text, at)
}

pub fn done(d: Done, text: &mut [u8]) -> usize
    ensures { result ≤ length text.old }
{
    match d {
        Done::Done => ok(text),
        Done::Refused(r) => refused(r, text),
    }
}

pub fn loaded(l: Loaded, text: &mut [u8]) -> usize
    ensures { result ≤ length text.old }
{
    match l {
        Loaded::Done => ok(text),
        Loaded::CutShort(at) => fault(answers::CUT_SHORT, at, text),
        Loaded::Malformed(at) => fault(answers::MALFORMED, at, text),
        Loaded::TooBig(at) => fault(answers::TOO_BIG, at, text),
        Loaded::Refused(r) => refused(r, text),
    }
}

pub fn begun(b: Begun, text: &mut [u8]) -> usize
    ensures { result ≤ length text.old }
{
    match b {
        Begun::As(start, desk) => word_and_two(b"begun", start.0, desk as u64, text),
        Begun::Refused(r) => refused(r, text),
    }
}

// The kind, with the bytes of a value.
pub fn found(kind: Found, bytes: &[u8], text: &mut [u8]) -> usize
    ensures { result ≤ length text.old }
{
    match kind {
        Found::OwnValue => word_and_bytes(b"own", bytes, text),
        Found::HallValue => word_and_bytes(b"hall", bytes, text),
        Found::NothingThere => append(b"none", text, 0),
        Found::Refused(r) => refused(r, text),
    }
}

// Key and number of clash i in an output, if they are there.
fn clash(clashes: &[u8], i: usize, text: &mut [u8], at: usize) -> usize
    ensures { result ≤ at + (length text.old - at) }
{
    if clashes.len() / cells::CLASH_WIDTH <= i {
        return at;
    }
    let key_place = cells::clashes::key_place(clashes, i);
    if !cells::is_key_cell(clashes, key_place) {
        return at;
    }
    let end = append(b" ", text, at);
    let key = cells::key_in(clashes, key_place);
    let end = text_hex::encode(key, text, end);
    let number = numbers::read64(clashes, cells::clashes::place(clashes, i));
    next_number(number, text, end)
}

fn conflict(clashes: &[u8], count: usize, text: &mut [u8]) -> usize
    ensures { result ≤ length text.old }
{
    let mut at = no(answers::CONFLICT, text);
    let mut i = 0;
    while i < count {
        at = clash(clashes, i, text, at);
        i += 1;
    }
    at
}

// With the output that a commit lists clashes in.
pub fn committed(clashes: &[u8], c: Committed, text: &mut [u8]) -> usize
    ensures { result ≤ length text.old }
{
    match c {
        Committed::As(number) => word_and_number(b"committed", number.0, text),
        Committed::Closed => append(b"closed", text, 0),
        Committed::Conflict(count) => conflict(clashes, count, text),
        Committed::Refused(r) => refused(r, text),
    }
}

// With the record at the front of its journal too.
pub fn recorded(clashes: &[u8], record: &[u8], c: Committed, text: &mut [u8]) -> usize
    ensures { result ≤ length text.old }
{
    match c {
        Committed::As(number) => {
            let at = word_and_number(b"committed", number.0, text);
            let at = append(b" ", text, at);
            text_hex::encode(record, text, at)
        }
        Committed::Closed => word_and_bytes(b"closed", record, text),
        Committed::Conflict(count) => conflict(clashes, count, text),
        Committed::Refused(r) => refused(r, text),
    }
}

pub fn replayed(a: Replayed, text: &mut [u8]) -> usize
    ensures { result ≤ length text.old }
{
    match a {
        Replayed::UpTo(at) => word_and_number(b"replayed", at as u64, text),
        Replayed::Malformed(at) => fault(answers::MALFORMED, at, text),
        Replayed::NoKeyRoom(at) => fault(answers::NO_KEY_ROOM, at, text),
        Replayed::NoVersionRoom(at) => fault(answers::NO_VERSION_ROOM, at, text),
        Replayed::Refused(r) => refused(r, text),
    }
}

pub fn swept(s: Swept, text: &mut [u8]) -> usize
    ensures { result ≤ length text.old }
{
    match s {
        Swept::At(cutoff, dropped) => word_and_two(b"swept", cutoff, dropped, text),
        Swept::Refused(r) => refused(r, text),
    }
}

pub fn thinned(t: Thinned, text: &mut [u8]) -> usize
    ensures { result ≤ length text.old }
{
    match t {
        Thinned::Dropped(dropped) => word_and_number(b"swept2", dropped, text),
        Thinned::Refused(r) => refused(r, text),
    }
}

// An open desk's line, put into the text at `at`.
pub fn desk(d: usize, start: u64, writes: usize, text: &mut [u8], at: usize) -> usize
    ensures { result ≤ at + (length text.old - at) }
{
    let at = append(b"desk", text, at);
    let at = next_number(d as u64, text, at);
    let at = next_number(start, text, at);
    let at = next_number(writes as u64, text, at);
    append(b"\n", text, at)
}

// How many desks are open, behind their lines.
pub fn desks(n: u64, text: &mut [u8], at: usize) -> usize
    ensures { result ≤ at + (length text.old - at) }
{
    let at = append(b"desks", text, at);
    next_number(n, text, at)
}

pub fn counted(c: Counted, text: &mut [u8]) -> usize
    ensures { result ≤ length text.old }
{
    match c {
        Counted::Held(keys, versions, desks) => {
            let at = word_and_two(b"counts", keys, versions, text);
            next_number(desks, text, at)
        }
        Counted::Refused(r) => refused(r, text),
    }
}
