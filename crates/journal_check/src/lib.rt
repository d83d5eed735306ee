// One record of the journal judged: nothing of it is done before it is found whole. Its fields are the dump's.
#![tactic(auto)]

ghost use Rattle.std.specs.Prelude.{◌≡◌, [], ◌≤◌, length, drop};
ghost use Rattle.model.specs.Load.{read_payload, read_key, give};
ghost use Rattle.model.specs.Journal.{read_write, read_writes, read_body};
ghost use Rattle.journal_check.specs.Records.{limits_of, end_of, end_of_field, Judges};

use dump_fields::machine;
use dump_fields::machine::{Loader, Phase};
use memory::{numbers, spans};

#[derive(Clone, Copy, Debug, PartialEq, Eq)]
pub enum Judged {
    // not wholly there
    Cut,
    // no record of a lawful commit
    Spoiled,
    // a record whose body has so many bytes
    Whole(usize),
}

const MARK: u16 = model::MARK as u16;

// A number above the counter, and from 1 to 16 writes.
fn limits(counter: u64) -> Loader
    ensures { result ≡ limits_of counter }
{
    Loader {
        next: model::LAST_NUMBER + 1,
        keys: 0,
        rooms: model::MAX_WRITES as u64,
        versions: 0,
        last: counter,
    }
}

// Where a whole field at `at` without a fault ends.
fn field_end(x: &[u8], at: usize, p: Phase, s: Loader, last: &[u8]) -> Option<usize>
    requires { at ≤ length x.now }
    ensures { result ≡ end_of_field at p s last.now (drop at x.now) }
{
    let w = p.width();
    if x.len() - at < w {
        return None;
    }
    machine::step(p, s, last, spans::piece(x, at, w)).ok()?;
    Some(at + w)
}

// Where a key at `at` ends that comes after `last`.
fn key_end(x: &[u8], at: usize, last: &[u8]) -> Option<usize>
    requires { at ≤ length x.now }
    ensures { result ≡ end_of (read_key last.now give at (drop at x.now)) }
{
    let s = limits(0);
    let key = field_end(x, at, Phase::KeyLength, s, last)?;
    let n = u64::from(numbers::read32(x, at));
    field_end(x, key, Phase::Key(n), s, last)
}

// Where a payload at `at` ends.
fn payload_end(x: &[u8], at: usize) -> Option<usize>
    requires { at ≤ length x.now }
    ensures { result ≡ end_of (read_payload at (drop at x.now)) }
{
    let s = limits(0);
    let length = field_end(x, at, Phase::Tag, s, x)?;
    if x[at] == 0 {
        return Some(length);
    }
    let value = field_end(x, length, Phase::ValueLength, s, x)?;
    let n = numbers::read32(x, length) as usize;
    if n <= x.len() - value {
        Some(value + n)
    } else {
        None
    }
}

// Where a write at `at` ends whose key comes after `last`.
fn write_end(x: &[u8], at: usize, last: &[u8]) -> Option<usize>
    requires { at ≤ length x.now }
    ensures { result ≡ end_of (read_write last.now at (drop at x.now)) }
{
    let payload = key_end(x, at, last)?;
    payload_end(x, payload)
}

// Where so many writes from `from` on end.
fn writes_end(x: &[u8], from: usize, n: usize) -> Option<usize>
    requires { from ≤ length x.now }
    ensures { result ≡ end_of (read_writes n [] from (drop from x.now)) }
{
    let mut at = from;
    let mut last: &[u8] = &[];
    for _ in 0..n {
        let to = write_end(x, at, last)?;
        last = spans::piece(x, at + model::COUNT_WIDTH, numbers::read32(x, at) as usize);
        at = to;
    }
    Some(at)
}

// Where a body ends, that of a lawful commit, numbered above the counter, and nothing else.
fn body_end(x: &[u8], counter: u64) -> Option<usize>
    ensures { result ≡ end_of (read_body counter 0 x.now) }
{
    let s = limits(counter);
    let count = field_end(x, journal_fields::NUMBER_IN_BODY, Phase::Number, s, x)?;
    let writes = field_end(x, count, Phase::VersionCount, s, x)?;
    let end = writes_end(x, writes, numbers::read32(x, count) as usize)?;
    if end == x.len() { Some(end) } else { None }
}

// The record at `at`, for a hall with that counter.
pub fn judge(x: &[u8], at: usize, counter: u64) -> Judged
    requires { at ≤ length x.now }
    ensures { Judges counter x.now at result }
{
    let left = x.len() - at;
    if left < model::MARK_WIDTH {
        return Judged::Cut;
    }
    if numbers::read16(x, at) != MARK {
        return Judged::Spoiled;
    }
    if left < journal_fields::BODY_PLACE {
        return Judged::Cut;
    }
    let n = numbers::read32(x, at + journal_fields::LENGTH_PLACE) as usize;
    if left - journal_fields::BODY_PLACE < n {
        return Judged::Cut;
    }
    match body_end(spans::piece(x, at + journal_fields::BODY_PLACE, n), counter) {
        Some(_) => Judged::Whole(n),
        None => Judged::Spoiled,
    }
}
