// A line of the console as a call: its verb, and what it gives.
#![tactic(auto)]

pub mod verbs;

ghost use Rattle.std.specs.Prelude.{length};
ghost use Rattle.console_calls.specs.Call.{GivenIn};

use console_arguments::{StartAndKey, StartKeyValue, ThreeNumbers, TwoNumbers};
use text_decimals::Parsed;
use text_hex::Decoded;

// The bytes that a line gives stand at the front of the spare memory: a key, a dump, a journal or a batch,
// and from there to the end a value.
#[derive(Drop)]
pub struct Call {
    pub verb: usize,
    pub a: u64,
    pub b: u64,
    pub c: u64,
    pub key: usize,
    pub end: usize,
}

fn nothing() -> Call
    ensures { GivenIn 0 result }
{
    Call {
        verb: verbs::NOTHING,
        a: 0,
        b: 0,
        c: 0,
        key: 0,
        end: 0,
    }
}

fn numbers(verb: usize, a: u64, b: u64, c: u64) -> Call
    ensures { GivenIn 0 result }
{
    Call {
        verb,
        a,
        b,
        c,
        key: 0,
        end: 0,
    }
}

// One word and nothing behind it.
fn alone(verb: usize, text: &[u8]) -> Call
    ensures { GivenIn 0 result }
{
    if text_typed::first(text).len() < text.len() {
        return nothing();
    }
    numbers(verb, 0, 0, 0)
}

fn one_number(verb: usize, rest: &[u8]) -> Call
    ensures { GivenIn 0 result }
{
    match text_decimals::parse(rest) {
        Parsed::Number(a) => numbers(verb, a, 0, 0),
        Parsed::Bad => nothing(),
    }
}

// The largest number, where none is given.
fn number_or_all(verb: usize, rest: &[u8]) -> Call
    ensures { GivenIn 0 result }
{
    if rest.len() == 0 {
        return numbers(verb, u64::MAX, 0, 0);
    }
    one_number(verb, rest)
}

fn two_numbers(verb: usize, rest: &[u8]) -> Call
    ensures { GivenIn 0 result }
{
    match console_arguments::two_numbers(rest) {
        TwoNumbers::Both(a, b) => numbers(verb, a, b, 0),
        TwoNumbers::Bad => nothing(),
    }
}

fn three_numbers(verb: usize, rest: &[u8]) -> Call
    ensures { GivenIn 0 result }
{
    match console_arguments::three_numbers(rest) {
        ThreeNumbers::All(a, b, c) => numbers(verb, a, b, c),
        ThreeNumbers::Bad => nothing(),
    }
}

// A dump, a journal or a batch, beside numbers.
fn with_bytes(verb: usize, a: u64, b: u64, c: u64, text: &[u8], spare: &mut [u8]) -> Call
    ensures { GivenIn (length spare.old) result }
{
    let Decoded::Count(key) = text_hex::decode(text, spare, 0) else {
        return nothing();
    };
    Call {
        verb,
        a,
        b,
        c,
        key,
        end: key,
    }
}

fn one_key(verb: usize, text: &[u8], spare: &mut [u8]) -> Call
    ensures { GivenIn (length spare.old) result }
{
    let Decoded::Count(key) = console_arguments::key(text, spare) else {
        return nothing();
    };
    Call {
        verb,
        a: 0,
        b: 0,
        c: 0,
        key,
        end: key,
    }
}

// DUMP KEYROOMS VERSIONROOMS DESKS
fn dump_and_sizes(verb: usize, rest: &[u8], spare: &mut [u8]) -> Call
    ensures { GivenIn (length spare.old) result }
{
    match console_arguments::three_numbers(text_typed::rest(rest)) {
        ThreeNumbers::All(a, b, c) => with_bytes(verb, a, b, c, text_typed::first(rest), spare),
        ThreeNumbers::Bad => nothing(),
    }
}

// RECORDS full or RECORDS short: a is 1 for full.
fn records_and_room(verb: usize, rest: &[u8], spare: &mut [u8]) -> Call
    ensures { GivenIn (length spare.old) result }
{
    let word = text_typed::rest(rest);
    if text_typed::is(word, b"full") {
        return with_bytes(verb, 1, 0, 0, text_typed::first(rest), spare);
    }
    if text_typed::is(word, b"short") {
        return with_bytes(verb, 0, 0, 0, text_typed::first(rest), spare);
    }
    nothing()
}

fn start_and_key(verb: usize, rest: &[u8], spare: &mut [u8]) -> Call
    ensures { GivenIn (length spare.old) result }
{
    let StartAndKey::Both(start, key) = console_arguments::start_and_key(rest, spare) else {
        return nothing();
    };
    Call {
        verb,
        a: start.0,
        b: 0,
        c: 0,
        key,
        end: key,
    }
}

fn start_key_value(verb: usize, rest: &[u8], spare: &mut [u8]) -> Call
    ensures { GivenIn (length spare.old) result }
{
    let StartKeyValue::All(start, key, value) = console_arguments::start_key_value(rest, spare)
    else {
        return nothing();
    };
    Call {
        verb,
        a: start.0,
        b: 0,
        c: 0,
        key,
        end: key + value,
    }
}

// The language's lines: what stands after each verb. A line, which begins and ends with a word, is a call of nothing
// if it is none of them.
pub fn call_of(line: &[u8], spare: &mut [u8]) -> Call
    ensures { GivenIn (length spare.old) result }
{
    let verb = verbs::verb_of(line);
    let rest = text_typed::rest(line);
    match verb {
        verbs::MAKE => three_numbers(verb, rest),
        verbs::LOAD => dump_and_sizes(verb, rest, spare),
        verbs::BEGIN | verbs::COUNTS | verbs::DESKS | verbs::HELP => alone(verb, line),
        verbs::READ | verbs::BYTES | verbs::DELETE | verbs::READAT => start_and_key(
            verb, rest, spare,
        ),
        verbs::PUT => start_key_value(verb, rest, spare),
        verbs::COMMIT | verbs::ABORT => one_number(verb, rest),
        verbs::SWEEP | verbs::SWEEP2 | verbs::DUMP => number_or_all(verb, rest),
        verbs::NEWEST => one_key(verb, rest, spare),
        verbs::COMMITJ => two_numbers(verb, rest),
        verbs::REPLAY => with_bytes(verb, 0, 0, 0, rest, spare),
        verbs::BATCH => records_and_room(verb, rest, spare),
        verbs::SUM => alone(verb, rest),
        verbs::PEEK | verbs::POKE => two_numbers(verb, text_typed::rest(rest)),
        _ => nothing(),
    }
}
