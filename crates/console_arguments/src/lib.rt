// Arguments that several lines of the console have.
#![tactic(auto)]

ghost use Rattle.std.specs.Prelude.{◌≡◌};
ghost use Rattle.text_hex.specs.Hex.{Stores};
ghost use Rattle.console_arguments.specs.Arguments.{is_quoted, word_said, key_said, two_numbers, both_of, three_numbers, all_of, Keyed, Written};

use memory::spans;
use model::Start;
use text_decimals::Parsed;
use text_hex::Decoded;

const QUOTE: u8 = 39;

fn is_quoted(text: &[u8]) -> bool
    ensures { result ≡ is_quoted text.now }
{
    if text.len() == 0 {
        return false;
    }
    text[0] == QUOTE
}

// A word is put at the front of the spare memory.
fn put_word(word: &[u8], spare: &mut [u8]) -> Decoded
    ensures { Stores (word_said word.now) spare.old spare.new 0 result }
{
    if text_typed::first(word).len() < word.len() {
        return Decoded::Bad;
    }
    if spare.len() < word.len() {
        return Decoded::Bad;
    }
    spans::copy_in(word, spare, 0);
    Decoded::Count(word.len())
}

// The key that the text says, its letters behind a quote or hex, is put at the front of the spare memory.
pub fn key(text: &[u8], spare: &mut [u8]) -> Decoded
    ensures { Stores (key_said text.now) spare.old spare.new 0 result }
{
    if !is_quoted(text) {
        return text_hex::decode(text, spare, 0);
    }
    put_word(&text[1..], spare)
}

#[derive(Drop)]
pub enum TwoNumbers {
    Both(u64, u64),
    Bad,
}

// The rest of a line is two numbers.
pub fn two_numbers(rest: &[u8]) -> TwoNumbers
    ensures { both_of result ≡ two_numbers rest.now }
{
    let Parsed::Number(a) = text_decimals::parse(text_typed::first(rest)) else {
        return TwoNumbers::Bad;
    };
    let Parsed::Number(b) = text_decimals::parse(text_typed::rest(rest)) else {
        return TwoNumbers::Bad;
    };
    TwoNumbers::Both(a, b)
}

#[derive(Drop)]
pub enum ThreeNumbers {
    All(u64, u64, u64),
    Bad,
}

// The rest of a line is three numbers.
pub fn three_numbers(rest: &[u8]) -> ThreeNumbers
    ensures { all_of result ≡ three_numbers rest.now }
{
    let Parsed::Number(a) = text_decimals::parse(text_typed::first(rest)) else {
        return ThreeNumbers::Bad;
    };
    let TwoNumbers::Both(b, c) = two_numbers(text_typed::rest(rest)) else {
        return ThreeNumbers::Bad;
    };
    ThreeNumbers::All(a, b, c)
}

#[derive(Drop)]
pub enum StartAndKey {
    Both(Start, usize),
    Bad,
}

// The rest of a line is a start and a key, which is put at the front of the spare memory; with the key's length.
pub fn start_and_key(rest: &[u8], spare: &mut [u8]) -> StartAndKey
    ensures { Keyed rest.now spare.old spare.new result }
{
    let Parsed::Number(start) = text_decimals::parse(text_typed::first(rest)) else {
        return StartAndKey::Bad;
    };
    let Decoded::Count(n) = key(text_typed::rest(rest), spare) else {
        return StartAndKey::Bad;
    };
    StartAndKey::Both(Start(start), n)
}

#[derive(Drop)]
pub enum StartKeyValue {
    All(Start, usize, usize),
    Bad,
}

// The rest of a line is a start, a key and a value; the value stands after the key in the spare memory;
// with both lengths.
pub fn start_key_value(rest: &[u8], spare: &mut [u8]) -> StartKeyValue
    ensures { Written rest.now spare.old spare.new result }
{
    let Parsed::Number(start) = text_decimals::parse(text_typed::first(rest)) else {
        return StartKeyValue::Bad;
    };
    let more = text_typed::rest(rest);
    let Decoded::Count(n) = key(text_typed::first(more), spare) else {
        return StartKeyValue::Bad;
    };
    let Decoded::Count(l) = text_hex::decode(text_typed::rest(more), spare, n) else {
        return StartKeyValue::Bad;
    };
    StartKeyValue::All(Start(start), n, l)
}
