// Lines about the lent memories as bytes.
ghost use Rattle.std.specs.Prelude.{◌≤◌, length};

use console_calls::verbs;

#[derive(Drop)]
enum Memory {
    Hall,
    Desk,
    Bad,
}

fn memory_of(word: &[u8]) -> Memory {
    if text_typed::is(word, b"hall") {
        return Memory::Hall;
    }
    if text_typed::is(word, b"desk") {
        return Memory::Desk;
    }
    Memory::Bad
}

fn sum(memory: &[u8], text: &mut [u8]) -> usize
    ensures { result ≤ length text.old }
{
    console_say::word_and_number(b"sum", console_fnv::hash(memory), text)
}

fn peek(from: u64, count: u64, memory: &[u8], text: &mut [u8]) -> usize
    ensures { result ≤ length text.old }
{
    let n = memory.len() as u64;
    if n < from {
        return console_say::what(text);
    }
    if n - from < count {
        return console_say::what(text);
    }
    let at = from as usize;
    let end = at + count as usize;
    console_say::word_and_bytes(b"bytes", &memory[at..end], text)
}

// The byte is changed, as a fault would.
fn poke(at: u64, byte: u64, memory: &mut [u8], text: &mut [u8]) -> usize
    ensures { result ≤ length text.old }
{
    if memory.len() as u64 <= at {
        return console_say::what(text);
    }
    if 255 < byte {
        return console_say::what(text);
    }
    memory[at as usize] = byte as u8;
    console_say::ok(text)
}

// A sum, a peek or a poke of one memory.
fn touch_one(verb: usize, a: u64, b: u64, memory: &mut [u8], text: &mut [u8]) -> usize
    ensures { result ≤ length text.old }
{
    match verb {
        verbs::SUM => sum(memory, text),
        verbs::PEEK => peek(a, b, memory, text),
        _ => poke(a, b, memory, text),
    }
}

// The line's second word names the memory.
pub(crate) fn touch(
    verb: usize,
    line: &[u8],
    a: u64,
    b: u64,
    hall: &mut [u8],
    desk: &mut [u8],
    text: &mut [u8],
) -> usize
    ensures { result ≤ length text.old }
{
    match memory_of(text_typed::first(text_typed::rest(line))) {
        Memory::Hall => touch_one(verb, a, b, hall, text),
        Memory::Desk => touch_one(verb, a, b, desk, text),
        Memory::Bad => console_say::what(text),
    }
}
