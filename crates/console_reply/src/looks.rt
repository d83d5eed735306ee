// Lines that ask the store, and change nothing.
ghost use Rattle.std.specs.Prelude.{◌≤◌, length};

use answers::Dumped;
use console_calls::verbs;
use model::Start;

// The call for the kind, then the call for the bytes.
fn read<'a>(start: u64, key: &[u8], hall: &'a [u8], desk: &'a [u8], text: &mut [u8]) -> usize
    ensures { result ≤ length text.old }
{
    let kind = store::read(hall, desk, Start(start), key);
    let value = store::read_bytes(hall, desk, Start(start), key);
    console_say::found(kind, value, text)
}

// The call for the kind, then the call for the bytes.
fn newest(key: &[u8], hall: &[u8], text: &mut [u8]) -> usize
    ensures { result ≤ length text.old }
{
    let kind = store::newest(hall, key);
    let value = store::newest_bytes(hall, key);
    console_say::found(kind, value, text)
}

// The call for the kind, then the call for the bytes.
fn read_at(number: u64, key: &[u8], hall: &[u8], text: &mut [u8]) -> usize
    ensures { result ≤ length text.old }
{
    let kind = store::as_of(hall, number, key);
    let value = store::as_of_bytes(hall, number, key);
    console_say::found(kind, value, text)
}

// The counts, what is open, what the console takes; or no call of the language.
pub(crate) fn tell(verb: usize, hall: &[u8], desk: &[u8], text: &mut [u8]) -> usize
    ensures { result ≤ length text.old }
{
    match verb {
        verbs::COUNTS => console_say::counted(store::counts(hall, desk), text),
        verbs::DESKS => console_desks::answer(hall, desk, text),
        verbs::HELP => console_say::help::help(text),
        _ => console_say::what(text),
    }
}

// A read, its bytes alone, the newest value or the value at a number; the key is the first n bytes of the spare memory.
pub(crate) fn look<'a>(
    verb: usize,
    number: u64,
    n: usize,
    hall: &'a [u8],
    desk: &'a [u8],
    spare: &[u8],
    text: &mut [u8],
) -> usize
    requires { n ≤ length spare.now }
    ensures { result ≤ length text.old }
{
    let key = &spare[0..n];
    match verb {
        verbs::READ => read(number, key, hall, desk, text),
        verbs::BYTES => {
            let value = store::read_bytes(hall, desk, Start(number), key);
            console_say::word_and_bytes(b"bytes", value, text)
        },
        verbs::NEWEST => newest(key, hall, text),
        _ => read_at(number, key, hall, text),
    }
}

// The spare memory is the output.
pub(crate) fn dump(asked: u64, hall: &[u8], spare: &mut [u8], text: &mut [u8]) -> usize
    ensures { result ≤ length text.old }
{
    let n = crate::room(asked, spare);
    match store::dump(hall, &mut spare[..n]) {
        Dumped::Bytes(n) => console_say::word_and_bytes(b"dump", &spare[..n], text),
        Dumped::Refused(r) => console_say::refused(r, text),
    }
}
