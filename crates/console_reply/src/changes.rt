// Lines that change the memories by a call of the store.
ghost use Rattle.std.specs.Prelude.{◌≤◌, length};

use answers::Done;
use console_calls::verbs;
use model::Start;

// The dump is the first n bytes of the spare memory.
fn load(
    n: usize,
    keys: u64,
    versions: u64,
    desks: u64,
    hall: &mut [u8],
    desk: &mut [u8],
    spare: &[u8],
    text: &mut [u8],
) -> usize
    requires { n ≤ length spare.now }
    ensures { result ≤ length text.old }
{
    console_say::loaded(
        store::load(&spare[0..n], hall, desk, keys, versions, desks),
        text,
    )
}

// With room for every key that a transaction writes.
const CLASHES: usize = cells::CLASH_WIDTH * model::MAX_WRITES;

fn commit(start: u64, hall: &mut [u8], desk: &mut [u8], text: &mut [u8]) -> usize
    ensures { result ≤ length text.old }
{
    let mut clashes = [0u8; CLASHES];
    let c = store::commit(hall, desk, Start(start), &mut clashes);
    console_say::committed(&clashes, c, text)
}

// The journal is the front of the spare memory, as much of it as is asked for.
pub(crate) fn commit_to(
    start: u64,
    asked: u64,
    hall: &mut [u8],
    desk: &mut [u8],
    spare: &mut [u8],
    text: &mut [u8],
) -> usize
    ensures { result ≤ length text.old }
{
    let n = crate::room(asked, spare);
    let mut clashes = [0u8; CLASHES];
    let r = store::commit_to(hall, desk, Start(start), &mut clashes, &mut spare[..n]);
    let answer = r.answer;
    console_say::recorded(&clashes, &spare[..r.length], answer, text)
}

// The journal is the first n bytes of the spare memory.
fn replay(n: usize, hall: &mut [u8], desk: &mut [u8], spare: &[u8], text: &mut [u8]) -> usize
    requires { n ≤ length spare.now }
    ensures { result ≤ length text.old }
{
    console_say::replayed(store::replay(hall, desk, &spare[0..n]), text)
}

// A put, a delete or an abort.
fn done_at(
    verb: usize,
    start: Start,
    key: &[u8],
    value: &[u8],
    hall: &[u8],
    desk: &mut [u8],
) -> Done {
    match verb {
        verbs::PUT => store::put(hall, desk, start, key, value),
        verbs::DELETE => store::delete(hall, desk, start, key),
        _ => store::abort(hall, desk, start),
    }
}

// The key is the first n bytes of the spare memory, the value those up to the end.
fn write(
    verb: usize,
    start: u64,
    n: usize,
    end: usize,
    hall: &[u8],
    desk: &mut [u8],
    spare: &[u8],
    text: &mut [u8],
) -> usize
    requires { (n ≤ end) × (end ≤ length spare.now) }
    ensures { result ≤ length text.old }
{
    console_say::done(
        done_at(verb, Start(start), &spare[0..n], &spare[n..end], hall, desk),
        text,
    )
}

pub(crate) fn change(
    verb: usize,
    a: u64,
    b: u64,
    c: u64,
    n: usize,
    end: usize,
    hall: &mut [u8],
    desk: &mut [u8],
    spare: &[u8],
    text: &mut [u8],
) -> usize
    requires { (n ≤ end) × (end ≤ length spare.now) }
    ensures { result ≤ length text.old }
{
    match verb {
        verbs::MAKE => console_say::done(store::make(hall, desk, a, b, c), text),
        verbs::LOAD => load(n, a, b, c, hall, desk, spare, text),
        verbs::BEGIN => console_say::begun(store::begin(hall, desk), text),
        verbs::COMMIT => commit(a, hall, desk, text),
        verbs::SWEEP => console_say::swept(store::sweep(hall, desk, a), text),
        verbs::SWEEP2 => console_say::thinned(store::thin(hall, desk, a), text),
        verbs::REPLAY => replay(n, hall, desk, spare, text),
        _ => write(verb, a, n, end, hall, desk, spare, text),
    }
}
