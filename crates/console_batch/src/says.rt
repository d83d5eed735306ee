// The answers of a batch as text, each as its single call's.
ghost use Rattle.std.specs.Prelude.{◌≤◌, length};
ghost use Rattle.model_batch.specs.Items.{max_items};

use crate::heads;
use crate::heads::Head;
use answers::{Begun, Committed, Found, Swept};
use batch_items::kinds;
use model::{Commit, Start};

fn found(flag: u64, detail: &[u8], text: &mut [u8]) -> usize
    ensures { result ≤ length text.old }
{
    let value = heads::value_in(detail);
    match flag {
        answers::OWN_VALUE => console_say::found(Found::OwnValue, value, text),
        answers::HALL_VALUE => console_say::found(Found::HallValue, value, text),
        _ => console_say::found(Found::NothingThere, value, text),
    }
}

// The detail lists the clashes of a conflict.
fn committed(head: Head, detail: &[u8], text: &mut [u8]) -> usize
    ensures { result ≤ length text.old }
{
    if head.refusal as u64 == answers::CONFLICT {
        return console_say::committed(detail, Committed::Conflict(head.first as usize), text);
    }
    if head.flag as u64 == batch_heads::CLOSED {
        return console_say::committed(detail, Committed::Closed, text);
    }
    console_say::committed(detail, Committed::As(Commit(head.first)), text)
}

// What a call that was not refused came to, or a conflict.
fn done(kind: u64, head: Head, detail: &[u8], text: &mut [u8]) -> usize
    ensures { result ≤ length text.old }
{
    match kind {
        kinds::BEGIN => console_say::begun(
            Begun::As(Start(head.first), head.second as usize),
            text,
        ),
        kinds::READ => found(head.flag as u64, detail, text),
        kinds::COMMIT => committed(head, detail, text),
        kinds::SWEEP => console_say::swept(Swept::At(head.first, head.second), text),
        _ => console_say::ok(text),
    }
}

fn answer(kind: u64, head: Head, detail: &[u8], text: &mut [u8]) -> usize
    ensures { result ≤ length text.old }
{
    if (head.refusal == 0) | (head.refusal as u64 == answers::CONFLICT) {
        return done(kind, head, detail, text);
    }
    console_say::no(head.refusal as u64, text)
}

// An answer behind those that the text has up to `at`.
fn next_answer(kind: u64, head: Head, detail: &[u8], text: &mut [u8], at: usize) -> usize
    requires { at ≤ length text.old }
    ensures { result ≤ length text.old }
{
    let end = text_words::append(b" ; ", text, at);
    end + answer(kind, head, detail, &mut text[end..])
}

// All answers in the output, by their records' kinds.
pub(crate) fn answers(kinds: &[u8], out: &[u8], text: &mut [u8]) -> usize
    requires { length kinds.now ≤ max_items }
    ensures { result ≤ length text.old }
{
    let mut end = console_say::word_and_number(b"batch", kinds.len() as u64, text);
    let mut at = batch_heads::place(kinds.len());
    let mut i = 0;
    while i < kinds.len() {
        let kind = kinds[i] as u64;
        let width = kinds::detail_width(kind);
        end = next_answer(
            kind,
            heads::head_at(out, i),
            heads::detail_at(out, at, width),
            text,
            end,
        );
        at += width;
        i += 1;
    }
    end
}
