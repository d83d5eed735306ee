// The console's language: a line is a call, and its answer ends with a line of its own.
#![tactic(auto)]

pub mod turns;

ghost use Rattle.std.specs.Prelude.{◌≤◌, length};

// A line's words that ask for the program's end.
fn is_quit(words: &[u8]) -> bool {
    text_typed::is(words, b"quit")
}

fn is_remark(words: &[u8]) -> bool {
    if words.len() == 0 {
        return false;
    }
    words[0] == b'#'
}

// Has a line of these words no answer?
fn is_silent(words: &[u8]) -> bool {
    (words.len() == 0) | is_remark(words) | is_quit(words)
}

// Does what a line's words ask, and answers them.
fn answer_words(
    words: &[u8],
    hall: &mut [u8],
    desk: &mut [u8],
    spare: &mut [u8],
    text: &mut [u8],
) -> usize
    ensures { result ≤ length text.old }
{
    let call = console_calls::call_of(words, spare);
    let at = console_reply::reply(call, words, hall, desk, spare, text);
    text_words::append(b"\n", text, at)
}

// Answers a line by one or more lines, or by nothing: an empty line, a remark, and one that asks for the end.
pub fn answer(
    line: &[u8],
    hall: &mut [u8],
    desk: &mut [u8],
    spare: &mut [u8],
    text: &mut [u8],
) -> usize
    ensures { result ≤ length text.old }
{
    let words = text_typed::words(line);
    if is_silent(words) {
        return 0;
    }
    answer_words(words, hall, desk, spare, text)
}

// Answers a line that is longer than the console takes, by its front.
pub fn refuse(front: &[u8], text: &mut [u8]) -> usize
    ensures { result ≤ length text.old }
{
    if is_remark(text_typed::words(front)) {
        return 0;
    }
    let at = console_say::what(text);
    text_words::append(b"\n", text, at)
}
