// A line of the script: a call, ` = ` and what it should answer; or a remark; or nothing.
ghost use Rattle.std.specs.Prelude.{◌≤◌, length};

use memory::{order, spans};

// How many bytes stand before ` = `, with the line's first `=`; all, if it is not there.
fn call_length(line: &[u8]) -> usize
    ensures { result ≤ length line.now }
{
    let n = text_words::find(line, b'=');
    if n == 0 {
        return line.len();
    }
    if line.len() - n < 2 {
        return line.len();
    }
    if order::same(spans::piece(line, n - 1, 3), b" = ") {
        return n - 1;
    }
    line.len()
}

pub fn call(line: &[u8]) -> &[u8] {
    let n = call_length(line);
    spans::piece(line, 0, n)
}

// What the call should answer; nothing, if the line does not say it.
pub fn should_be(line: &[u8]) -> &[u8] {
    let n = call_length(line);
    text_words::rest(text_words::rest(&line[n..]))
}

// The first line of the text, if so much is said.
pub fn first_line(text: &[u8], said: usize) -> &[u8] {
    let n = text_words::find(text, b'\n');
    if n < said {
        return spans::piece(text, 0, n);
    }
    &text[..0]
}

pub fn is_call(line: &[u8]) -> bool {
    if line.len() == 0 {
        return false;
    }
    line[0] != b'#'
}

// Do a remark's words name a case? Those that are indented do not.
pub fn is_name(words: &[u8]) -> bool {
    if words.len() == 0 {
        return false;
    }
    words[0] != b' '
}
