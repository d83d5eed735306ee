// The page that a person reads: the script's remarks, a row for each call, and how many were right.
#![tactic(auto)]

pub mod script;

ghost use Rattle.std.specs.Prelude.{◌≡◌};
ghost use Rattle.whiteboard_page.specs.Tally.{is_right, of_call, both};

use memory::{order, spans};
use std::num;

// Standard output.
const STDOUT: i32 = 1;

// Short calls and answers stand in columns of this width.
const WIDTH: usize = 16;

#[derive(Drop)]
pub struct Tally {
    pub right: u64,
    pub calls: u64,
    pub cases: u64,
}

pub fn none() -> Tally {
    Tally {
        right: 0,
        calls: 0,
        cases: 0,
    }
}

impl Tally {
    pub fn plus(self, more: Tally) -> Tally
        ensures { result ≡ both self more }
    {
        Tally {
            right: num::wrapping_add_u64(self.right, more.right),
            calls: num::wrapping_add_u64(self.calls, more.calls),
            cases: num::wrapping_add_u64(self.cases, more.cases),
        }
    }

    pub fn print(self) {
        number(b"\n", self.right);
        number(b" of ", self.calls);
        number(b" answers are right, in ", self.cases);
        say(b" cases\n");
    }
}

pub fn say(text: &[u8]) {
    io::write_all(STDOUT, text);
}

fn number(before: &[u8], n: u64) {
    say(before);
    io::print_decimal(STDOUT, n);
}

// The text, spaces up to the width, and what stands before the next.
fn column(text: &[u8], next: &[u8]) {
    say(text);
    let n = text.len();
    if n < WIDTH {
        say(spans::piece(b"                ", n, WIDTH - n));
    }
    say(next);
}

fn row(call: &[u8], should: &[u8], was: &[u8]) {
    column(call, b" should be: ");
    column(should, b" was: ");
    say(was);
    say(b"\n");
}

// Prints the verdict; is the answer right? One of which nothing is demanded is not judged, and not right.
fn judge(should: &[u8], was: &[u8]) -> bool
    ensures { result ≡ is_right should.now was.now }
{
    if should.len() == 0 {
        say(b"  -----  ");
        return false;
    }
    if order::same(should, was) {
        say(b"  right  ");
        return true;
    }
    say(b"  WRONG  ");
    false
}

fn remark(words: &[u8]) -> Tally {
    say(words);
    say(b"\n");
    Tally {
        right: 0,
        calls: 0,
        cases: script::is_name(words) as u64,
    }
}

fn call(words: &[u8], should: &[u8], was: &[u8]) -> Tally
    ensures { result ≡ of_call (is_right should.now was.now) }
{
    let right = judge(should, was);
    row(words, should, was);
    Tally {
        right: right as u64,
        calls: 1,
        cases: 0,
    }
}

// Prints what the line of the script says, with what its call was answered.
pub fn show(line: &[u8], was: &[u8]) -> Tally {
    if script::is_call(line) {
        return call(script::call(line), script::should_be(line), was);
    }
    remark(text_words::rest(line))
}
