// What is open: a line for each desk that is taken, then how many there are.
#![tactic(auto)]

ghost use Rattle.std.specs.Prelude.{◌≤◌, length};
ghost use Rattle.desk.specs.Shape.{Shaped};
ghost use Rattle.console_desks.specs.Lines.{LineAt};

use answers::Refusal;
use bridge::memories;
use desk::desks;

// The line of desk d, whose bit is the lowest of `bits`.
fn line_of(desk: &[u8], bits: u64, d: usize, text: &mut [u8], at: usize) -> usize
    requires { LineAt desk.now d text.old at }
    ensures { result ≤ length text.old }
{
    if bits % 2 == 0 {
        return at;
    }
    let start = desks::start_at(desk, d);
    console_say::desk(d, start, desk_writes::write_count(desk, d), text, at)
}

// The lines of all that are taken, in the order of the desks.
fn lines(desk: &[u8], text: &mut [u8]) -> usize
    requires { Shaped desk.now }
    ensures { result ≤ length text.old }
{
    let n = desks::desk_count(desk);
    let mut bits = desks::occupied(desk);
    let mut at = 0;
    let mut d = 0;
    while d < n {
        at = line_of(desk, bits, d, text, at);
        bits = bits / 2;
        d += 1;
    }
    at
}

fn answer_in(desk: &[u8], text: &mut [u8]) -> usize
    requires { Shaped desk.now }
    ensures { result ≤ length text.old }
{
    let at = lines(desk, text);
    console_say::desks(desks::open_desks(desk), text, at)
}

// The same in any memories.
pub fn answer(hall: &[u8], desk: &[u8], text: &mut [u8]) -> usize
    ensures { result ≤ length text.old }
{
    if !memories::are_sound(hall, desk) {
        return console_say::refused(Refusal::Unsound, text);
    }
    answer_in(desk, text)
}
