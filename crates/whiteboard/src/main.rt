// Asks the store what a script asks, and prints what each call should answer beside what it answered.
#![tactic(auto)]

use whiteboard_page::{Tally, script};

// Standard input.
const STDIN: i32 = 0;

// As many bytes as the script's buffer has.
const ROOM: usize = 65536;

// Asks what the line asks, and prints it.
fn step(line: &[u8], hall: &mut [u8], desk: &mut [u8]) -> Tally {
    let mut spare = io::buffer();
    let mut text = io::buffer();
    let said = console_talk::answer(script::call(line), hall, desk, &mut spare, &mut text);
    whiteboard_page::show(line, script::first_line(&text, said))
}

// Runs the script line by line.
fn run(script: &[u8], hall: &mut [u8], desk: &mut [u8]) -> Tally {
    let mut tally = whiteboard_page::none();
    let mut at = 0;
    while at < script.len() {
        let end = at + text_words::find(&script[at..], b'\n');
        tally = tally.plus(step(&script[at..end], hall, desk));
        at = end + 1;
    }
    tally
}

// A script that fills its buffer may have been cut.
fn main() {
    let mut script = io::large_buffer();
    let n = io::read_full(STDIN, &mut script);
    if n == ROOM {
        whiteboard_page::say(b"the script is too long: it may have up to 65535 bytes\n");
        return;
    }
    let mut hall = io::large_buffer();
    let mut desk = desk::largest();
    let tally = run(&script[..n], &mut hall, &mut desk);
    tally.print();
}
