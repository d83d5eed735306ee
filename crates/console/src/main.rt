// Drives the store by text: one call a line on standard input, one answer a line on standard output.
#![tactic(auto)]

ghost use Rattle.std.specs.Prelude.{◌≡◌, ◌+◌, ◌-◌, ◌≤◌, ◌<◌, length};
ghost use Rattle.text_lines.specs.Held.{Within, Answered};
ghost use Rattle.desk.specs.Layout as desk_layout;
ghost use Rattle.model.specs.Sizes.{max_desks};
ghost use Rattle.console.specs.Rooms.{past, hall_room, line, spare, answers};

use std::io::{Read, Stdin};
use text_lines::{Held, Turn};

// Standard output.
const STDOUT: i32 = 1;

const FILL: u8 = 0xa5;

// What is lent past the bytes that a memory needs.
const PAST: usize = 64;

// Hall memory; larger stores are refused.
const HALL: usize = 1_048_576 + PAST;

// Desk memory for the most desks.
const DESK: usize = desk::LARGEST + PAST;

// The bytes that a line says, and any dump of what hall memory holds.
const SPARE: usize = 1_048_576 + 4_096;

// A line that says so many in hex, and its end.
const LINE: usize = 2 * SPARE + 1;

// The longest output of a batch, after answers that are not written yet; the longest answer, a dump in hex, takes less.
const ANSWERS: usize = console_batch::LONGEST + 65_548;

fn hall_memory() -> [u8; HALL]
    ensures { hall_room + past ≡ length result }
{
    [FILL; HALL]
}

fn desk_memory() -> [u8; DESK]
    ensures { desk_layout.needed max_desks + past ≡ length result }
{
    [FILL; DESK]
}

fn line_room() -> [u8; LINE]
    ensures { line ≡ length result }
{
    [0; LINE]
}

fn spare_room() -> [u8; SPARE]
    ensures { spare ≡ length result }
{
    [0; SPARE]
}

fn answer_room() -> [u8; ANSWERS]
    ensures { answers ≡ length result }
{
    [0; ANSWERS]
}

// What the buffer holds, and whether the console goes on.
#[derive(Clone, Copy)]
struct State {
    held: Held,
    goes_on: bool,
}

fn say(out: &[u8], said: usize) -> bool
    requires { said ≤ length out.now }
{
    io::write_all(STDOUT, &out[..said])
}

// A line that fills the buffer is refused and let go.
fn refuse(buffer: &[u8], out: &mut [u8]) -> State
    ensures { Within (length buffer.now) result.held }
{
    let said = console_talk::refuse(buffer, out);
    let goes_on = say(out, said);
    let none = Held {
        from: 0,
        end: 0,
        skips: true,
    };
    State {
        held: none,
        goes_on,
    }
}

// How many bytes came: none at the input's end, nor where a read fails.
fn read_some(mut input: Stdin, buffer: &mut [u8]) -> usize
    ensures { result ≤ length buffer.old }
{
    match input.read(buffer) {
        Ok(n) => n,
        Err(_) => 0,
    }
}

// Waits for more input behind what is held.
fn wait(input: Stdin, held: Held, buffer: &mut [u8]) -> State
    requires { Within (length buffer.old) held }
    ensures { Within (length buffer.old) result.held }
{
    let end = held.end;
    let n = read_some(input, &mut buffer[end..]);
    State {
        held: text_lines::arrived(held, buffer, n),
        goes_on: 0 < n,
    }
}

fn refill(input: Stdin, held: Held, buffer: &mut [u8], out: &mut [u8]) -> State
    requires { Within (length buffer.old) held }
    ensures { Within (length buffer.old) result.held }
{
    let front = text_lines::to_front(held, buffer);
    if front.end == buffer.len() {
        return refuse(buffer, out);
    }
    wait(input, front, buffer)
}

// Writes what was said about the lines that are used; where there was no whole line, gets more.
fn go_on(input: Stdin, held: Held, t: Turn, buffer: &mut [u8], out: &mut [u8]) -> State
    requires { Within (length buffer.old) held × Answered (held.end - held.from) (length out.old) t }
    ensures { Within (length buffer.old) result.held }
{
    if t.used == 0 {
        return refill(input, held, buffer, out);
    }
    let written = say(out, t.said);
    let rest = Held {
        from: held.from + t.used,
        end: held.end,
        skips: false,
    };
    State {
        held: rest,
        goes_on: written & !t.ends,
    }
}

// Answers the whole lines that are held, and goes on from there.
fn turn(
    input: Stdin,
    held: Held,
    hall: &mut [u8],
    desk: &mut [u8],
    buffer: &mut [u8],
    spare: &mut [u8],
    out: &mut [u8],
) -> State
    requires { Within (length buffer.old) held }
    ensures { Within (length buffer.old) result.held }
{
    let from = held.from;
    let end = held.end;
    let t = console_talk::turns::answer_lines(&buffer[from..end], hall, desk, spare, out);
    go_on(input, held, t, buffer, out)
}

// The input's last line may lack its end.
fn finish(
    held: Held,
    hall: &mut [u8],
    desk: &mut [u8],
    buffer: &[u8],
    spare: &mut [u8],
    out: &mut [u8],
)
    requires { Within (length buffer.now) held }
{
    let from = held.from;
    let end = held.end;
    let said = console_talk::answer(&buffer[from..end], hall, desk, spare, out);
    say(out, said);
}

// The turns that are left: none, once the input has ended.
fn left(turns: u64, goes_on: bool) -> u64
    requires { 0 < turns }
    ensures { result < turns }
{
    if goes_on {
        return turns - 1;
    }
    0
}

// Answers line after line until the input ends or a line asks for the end; what is then held has no line end.
fn serve(
    input: Stdin,
    hall: &mut [u8],
    desk: &mut [u8],
    buffer: &mut [u8],
    spare: &mut [u8],
    out: &mut [u8],
) -> Held
    ensures { Within (length buffer.old) result }
{
    let mut held = Held {
        from: 0,
        end: 0,
        skips: false,
    };
    let mut turns = u64::MAX;
    while 0 < turns {
        let state = turn(input, held, hall, desk, buffer, spare, out);
        held = state.held;
        turns = left(turns, state.goes_on);
    }
    held
}

fn main(rt: HostRuntime) {
    let mut hall = hall_memory();
    let mut desk = desk_memory();
    let mut buffer = line_room();
    let mut spare = spare_room();
    let mut out = answer_room();
    let input = rt.stdin();
    let held = serve(
        input,
        &mut hall,
        &mut desk,
        &mut buffer,
        &mut spare,
        &mut out,
    );
    finish(held, &mut hall, &mut desk, &buffer, &mut spare, &mut out);
}
