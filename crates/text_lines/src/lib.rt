// Lines that arrive in parts: a buffer holds what has arrived and is not answered yet.
#![tactic(auto)]

ghost use Rattle.std.specs.Prelude.{◌+◌, ◌≤◌, length};
ghost use Rattle.text_lines.specs.Held.{Within, Ends, Fronted, Arrived};

use memory::spans;

const NEWLINE: u8 = 10;

// What the buffer holds, from its first byte to its end;
// and whether the rest of a line that was too long is still to come.
#[derive(Clone, Copy)]
pub struct Held {
    pub from: usize,
    pub end: usize,
    pub skips: bool,
}

// How much of the text was used, how much was said, and whether a line asked for the end.
#[derive(Clone, Copy)]
pub struct Turn {
    pub used: usize,
    pub said: usize,
    pub ends: bool,
}

// Where a line ends, and where the next one begins; the same place as the line itself, if its end has not arrived.
#[derive(Clone, Copy)]
pub struct Line {
    pub end: usize,
    pub next: usize,
}

// The line that begins at `from`.
pub fn line_at(text: &[u8], from: usize) -> Line
    requires { from ≤ length text.now }
    ensures { Ends text.now from result }
{
    let n = text_words::find(&text[from..], NEWLINE);
    if text.len() - from <= n {
        return Line {
            end: from,
            next: from,
        };
    }
    Line {
        end: from + n,
        next: from + n + 1,
    }
}

// What is held is moved to the front of the buffer.
pub fn to_front(held: Held, buffer: &mut [u8]) -> Held
    requires { Within (length buffer.old) held }
    ensures { Fronted buffer.old buffer.new held result }
{
    let from = held.from;
    let end = held.end;
    spans::close_gap(buffer, 0, end, from);
    Held {
        from: 0,
        end: end - from,
        skips: held.skips,
    }
}

// Bytes have arrived; those of a line that was too long are let go.
pub fn arrived(held: Held, buffer: &[u8], count: usize) -> Held
    requires { Within (length buffer.now) held × (held.end + count ≤ length buffer.now) }
    ensures { Arrived buffer.now held count result }
{
    let from = held.from;
    let end = held.end + count;
    if !held.skips {
        return Held {
            from,
            end,
            skips: false,
        };
    }
    let n = text_words::find(&buffer[from..end], NEWLINE);
    if end - from <= n {
        return Held {
            from: end,
            end,
            skips: true,
        };
    }
    Held {
        from: from + n + 1,
        end,
        skips: false,
    }
}
