// Numbers in the lines of a text.
ghost use Rattle.std.specs.Prelude.{◌≡◌, ◌≤◌, length};
ghost use Rattle.workload_plan.specs.Lines.{LineAt, seven_in, as_seven};

use text_decimals::Parsed;

// What the line at a place says, and where the next one starts.
#[derive(Clone, Copy)]
pub struct Line {
    pub number: Parsed,
    pub next: usize,
}

// Seven numbers, if `all` holds: a text that has no seven lines of numbers has none.
#[derive(Clone, Copy)]
pub struct Seven {
    pub all: bool,
    pub numbers: [u64; 7],
}

fn line_at(text: &[u8], at: usize) -> Line
    requires { at ≤ length text.now }
    ensures { LineAt text.now at result }
{
    let n = text_words::find(&text[at..], b'\n');
    let number = text_decimals::parse(&text[at..at + n]);
    if n < text.len() - at {
        return Line {
            number,
            next: at + n + 1,
        };
    }
    Line {
        number,
        next: text.len(),
    }
}

// The numbers of a text that has exactly seven lines, each a number.
pub fn seven_in(text: &[u8]) -> Seven
    ensures { as_seven result ≡ seven_in text.now }
{
    let mut numbers = [0u64; 7];
    let mut at = 0;
    let mut i = 0;
    while i < 7 {
        let line = line_at(text, at);
        let number = line.number;
        let Parsed::Number(n) = number else {
            return Seven {
                all: false,
                numbers,
            };
        };
        numbers[i] = n;
        at = line.next;
        i += 1;
    }
    Seven {
        all: at == text.len(),
        numbers,
    }
}
