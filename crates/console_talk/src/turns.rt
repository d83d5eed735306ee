// The lines that have arrived, answered.
ghost use Rattle.std.specs.Prelude.{◌≤◌, length};
ghost use Rattle.text_lines.specs.Held.{Answered};

use text_lines::Turn;

// Once this much is said, it is to be written before more lines are answered.
const ENOUGH: usize = 65_536;

fn asks_for_end(line: &[u8]) -> bool {
    crate::is_quit(text_typed::words(line))
}

// Answers the line that begins where the used part ends, behind what is said; where its end has not arrived,
// nothing more is used. What stands behind a line that asks for the end is used up with it.
fn answer_next(
    done: Turn,
    text: &[u8],
    hall: &mut [u8],
    desk: &mut [u8],
    spare: &mut [u8],
    out: &mut [u8],
) -> Turn
    requires { Answered (length text.now) (length out.old) done }
    ensures { (done.used ≤ result.used) × Answered (length text.now) (length out.old) result }
{
    let used = done.used;
    let said = done.said;
    let place = text_lines::line_at(text, used);
    if place.next == used {
        return done;
    }
    let end = place.end;
    let line = &text[used..end];
    if asks_for_end(line) {
        return Turn {
            used: text.len(),
            said,
            ends: true,
        };
    }
    let more = crate::answer(line, hall, desk, spare, &mut out[said..]);
    Turn {
        used: place.next,
        said: said + more,
        ends: false,
    }
}

// Answers the whole lines of the text, until there is none left or enough is said.
pub fn answer_lines(
    text: &[u8],
    hall: &mut [u8],
    desk: &mut [u8],
    spare: &mut [u8],
    out: &mut [u8],
) -> Turn
    ensures { Answered (length text.now) (length out.old) result }
{
    let mut done = Turn {
        used: 0,
        said: 0,
        ends: false,
    };
    while done.said <= ENOUGH {
        let next = answer_next(done, text, hall, desk, spare, out);
        if next.used == done.used {
            break;
        }
        done = next;
    }
    done
}
