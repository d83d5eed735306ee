// What a call of the console does and answers.
#![tactic(auto)]

mod changes;
mod lent;
mod looks;

ghost use Rattle.std.specs.Prelude.{◌≤◌, length};
ghost use Rattle.console_calls.specs.Call.{GivenIn};

use console_calls::{Call, verbs};

// How much of the spare memory is lent as an output.
pub(crate) fn room(asked: u64, spare: &[u8]) -> usize
    ensures { result ≤ length spare.now }
{
    if asked < spare.len() as u64 {
        return asked as usize;
    }
    spare.len()
}

// Does the call, and puts its answer into the text; answers the text's length.
pub fn reply(
    call: Call,
    line: &[u8],
    hall: &mut [u8],
    desk: &mut [u8],
    spare: &mut [u8],
    text: &mut [u8],
) -> usize
    requires { GivenIn (length spare.old) call }
    ensures { result ≤ length text.old }
{
    let verb = call.verb;
    let a = call.a;
    match verb {
        verbs::READ | verbs::BYTES | verbs::NEWEST | verbs::READAT => {
            looks::look(verb, a, call.key, hall, desk, spare, text)
        }
        verbs::DUMP => looks::dump(a, hall, spare, text),
        verbs::COMMITJ => changes::commit_to(a, call.b, hall, desk, spare, text),
        verbs::BATCH => console_batch::answer(call.key, a == 1, hall, desk, spare, text),
        verbs::SUM | verbs::PEEK | verbs::POKE => {
            lent::touch(verb, line, a, call.b, hall, desk, text)
        }
        verbs::COUNTS | verbs::DESKS | verbs::HELP | verbs::NOTHING => {
            looks::tell(verb, hall, desk, text)
        }
        _ => {
            changes::change(
                verb, a, call.b, call.c, call.key, call.end, hall, desk, spare, text,
            )
        },
    }
}
