// Heads of answers: two numbers, the refusal's number and a flag, of one width for every record.
#![tactic(auto)]

ghost use Rattle.std.specs.Prelude.{◌≡◌, ◌*◌, ◌^◌, ◌<◌};
ghost use Rattle.std.proofs.lemmas.List.Edits.{sets};
ghost use Rattle.model.specs.Sizes.{number_width};
ghost use Rattle.model.specs.Bytes.{part, num};
ghost use Rattle.model.specs.Calls.{refused};
ghost use Rattle.model_batch.specs.Answers.{head_width};
ghost use Rattle.answers.specs.Paper.{number_of, paper_begun, paper_done, paper_swept};
ghost use Rattle.hall_values.specs.Places.{placed_answer};
ghost use Rattle.batch_heads.specs.Heads.{fields, HasHead, headed, CommitHeaded};

use answers::{Begun, Committed, Done, Refusal, Swept};
use hall_values::Placed;
use memory::numbers;

// Where the two numbers stand in a head, and after them the refusal and the flag.
pub const FIRST: usize = 0;

pub const SECOND: usize = FIRST + model::NUMBER_WIDTH;

pub const REFUSAL: usize = SECOND + model::NUMBER_WIDTH;

pub const FLAG: usize = REFUSAL + model_batch::CODE_WIDTH;

// The flag of a commit without writes.
pub const CLOSED: u64 = 1;

// Where the head of record i stands.
pub fn place(i: usize) -> usize
    requires { head_width * i < 256 ^ number_width }
    ensures { result ≡ head_width * i }
{
    model_batch::HEAD_WIDTH * i
}

// The first number of the head at place p: a begin's start, zero if it was refused.
pub fn start_of(out: &[u8], p: usize) -> u64
    requires { HasHead out.now p }
    ensures { result ≡ num (part out.now (head_width * p) number_width) }
{
    numbers::read64(out, place(p) + FIRST)
}

fn write_head(out: &mut [u8], i: usize, first: u64, second: u64, refusal: u64, flag: u64)
    requires { HasHead out.old i }
    ensures { out.new ≡ sets out.old (head_width * i) (fields first second refusal flag) }
{
    let at = place(i);
    numbers::write64(out, at + FIRST, first);
    numbers::write64(out, at + SECOND, second);
    out[at + REFUSAL] = (refusal % 256) as u8;
    out[at + FLAG] = (flag % 256) as u8;
}

fn refuse(out: &mut [u8], i: usize, r: Refusal)
    requires { HasHead out.old i }
    ensures { out.new ≡ headed out.old i (refused (number_of r)) }
{
    write_head(out, i, 0, 0, answers::number_of(r), 0);
}

pub fn tell_begun(out: &mut [u8], i: usize, a: Begun)
    requires { HasHead out.old i }
    ensures { out.new ≡ headed out.old i (paper_begun a) }
{
    match a {
        Begun::As(t, d) => write_head(out, i, t.0, d as u64, 0, 0),
        Begun::Refused(r) => refuse(out, i, r),
    }
}

pub fn tell_done(out: &mut [u8], i: usize, a: Done)
    requires { HasHead out.old i }
    ensures { out.new ≡ headed out.old i (paper_done a) }
{
    match a {
        Done::Done => write_head(out, i, 0, 0, 0, 0),
        Done::Refused(r) => refuse(out, i, r),
    }
}

pub fn tell_placed(out: &mut [u8], i: usize, p: Placed)
    requires { HasHead out.old i }
    ensures { out.new ≡ headed out.old i (placed_answer p) }
{
    match p {
        Placed::Refused(r) => refuse(out, i, r),
        Placed::Own(_, _) => write_head(out, i, 0, 0, 0, answers::OWN_VALUE),
        Placed::Held(_, _) => write_head(out, i, 0, 0, 0, answers::HALL_VALUE),
        Placed::Nothing => write_head(out, i, 0, 0, 0, answers::NOTHING_THERE),
    }
}

pub fn tell_committed(out: &mut [u8], i: usize, a: Committed)
    requires { HasHead out.old i }
    ensures { CommitHeaded out.old out.new i a }
{
    match a {
        Committed::As(n) => write_head(out, i, n.0, 0, 0, 0),
        Committed::Closed => write_head(out, i, 0, 0, 0, CLOSED),
        Committed::Conflict(n) => write_head(out, i, n as u64, 0, answers::CONFLICT, 0),
        Committed::Refused(r) => refuse(out, i, r),
    }
}

pub fn tell_swept(out: &mut [u8], i: usize, a: Swept)
    requires { HasHead out.old i }
    ensures { out.new ≡ headed out.old i (paper_swept a) }
{
    match a {
        Swept::At(c, d) => write_head(out, i, c, d, 0, 0),
        Swept::Refused(r) => refuse(out, i, r),
    }
}
