// The dump of a hall.
#![tactic(auto)]

ghost use Rattle.answers.specs.Paper.{paper_dumped};
ghost use Rattle.bridge.specs.Clauses.{DumpCalled};

use answers::{Dumped, Refusal};

// Writes the dump over the front of the output; the output's rest stays.
pub fn dump(hall: &[u8], out: &mut [u8]) -> Dumped
    ensures { DumpCalled hall.now out.old out.new (paper_dumped result) }
{
    if !hall_sound::is_sound(hall) {
        return Dumped::Refused(Refusal::Unsound);
    }
    if out.len() < hall_dump::dump_length(hall) {
        return Dumped::Refused(Refusal::ShortOutput);
    }
    Dumped::Bytes(hall_dump::dump_to(hall, out))
}
