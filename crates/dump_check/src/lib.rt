// The check of a whole dump: nothing is written before it is accepted.
#![tactic(auto)]

ghost use Rattle.std.specs.Prelude.{◌≡◌, ℕ};
ghost use Rattle.model.specs.Load.{read_hall};
ghost use Rattle.model.specs.Runs.{loaded};
ghost use Rattle.dump_check.specs.Paper.{paper_checked};

use dump_fields::machine;
use dump_fields::machine::{Fault, Loader, Phase};
use memory::spans;

// A fault with the offset where its field starts.
#[derive(Clone, Copy, Debug, PartialEq, Eq)]
pub struct Faulty {
    pub fault: Fault,
    pub at: usize,
}

// Does the dump load into these rooms, with whatever number of desks?
pub fn check_dump(dump: &[u8], key_rooms: u64, version_rooms: u64) -> Result<(), Faulty>
    ensures { (desks : ℕ)
        → paper_checked result ≡ (loaded (read_hall key_rooms version_rooms desks 0 dump.now)).0 }
{
    let mut p = Phase::Magic;
    let mut s = Loader::new(key_rooms, version_rooms);
    let mut at = 0;
    let mut last_key: &[u8] = &[];
    while p.width() <= dump.len() - at {
        let field = spans::piece(dump, at, p.width());
        match machine::step(p, s, last_key, field) {
            Err(fault) => return Err(Faulty { fault, at }),
            Ok((next, known)) => {
                if p.is_key() {
                    last_key = field;
                }
                at += field.len();
                p = next;
                s = known;
            }
        }
    }
    if p.is_end() {
        Ok(())
    } else {
        Err(Faulty {
            fault: Fault::CutShort,
            at,
        })
    }
}
