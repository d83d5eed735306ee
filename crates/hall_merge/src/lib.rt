// The writes of a desk published in one pass over each table, from the last write to the first.
#![tactic(auto)]

pub mod passes;

ghost use Rattle.std.specs.Prelude.{◌≡◌};
ghost use Rattle.model.specs.State as state;
ghost use Rattle.model.specs.State.{with_entries};
ghost use Rattle.hall.specs.Layout.{hall_in, put_hall};
ghost use Rattle.hall_sought.specs.Sought.{writes_in, Found};
ghost use Rattle.hall_merge.specs.Merge.{Publishable};

// Publishes the writes of desk d under a number above the counter; their places are in `at`, and `new` of their keys
// are new.
pub fn publish_writes(hall: &mut [u8], desk: &[u8], d: usize, number: u64, at: &[usize], new: usize)
    requires { Publishable hall.old desk.now d number × Found hall.old desk.now d at.now new }
    ensures { hall.new ≡ put_hall hall.old
        (with_entries (hall_in hall.old) number
        (state.publish number (writes_in desk.now d) (hall_in hall.old).entries)) }
{
    passes::place_known(hall, desk, d, number, at, new);
    passes::place_new(hall, desk, d, number, at, new);
    hall_head::put_counter(hall, number);
}
