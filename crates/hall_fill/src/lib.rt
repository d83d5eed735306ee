// Hall memory filled with a dump's fields, each at its place as it comes, and the header last.
#![tactic(auto)]

ghost use Rattle.std.specs.Prelude.{◌≡◌, true, ℕ, ◌≤◌, length};
ghost use Rattle.model.specs.Sizes.{max_key_rooms};
ghost use Rattle.model.specs.Bytes.{Bytes};
ghost use Rattle.model.specs.State.{Hall};
ghost use Rattle.model.specs.Sound.{sizes_fit};
ghost use Rattle.model.specs.Load.{got, read_hall};
ghost use Rattle.hall.specs.Layout.{head_size, needed, put_hall};
ghost use Rattle.hall_fill.specs.Filling.{filled};

use dump_fields::machine;
use dump_fields::machine::{Loader, Phase};
use hall::header::Head;
use hall_place::Rows;
use memory::spans;

fn fill_rows(dump: &[u8], m: &mut [u8], key_rooms: u64, version_rooms: u64, desks: u64)
    requires { (key_rooms ≤ max_key_rooms) × (head_size ≤ length m.old) }
    ensures { m.new ≡ filled key_rooms version_rooms desks m.old dump.now }
{
    let mut p = Phase::Magic;
    let mut s = Loader::new(key_rooms, version_rooms);
    let mut g = Rows {
        keys: 0,
        versions: 0,
    };
    let mut at = 0;
    while p.width() <= dump.len() - at {
        let field = spans::piece(dump, at, p.width());
        let n = machine::number(field);
        g = hall_place::rows_by(p, g);
        s = machine::known_after(p, s, n);
        hall_place::store(
            m,
            hall_place::target_of(key_rooms as usize, p, s, g),
            hall_place::end_of(g, n),
            field,
        );
        p = machine::phase_after(p, s, n);
        at += field.len();
    }
    let counter = s.next.saturating_sub(1);
    hall_head::write_head(
        m,
        Head {
            key_rooms: key_rooms as usize,
            version_rooms: version_rooms as usize,
            counter,
            key_count: g.keys as usize,
            version_count: g.versions as usize,
            floor: counter,
            desk_count: desks as usize,
        },
    );
}

// Fills in an accepted dump, over whatever the memory holds.
pub fn fill(dump: &[u8], m: &mut [u8], key_rooms: u64, version_rooms: u64, desks: u64)
    requires { (sizes_fit key_rooms version_rooms desks ≡ true)
        × (needed key_rooms version_rooms ≤ length m.old) }
    ensures { (h : Hall) (q : ℕ) (r : Bytes)
        → read_hall key_rooms version_rooms desks 0 dump.now ≡ got h q r
        → m.new ≡ put_hall m.old h }
{
    let n = hall::needed_length(key_rooms, version_rooms);
    spans::clear(m, 0, n);
    fill_rows(dump, m, key_rooms, version_rooms, desks);
}
