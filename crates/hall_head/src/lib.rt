// The header of hall memory written: a new hall, counter and floor set.
#![tactic(auto)]

ghost use Rattle.std.specs.Prelude.{◌≡◌, true, ◌≤◌, max, length};
ghost use Rattle.std.proofs.lemmas.List.Edits.{sets};
ghost use Rattle.model.specs.State.{new_hall, with_entries, with_floor};
ghost use Rattle.model.specs.Sound.{sizes_fit};
ghost use Rattle.hall.specs.Layout.{head_size, needed, head_numbers, tables_in, hall_in, put_tables, put_hall, Sound};
ghost use Rattle.hall.specs.Tables.{Shaped, with_counter};

use hall::header;
use hall::header::Head;
use memory::{numbers, spans};

// The header's numbers, all of them. The floor comes first: cut short, the memory must not tell a past that was swept.
pub fn write_head(m: &mut [u8], h: Head)
    requires { head_size ≤ length m.old }
    ensures { m.new ≡ sets m.old 0
        (head_numbers h.key_rooms h.version_rooms h.counter h.key_count h.version_count
        h.floor h.desk_count) }
{
    numbers::write64(m, hall::FLOOR_PLACE, h.floor);
    numbers::write32(m, hall::DESK_COUNT_PLACE, h.desk_count as u64);
    numbers::write32(m, hall::KEY_ROOMS_PLACE, h.key_rooms as u64);
    numbers::write32(m, hall::VERSION_ROOMS_PLACE, h.version_rooms as u64);
    numbers::write64(m, hall::COUNTER_PLACE, h.counter);
    numbers::write32(m, hall::KEY_COUNT_PLACE, h.key_count as u64);
    numbers::write32(m, hall::VERSION_COUNT_PLACE, h.version_count as u64);
}

// A hall of these sizes with nothing in it, over whatever the memory holds.
pub fn make_hall(m: &mut [u8], key_rooms: u64, version_rooms: u64, desks: u64)
    requires { (sizes_fit key_rooms version_rooms desks ≡ true)
        × (needed key_rooms version_rooms ≤ length m.old) }
    ensures { m.new ≡ put_hall m.old (new_hall key_rooms version_rooms desks) }
{
    spans::clear(m, 0, hall::needed_length(key_rooms, version_rooms));
    write_head(
        m,
        Head {
            key_rooms: key_rooms as usize,
            version_rooms: version_rooms as usize,
            counter: 0,
            key_count: 0,
            version_count: 0,
            floor: 0,
            desk_count: desks as usize,
        },
    );
}

// The counter of tables, whether or not they make a sound hall.
pub fn put_counter(m: &mut [u8], n: u64)
    requires { Shaped m.old }
    ensures { m.new ≡ put_tables m.old (with_counter n (tables_in m.old)) }
{
    numbers::write64(m, hall::COUNTER_PLACE, n);
}

// The counter of a sound hall.
pub fn set_counter(m: &mut [u8], n: u64)
    requires { Sound m.old }
    ensures { m.new ≡ put_hall m.old
        (with_entries (hall_in m.old) n (hall_in m.old).entries) }
{
    put_counter(m, n);
}

// The floor of a sound hall, raised to n where it is lower.
pub fn raise_floor(m: &mut [u8], n: u64)
    requires { Sound m.old }
    ensures { m.new ≡ put_hall m.old
        (with_floor (hall_in m.old) (max (hall_in m.old).floor n)) }
{
    if n <= header::floor(m) {
        return;
    }
    numbers::write64(m, hall::FLOOR_PLACE, n);
}
