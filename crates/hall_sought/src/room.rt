// The room that a hall has for the writes of a desk.
ghost use Rattle.std.specs.Prelude.{◌≡◌};
ghost use Rattle.model.specs.Load.{fault};
ghost use Rattle.model.specs.Calls.{new_keys, rooms};
ghost use Rattle.hall.specs.Layout.{hall_in};
ghost use Rattle.hall_sought.specs.Sought.{writes_in, Ready};

use hall::header;

pub const NO_KEY_ROOM: u8 = 10;

pub const NO_VERSION_ROOM: u8 = 11;

// The refusal of desk d's writes, of which `new` are of new keys, for lack of room; 0 if there is room for them.
pub fn lack(hall: &[u8], desk: &[u8], d: usize, new: usize) -> u8
    requires { Ready hall.now desk.now d
        × (new ≡ new_keys (writes_in desk.now d) (hall_in hall.now).entries) }
    ensures { result ≡ fault (rooms (hall_in hall.now) (writes_in desk.now d)) }
{
    if header::key_rooms(hall) - header::key_count(hall) < new {
        return NO_KEY_ROOM;
    }
    if header::version_rooms(hall) - header::version_count(hall)
        < desk_writes::write_count(desk, d)
    {
        return NO_VERSION_ROOM;
    }
    0
}
