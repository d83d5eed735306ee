// The two memories of a store, tested together.
ghost use Rattle.std.specs.Prelude.{◌≡◌};
ghost use Rattle.bridge.specs.Store.{are_sound};

pub fn are_sound(hall: &[u8], desk: &[u8]) -> bool
    ensures { result ≡ are_sound hall.now desk.now }
{
    if !hall_sound::is_sound(hall) {
        return false;
    }
    desk_sound::is_sound(hall, desk)
}
