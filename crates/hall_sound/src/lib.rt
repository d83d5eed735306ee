// Is a memory a sound hall memory? First its bytes' shape, then, with the readers, the order of its rows.
#![tactic(auto)]

mod rows;

ghost use Rattle.std.specs.Prelude.{◌≡◌};
ghost use Rattle.hall.specs.Layout.{is_sound};

// Looks at nothing past the length that the memory's sizes need.
pub fn is_sound(m: &[u8]) -> bool
    ensures { result ≡ is_sound m.now }
{
    if !hall_shape::is_shaped(m) {
        return false;
    }
    rows::are_ordered(m)
}
