// Desk memory.
#![tactic(auto)]

pub mod desks;
pub mod places;
pub mod starts;

ghost use Rattle.std.specs.Prelude.{◌≡◌, ◌≤◌, length};
ghost use Rattle.model.specs.Sizes.{max_desks};
ghost use Rattle.desk.specs.Layout.{needed};

// The widths and places of specs/Layout.antt, for code. In a write:
pub const PAYLOAD_PLACE: usize = cells::KEY_WIDTH;

pub const WRITE_WIDTH: usize = PAYLOAD_PLACE + cells::PAYLOAD_WIDTH;

// In a desk:
pub const START_PLACE: usize = 0;

pub const WRITE_COUNT_PLACE: usize = START_PLACE + model::NUMBER_WIDTH;

pub const WRITES_PLACE: usize = WRITE_COUNT_PLACE + 1;

pub const DESK_WIDTH: usize = WRITES_PLACE + WRITE_WIDTH * model::MAX_WRITES;

// Before the desks:
pub const OCCUPIED_PLACE: usize = 0;

pub const DESK_COUNT_PLACE: usize = OCCUPIED_PLACE + model::NUMBER_WIDTH;

pub const DESKS_PLACE: usize = DESK_COUNT_PLACE + 1;

// The length that the most desks need.
pub const LARGEST: usize = DESKS_PLACE + DESK_WIDTH * model::MAX_DESKS as usize;

// Memory for the most desks.
pub fn largest() -> [u8; LARGEST]
    ensures { needed max_desks ≡ length result }
{
    [0; LARGEST]
}

// The length that so many desks need.
pub fn needed_length(desks: u64) -> usize
    requires { desks ≤ max_desks }
    ensures { result ≡ needed desks }
{
    places::desk_place(desks as usize)
}
