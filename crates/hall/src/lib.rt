// Hall memory.
#![tactic(auto)]

pub mod header;
pub mod keys;
pub mod places;
pub mod versions;

ghost use Rattle.std.specs.Prelude.{◌≡◌, ◌≤◌};
ghost use Rattle.model.specs.Sizes.{max_key_rooms, max_version_rooms};
ghost use Rattle.hall.specs.Layout.{needed};

// The widths and places of specs/Layout.antt, for code. In the header:
pub const KEY_ROOMS_PLACE: usize = 0;

pub const VERSION_ROOMS_PLACE: usize = KEY_ROOMS_PLACE + model::COUNT_WIDTH;

pub const COUNTER_PLACE: usize = VERSION_ROOMS_PLACE + model::COUNT_WIDTH;

pub const KEY_COUNT_PLACE: usize = COUNTER_PLACE + model::NUMBER_WIDTH;

pub const VERSION_COUNT_PLACE: usize = KEY_COUNT_PLACE + model::COUNT_WIDTH;

pub const FLOOR_PLACE: usize = VERSION_COUNT_PLACE + model::COUNT_WIDTH;

pub const DESK_COUNT_PLACE: usize = FLOOR_PLACE + model::NUMBER_WIDTH;

pub const SPARE_PLACE: usize = DESK_COUNT_PLACE + model::COUNT_WIDTH;

pub const HEAD_SIZE: usize = 64;

// In a key row: after the key.
pub const END_PLACE: usize = cells::KEY_WIDTH;

pub const ROW_WIDTH: usize = END_PLACE + model::COUNT_WIDTH;

// In a version row: after the number.
pub const PAYLOAD_PLACE: usize = model::NUMBER_WIDTH;

pub const VERSION_WIDTH: usize = PAYLOAD_PLACE + cells::PAYLOAD_WIDTH;

// The length that hall memory of the largest sizes needs.
pub const LARGEST: usize = HEAD_SIZE
    + ROW_WIDTH * model::MAX_KEY_ROOMS as usize
    + VERSION_WIDTH * model::MAX_VERSION_ROOMS as usize;

// The length that hall memory of these sizes needs.
pub fn needed_length(keys: u64, versions: u64) -> usize
    requires { (keys ≤ max_key_rooms) × (versions ≤ max_version_rooms) }
    ensures { result ≡ needed keys versions }
{
    places::version_place(keys as usize, versions as usize)
}
