// The numbers of the header.
ghost use Rattle.std.specs.Prelude.{◌≡◌, ◌≤◌, length};
ghost use Rattle.hall.specs.Layout.{head_size, key_rooms_in, version_rooms_in, counter_in, floor_in, desk_count_in, keys_in, versions_in};
ghost use Rattle.hall.specs.Head.{HeadIn};
ghost use Rattle.hall.specs.Tables.{Shaped};

use memory::numbers;

#[derive(Drop)]
pub struct Head {
    pub key_rooms: usize,
    pub version_rooms: usize,
    pub counter: u64,
    pub key_count: usize,
    pub version_count: usize,
    pub floor: u64,
    pub desk_count: usize,
}

// All of them, in memory of which no more is known than that it is as long as a header.
pub fn read(m: &[u8]) -> Head
    requires { head_size ≤ length m.now }
    ensures { HeadIn m.now result }
{
    Head {
        key_rooms: numbers::read32(m, crate::KEY_ROOMS_PLACE) as usize,
        version_rooms: numbers::read32(m, crate::VERSION_ROOMS_PLACE) as usize,
        counter: numbers::read64(m, crate::COUNTER_PLACE),
        key_count: numbers::read32(m, crate::KEY_COUNT_PLACE) as usize,
        version_count: numbers::read32(m, crate::VERSION_COUNT_PLACE) as usize,
        floor: numbers::read64(m, crate::FLOOR_PLACE),
        desk_count: numbers::read32(m, crate::DESK_COUNT_PLACE) as usize,
    }
}

pub fn key_rooms(m: &[u8]) -> usize
    requires { Shaped m.now }
    ensures { result ≡ key_rooms_in m.now }
{
    numbers::read32(m, crate::KEY_ROOMS_PLACE) as usize
}

pub fn version_rooms(m: &[u8]) -> usize
    requires { Shaped m.now }
    ensures { result ≡ version_rooms_in m.now }
{
    numbers::read32(m, crate::VERSION_ROOMS_PLACE) as usize
}

pub fn counter(m: &[u8]) -> u64
    requires { Shaped m.now }
    ensures { result ≡ counter_in m.now }
{
    numbers::read64(m, crate::COUNTER_PLACE)
}

pub fn key_count(m: &[u8]) -> usize
    requires { Shaped m.now }
    ensures { result ≡ length (keys_in m.now) }
{
    numbers::read32(m, crate::KEY_COUNT_PLACE) as usize
}

pub fn version_count(m: &[u8]) -> usize
    requires { Shaped m.now }
    ensures { result ≡ length (versions_in m.now) }
{
    numbers::read32(m, crate::VERSION_COUNT_PLACE) as usize
}

pub fn floor(m: &[u8]) -> u64
    requires { Shaped m.now }
    ensures { result ≡ floor_in m.now }
{
    numbers::read64(m, crate::FLOOR_PLACE)
}

pub fn desk_count(m: &[u8]) -> usize
    requires { Shaped m.now }
    ensures { result ≡ desk_count_in m.now }
{
    numbers::read32(m, crate::DESK_COUNT_PLACE) as usize
}
