// Where things stand in desk memory, and the bytes that writes take. The one place where a width is multiplied.
ghost use Rattle.std.specs.Prelude.{◌≡◌, ◌+◌, ◌*◌, ◌≤◌, ◌<◌};
ghost use Rattle.model.specs.Sizes.{max_writes};
ghost use Rattle.desk.specs.Layout.{write_width, write_count_place, writes_place, desk_place, write_place};
ghost use Rattle.desk.specs.Shape.{payload_place};

// The bytes of n writes.
pub fn writes_length(n: usize) -> usize
    requires { n ≤ max_writes }
    ensures { result ≡ write_width * n }
{
    crate::WRITE_WIDTH * n
}

// Where desk d begins, of any number that the count's byte can say.
pub fn desk_place(d: usize) -> usize
    requires { d < 256 }
    ensures { result ≡ desk_place d }
{
    crate::DESKS_PLACE + crate::DESK_WIDTH * d
}

// Where its start stands.
pub fn start_place(d: usize) -> usize
    requires { d < 256 }
    ensures { result ≡ desk_place d }
{
    desk_place(d) + crate::START_PLACE
}

// Where the count of its writes stands.
pub fn write_count_place(d: usize) -> usize
    requires { d < 256 }
    ensures { result ≡ desk_place d + write_count_place }
{
    desk_place(d) + crate::WRITE_COUNT_PLACE
}

// Where its writes begin.
pub fn writes_place(d: usize) -> usize
    requires { d < 256 }
    ensures { result ≡ desk_place d + writes_place }
{
    desk_place(d) + crate::WRITES_PLACE
}

// Where its write i begins.
pub fn write_place(d: usize, i: usize) -> usize
    requires { (d < 256) × (i ≤ max_writes) }
    ensures { result ≡ write_place d i }
{
    writes_place(d) + writes_length(i)
}

// Where its payload stands.
pub fn payload_place(d: usize, i: usize) -> usize
    requires { (d < 256) × (i ≤ max_writes) }
    ensures { result ≡ payload_place d i }
{
    write_place(d, i) + crate::PAYLOAD_PLACE
}
