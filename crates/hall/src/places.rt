// Where things stand in hall memory, and the bytes that rows take. The one place where a width is multiplied.
ghost use Rattle.std.specs.Prelude.{◌≡◌, ◌+◌, ◌*◌, ◌^◌, ◌≤◌};
ghost use Rattle.model.specs.Sizes.{max_key_rooms, max_version_rooms, count_width};
ghost use Rattle.hall.specs.Layout.{row_width, version_width, row_place, end_place, version_base, version_place, payload_place};

// The bytes of n key rows.
pub fn rows_length(n: usize) -> usize
    requires { n ≤ max_key_rooms }
    ensures { result ≡ row_width * n }
{
    crate::ROW_WIDTH * n
}

// The bytes of n version rows.
pub fn versions_length(n: usize) -> usize
    requires { n ≤ 256 ^ count_width + max_version_rooms }
    ensures { result ≡ version_width * n }
{
    crate::VERSION_WIDTH * n
}

// Where key row i begins.
pub fn row_place(i: usize) -> usize
    requires { i ≤ max_key_rooms }
    ensures { result ≡ row_place i }
{
    crate::HEAD_SIZE + rows_length(i)
}

// Where its end stands.
pub fn end_place(i: usize) -> usize
    requires { i ≤ max_key_rooms }
    ensures { result ≡ end_place i }
{
    row_place(i) + crate::END_PLACE
}

// Where the version rows begin: after the last key room.
pub fn version_base(key_rooms: usize) -> usize
    requires { key_rooms ≤ max_key_rooms }
    ensures { result ≡ version_base key_rooms }
{
    row_place(key_rooms)
}

// Where version row j begins.
pub fn version_place(key_rooms: usize, j: usize) -> usize
    requires { (key_rooms ≤ max_key_rooms) × (j ≤ 256 ^ count_width + max_version_rooms) }
    ensures { result ≡ version_place key_rooms j }
{
    version_base(key_rooms) + versions_length(j)
}

// Where its payload begins.
pub fn payload_place(key_rooms: usize, j: usize) -> usize
    requires { (key_rooms ≤ max_key_rooms) × (j ≤ 256 ^ count_width + max_version_rooms) }
    ensures { result ≡ payload_place key_rooms j }
{
    version_place(key_rooms, j) + crate::PAYLOAD_PLACE
}
