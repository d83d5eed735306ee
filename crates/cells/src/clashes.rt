// Clashes as records of an output: a number, then a key's cell. The one place where their width is multiplied.
ghost use Rattle.std.specs.Prelude.{◌≡◌, ◌+◌, ◌*◌, ◌/◌, ◌<◌, length};
ghost use Rattle.model.specs.Sizes.{number_width};
ghost use Rattle.cells.specs.Cells.{clash_width};

// Where record i begins, with its number.
pub fn place(out: &[u8], i: usize) -> usize
    requires { i < length out.now / clash_width }
    ensures { result ≡ clash_width * i }
{
    crate::CLASH_WIDTH * i
}

// Where its key's cell stands.
pub fn key_place(out: &[u8], i: usize) -> usize
    requires { i < length out.now / clash_width }
    ensures { result ≡ clash_width * i + number_width }
{
    place(out, i) + model::NUMBER_WIDTH
}
