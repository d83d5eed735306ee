// Numbers in a memory, the lowest byte first.
ghost use Rattle.std.specs.Prelude.{◌≡◌, ◌+◌, ◌≤◌, length};
ghost use Rattle.std.proofs.lemmas.List.Edits.{sets};
ghost use Rattle.model.specs.Bytes.{part, num, bytes};

pub fn read16(m: &[u8], at: usize) -> u16
    requires { at + 2 ≤ length m.now }
    ensures { result ≡ num (part m.now at 2) }
{
    m[at] as u16 + m[at + 1] as u16 * 256
}

pub fn read32(m: &[u8], at: usize) -> u32
    requires { at + 4 ≤ length m.now }
    ensures { result ≡ num (part m.now at 4) }
{
    read16(m, at) as u32 + read16(m, at + 2) as u32 * 65536
}

pub fn read64(m: &[u8], at: usize) -> u64
    requires { at + 8 ≤ length m.now }
    ensures { result ≡ num (part m.now at 8) }
{
    read32(m, at) as u64 + read32(m, at + 4) as u64 * 4294967296
}

// Writes the two lowest bytes of v.
pub fn write16(m: &mut [u8], at: usize, v: u64)
    requires { at + 2 ≤ length m.old }
    ensures { m.new ≡ sets m.old at (bytes 2 v) }
{
    m[at] = (v % 256) as u8;
    m[at + 1] = (v / 256 % 256) as u8;
}

// Writes the four lowest bytes of v.
pub fn write32(m: &mut [u8], at: usize, v: u64)
    requires { at + 4 ≤ length m.old }
    ensures { m.new ≡ sets m.old at (bytes 4 v) }
{
    write16(m, at, v);
    write16(m, at + 2, v / 65536);
}

pub fn write64(m: &mut [u8], at: usize, v: u64)
    requires { at + 8 ≤ length m.old }
    ensures { m.new ≡ sets m.old at (bytes 8 v) }
{
    write32(m, at, v);
    write32(m, at + 4, v / 4294967296);
}
