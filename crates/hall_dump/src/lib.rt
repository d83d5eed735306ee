// The dump of the hall in a hall memory.
#![tactic(auto)]

ghost use Rattle.std.specs.Prelude.{◌≡◌, ◌≤◌, ◌<◌, length};
ghost use Rattle.model.specs.Dump.{dump_version, dump_entry, dump_hall};
ghost use Rattle.hall.specs.Layout.{keys_in, versions_in, hall_in, Sound};
ghost use Rattle.hall.specs.Tables.{Shaped, version_at};
ghost use Rattle.dump_write.specs.Over.{Wrote};
ghost use Rattle.hall_dump.specs.Records.{entry_at, dump_head, key_head, VersionWritable, KeyWritable};

use hall::{header, keys, versions};
use memory::{numbers, spans};

// Where the key count stands, after the magic and the next number.
const COUNT_PLACE: usize = model::MAGIC_WIDTH + model::NUMBER_WIDTH;

// Bytes before the first key's record.
const HEAD_LENGTH: usize = COUNT_PLACE + model::COUNT_WIDTH;

// Bytes of a key's record beside the key and the versions.
const KEY_FIELDS: usize = model::COUNT_WIDTH + model::COUNT_WIDTH;

// The length of version j's record.
fn version_length(m: &[u8], j: usize) -> usize
    requires { (Shaped m.now) × (j < length (versions_in m.now)) }
    ensures { result ≡ length (dump_version (version_at j (versions_in m.now))) }
{
    model::NUMBER_WIDTH + cells::record_length(m, versions::payload_place(m, j))
}

// The length of key row i's record.
fn key_length(m: &[u8], i: usize) -> usize
    requires { (Sound m.now) × (i < length (keys_in m.now)) }
    ensures { result ≡ length (dump_entry (entry_at i (hall_in m.now).entries)) }
{
    let n = header::key_count(m);
    let end = n + keys::end_at(m, i);
    let mut j = n + keys::end_before(m, i);
    let mut sum = KEY_FIELDS + keys::key_at(m, i).len();
    while j < end {
        sum += version_length(m, j);
        j += 1;
    }
    sum + version_length(m, i)
}

pub fn dump_length(m: &[u8]) -> usize
    requires { Sound m.now }
    ensures { result ≡ length (dump_hall (hall_in m.now)) }
{
    let n = header::key_count(m);
    let mut sum = HEAD_LENGTH;
    let mut i = 0;
    while i < n {
        sum += key_length(m, i);
        i += 1;
    }
    sum
}

// Version j's record is the front of its row.
fn write_version_record(m: &[u8], out: &mut [u8], j: usize) -> usize
    requires { VersionWritable m.now j out.old }
    ensures { Wrote (dump_version (version_at j (versions_in m.now))) out.old
        out.new result }
{
    let n = version_length(m, j);
    spans::copy_in(spans::piece(m, versions::place(m, j), n), out, 0);
    n
}

fn write_key_fields(key: &[u8], n: usize, out: &mut [u8]) -> usize
    requires { length (key_head key.now n) ≤ length out.old }
    ensures { Wrote (key_head key.now n) out.old out.new result }
{
    let at = dump_write::write_key(key, out);
    numbers::write32(out, at, n as u64);
    at + model::COUNT_WIDTH
}

fn write_key_record(m: &[u8], out: &mut [u8], i: usize) -> usize
    requires { KeyWritable m.now i out.old }
    ensures { Wrote (dump_entry (entry_at i (hall_in m.now).entries)) out.old
        out.new result }
{
    let n = header::key_count(m);
    let end = n + keys::end_at(m, i);
    let mut j = n + keys::end_before(m, i);
    let mut at = write_key_fields(keys::key_at(m, i), end - j + 1, out);
    while j < end {
        at += write_version_record(m, &mut out[at..], j);
        j += 1;
    }
    at += write_version_record(m, &mut out[at..], i);
    at
}

fn write_head(m: &[u8], out: &mut [u8]) -> usize
    requires { (Sound m.now) × (length (dump_head (hall_in m.now)) ≤ length out.old) }
    ensures { Wrote (dump_head (hall_in m.now)) out.old out.new result }
{
    spans::copy_in(b"DSEMVCC1", out, 0);
    numbers::write64(out, model::MAGIC_WIDTH, header::counter(m) + 1);
    numbers::write32(out, COUNT_PLACE, header::key_count(m) as u64);
    HEAD_LENGTH
}

// Head first, then each key's record into the tail that is not written yet.
pub fn dump_to(m: &[u8], out: &mut [u8]) -> usize
    requires { (Sound m.now) × (length (dump_hall (hall_in m.now)) ≤ length out.old) }
    ensures { Wrote (dump_hall (hall_in m.now)) out.old out.new result }
{
    let n = header::key_count(m);
    let mut at = write_head(m, out);
    let mut i = 0;
    while i < n {
        at += write_key_record(m, &mut out[at..], i);
        i += 1;
    }
    at
}
