// The record of a desk's writes in the journal (docs/RULES.md, 11.1).
#![tactic(auto)]

ghost use Rattle.std.specs.Prelude.{◌≡◌, ◌≤◌, ◌<◌, length};
ghost use Rattle.model.specs.Journal.{dump_write, dump_commit};
ghost use Rattle.desk.specs.Layout.{desks_in};
ghost use Rattle.desk.specs.Shape.{Shaped, desk_in, own_writes};
ghost use Rattle.desk_writes.specs.Writes.{write_in, Written};
ghost use Rattle.dump_write.specs.Over.{Wrote};
ghost use Rattle.journal_fields.specs.Places.{head_width};
ghost use Rattle.journal_write.specs.Records.{record_head, record_length, commit_in, Recordable};

use memory::numbers;

// The length of write i of desk d.
fn write_length(m: &[u8], d: usize, i: usize) -> usize
    requires { Written m.now d i }
    ensures { result ≡ length (dump_write (write_in m.now d i)) }
{
    let k = desk_writes::key_at(m, d, i).len();
    model::COUNT_WIDTH + k + cells::record_length(desk_writes::payload_at(m, d, i), 0)
}

// The length of the record of desk d's writes.
pub fn record_length(m: &[u8], d: usize) -> usize
    requires { Shaped m.now × (d < length (desks_in m.now)) }
    ensures { result ≡ record_length (own_writes (desk_in m.now d)) }
{
    let n = desk_writes::write_count(m, d);
    let mut sum = journal_fields::WRITES_PLACE;
    let mut i = 0;
    while i < n {
        sum += write_length(m, d, i);
        i += 1;
    }
    sum
}

// Mark, body length, number and count.
fn write_head(out: &mut [u8], len: usize, number: u64, count: usize) -> usize
    requires { head_width ≤ length out.old }
    ensures { Wrote (record_head len number count) out.old out.new result }
{
    numbers::write16(out, 0, model::MARK);
    numbers::write32(out, journal_fields::LENGTH_PLACE, len as u64);
    numbers::write64(out, journal_fields::NUMBER_PLACE, number);
    numbers::write32(out, journal_fields::COUNT_PLACE, count as u64);
    journal_fields::WRITES_PLACE
}

fn write_write(m: &[u8], out: &mut [u8], d: usize, i: usize) -> usize
    requires { Written m.now d i × (length (dump_write (write_in m.now d i)) ≤ length out.old) }
    ensures { Wrote (dump_write (write_in m.now d i)) out.old out.new result }
{
    let at = dump_write::write_key(desk_writes::key_at(m, d, i), out);
    at + dump_write::write_payload(desk_writes::payload_at(m, d, i), &mut out[at..])
}

// Head first, then each write into the tail that is not written yet.
pub fn write_record(m: &[u8], out: &mut [u8], d: usize, number: u64, len: usize) -> usize
    requires { Recordable m.now d len out.old }
    ensures { Wrote (dump_commit (commit_in m.now d number)) out.old
        out.new result }
{
    let n = desk_writes::write_count(m, d);
    let mut at = write_head(out, len - journal_fields::BODY_PLACE, number, n);
    let mut i = 0;
    while i < n {
        at += write_write(m, &mut out[at..], d, i);
        i += 1;
    }
    at
}
