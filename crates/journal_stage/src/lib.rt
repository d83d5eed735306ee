// The writes of a record that was found whole, staged at a desk.
#![tactic(auto)]

ghost use Rattle.std.specs.Prelude.{◌≡◌, ◌+◌, length};
ghost use Rattle.model.specs.Journal.{dump_write};
ghost use Rattle.desk.specs.Layout.{desks_in, put_desks};
ghost use Rattle.desk_writes.specs.Writes.{rewritten, ending};
ghost use Rattle.journal_stage.specs.Staging.{write_at, Stageable, writes_of, Staging};

use memory::{numbers, spans};

// The write at `at` goes behind those of desk d; where it ends.
fn stage_write(x: &[u8], at: usize, m: &mut [u8], d: usize) -> usize
    requires { Stageable x.now at m.old d }
    ensures { (m.new ≡ put_desks m.old
        (rewritten d (ending (write_at x.now at)) (desks_in m.old)))
        × (result ≡ at + length (dump_write (write_at x.now at))) }
{
    let n = numbers::read32(x, at) as usize;
    let key_at = at + model::COUNT_WIDTH;
    let tag_at = key_at + n;
    let key = spans::piece(x, key_at, n);
    if x[tag_at] == 0 {
        desk_writes::append_deletion(m, d, key);
        return tag_at + model::TAG_WIDTH;
    }
    let len = numbers::read32(x, tag_at + model::TAG_WIDTH) as usize;
    let value_at = tag_at + model::TAG_WIDTH + model::COUNT_WIDTH;
    desk_writes::append_value(m, d, key, spans::piece(x, value_at, len));
    value_at + len
}

// All writes of the body x, at a desk that has none.
pub fn stage_writes(x: &[u8], m: &mut [u8], d: usize)
    requires { Staging x.now m.old d }
    ensures { m.new ≡ put_desks m.old
        (rewritten d (λ ws. writes_of x.now) (desks_in m.old)) }
{
    let n = numbers::read32(x, journal_fields::COUNT_IN_BODY) as usize;
    let mut at = journal_fields::WRITES_IN_BODY;
    let mut i = 0;
    while i < n {
        at = stage_write(x, at, m, d);
        i += 1;
    }
}
