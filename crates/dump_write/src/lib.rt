// A key and a payload written over the front of an output, as the dump has them.
#![tactic(auto)]

ghost use Rattle.std.specs.Prelude.{◌≤◌, length};
ghost use Rattle.model.specs.Dump.{dump_payload};
ghost use Rattle.cells.specs.Cells.{payload_from};
ghost use Rattle.dump_write.specs.Over.{Wrote};
ghost use Rattle.dump_write.specs.Fields.{key_fields, CellOf};

use memory::{numbers, spans};

// Its length, then the key.
pub fn write_key(key: &[u8], out: &mut [u8]) -> usize
    requires { length (key_fields key.now) ≤ length out.old }
    ensures { Wrote (key_fields key.now) out.old out.new result }
{
    let n = key.len();
    numbers::write32(out, 0, n as u64);
    spans::copy_in(key, out, model::COUNT_WIDTH);
    model::COUNT_WIDTH + n
}

// The payload of a cell is the front of its bytes.
pub fn write_payload(cell: &[u8], out: &mut [u8]) -> usize
    requires { CellOf cell.now × (length (dump_payload (payload_from cell.now)) ≤ length out.old) }
    ensures { Wrote (dump_payload (payload_from cell.now)) out.old out.new result }
{
    let n = cells::record_length(cell, 0);
    spans::copy_in(spans::piece(cell, 0, n), out, 0);
    n
}
