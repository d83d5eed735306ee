// What stands in the way of a commit.
#![tactic(auto)]

ghost use Rattle.std.specs.Prelude.{◌≡◌, ◌<◌, length};
ghost use Rattle.model.specs.State.{written_keys};
ghost use Rattle.model.specs.Calls as calls;
ghost use Rattle.hall.specs.Layout.{keys_in, hall_in, Sound};
ghost use Rattle.hall.specs.Tables.{row_keys};
ghost use Rattle.hall_sought.specs.Sought.{writes_in, Ready, Sought};
ghost use Rattle.hall_conflict.specs.Clashes.{clash_at, put_clash, Gathered, down_from, Deep};

use cells::clashes;
use cells::rows::Place;
use hall::{header, keys, versions};
use memory::numbers;
use model::{Commit, Start};

// The row of version k of a key, counted down: the newest in the key's own row, then the older ones from the last.
fn version_down(hall: &[u8], row: usize, k: usize) -> usize
    requires { Deep hall.now row k }
    ensures { result ≡ down_from row k (keys_in hall.now) }
{
    if k == 0 {
        return row;
    }
    header::key_count(hall) + keys::end_at(hall, row) - k
}

// Writes the key in that row, with its newest number, as record i of the output, if that has room for it.
fn write_clash(hall: &[u8], row: usize, out: &mut [u8], i: usize)
    requires { Sound hall.now × (row < length (keys_in hall.now)) }
    ensures { out.new ≡ put_clash out.old i (clash_at hall.now row) }
{
    if i < out.len() / cells::CLASH_WIDTH {
        let at = clashes::place(out, i);
        let key_at = clashes::key_place(out, i);
        numbers::write64(out, at, versions::number_at(hall, row));
        cells::write_key(out, key_at, keys::key_at(hall, row));
    }
}

// The keys of desk d's writes that clash, each with its newest number: how many, and into the output those that it has
// room for. The writes' places are in `at`.
pub fn list_clashes(
    hall: &[u8],
    desk: &[u8],
    d: usize,
    start: Start,
    at: &[usize],
    out: &mut [u8],
) -> usize
    requires { Ready hall.now desk.now d
        × Sought (row_keys (keys_in hall.now)) (writes_in desk.now d) at.now }
    ensures { Gathered out.old out.new
        (calls.clashes start.0 (written_keys (writes_in desk.now d)) (hall_in hall.now)) result }
{
    let n = desk_writes::write_count(desk, d);
    let mut count = 0;
    let mut i = 0;
    'writes: while i < n {
        let Place::At(row) = hall_sought::place_at(at, i) else {
            i += 1;
            continue 'writes;
        };
        let older = keys::end_at(hall, row) - keys::end_before(hall, row);
        let mut k = 0;
        'versions: while k <= older {
            let number = versions::number_at(hall, version_down(hall, row, k));
            if compare::clashes(start, Commit(number)) {
                write_clash(hall, row, out, count);
                count += 1;
                i += 1;
                continue 'writes;
            }
            // all further ones are older
            if compare::sees(start, Commit(number)) {
                i += 1;
                continue 'writes;
            }
            k += 1;
        }
        i += 1;
    }
    count
}
