// Runs the seeded workload that standard input says in seven decimal lines,
// and writes the dump of the store that it leaves.
#![tactic(auto)]

use answers::Dumped;
use workload_run::Worked;

// Standard input.
const STDIN: i32 = 0;

// Standard output.
const STDOUT: i32 = 1;

fn say_other() {
    io::write_all(
        STDOUT,
        b"not a workload that this program runs: it takes seven numbers, and rooms of at most 64 KiB\n",
    );
}

fn answer(text: &[u8], hall: &mut [u8], desk: &mut [u8], out: &mut [u8]) {
    match workload_run::workload(text, hall, desk, out) {
        Worked::Ran(r) => match r {
            Dumped::Bytes(n) => {
                io::write_all(STDOUT, &out[..n]);
            }
            Dumped::Refused(_) => say_other(),
        },
        Worked::Other => say_other(),
    }
}

// A text that fills its buffer may have been cut, and is other input.
fn main() {
    let mut text = io::large_buffer();
    let n = io::read_full(STDIN, &mut text);
    if n == 65536 {
        say_other();
        return;
    }
    let mut hall = io::large_buffer();
    let mut desk = desk::largest();
    let mut out = io::large_buffer();
    answer(&text[..n], &mut hall, &mut desk, &mut out);
}
