// Writes the workload generator's first five draws from the published seed.
#![tactic(auto)]

// Standard output.
const STDOUT: i32 = 1;

fn main() {
    let mut state: u64 = 1234567;
    for _ in 0u64..5 {
        let d = workload_splitmix::draw(state);
        state = d.state;
        io::print_decimal(STDOUT, d.out);
        io::write_all(STDOUT, b"\n");
    }
}
