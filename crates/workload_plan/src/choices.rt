// What an operation draws: its worker, its key and its payload.
ghost use Rattle.std.specs.Prelude.{◌≡◌, true};
ghost use Rattle.workload_plan.specs.Input.{fits};
ghost use Rattle.workload_plan.specs.Choices.{chosen, digit, key_of, payload_of};

use crate::Plan;

// Three draws of a workload, and the generator's state after them.
#[derive(Clone, Copy)]
pub struct Choice {
    pub worker: u64,
    pub key: u64,
    pub payload: u64,
    pub state: u64,
}

pub fn choose(p: Plan, state: u64) -> Choice
    requires { fits p ≡ true }
    ensures { result ≡ chosen p state }
{
    let first = workload_splitmix::draw(state);
    let second = workload_splitmix::draw(first.state);
    let third = workload_splitmix::draw(second.state);
    Choice {
        worker: first.out % (p.writers + p.readers),
        key: second.out % p.keys,
        payload: third.out,
        state: third.state,
    }
}

// The sign of the last decimal digit.
fn last_digit(n: u64) -> u8
    ensures { result ≡ digit n }
{
    b'0' + (n % 10) as u8
}

// The key with that number: K and four decimal digits.
pub fn key_of(n: u64) -> [u8; 5]
    ensures { result ≡ key_of n }
{
    [
        b'K',
        last_digit(n / 1000),
        last_digit(n / 100),
        last_digit(n / 10),
        last_digit(n),
    ]
}

// The low 32 bits, the highest byte first.
pub fn payload_of(n: u64) -> [u8; 4]
    ensures { result ≡ payload_of n }
{
    [
        (n / 0x100_0000 % 256) as u8,
        (n / 0x1_0000 % 256) as u8,
        (n / 0x100 % 256) as u8,
        (n % 256) as u8,
    ]
}
