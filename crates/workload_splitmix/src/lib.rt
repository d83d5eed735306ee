// The generator of the workload: SplitMix64.
#![tactic(auto)]

ghost use Rattle.std.specs.Prelude.{◌≡◌};
ghost use Rattle.workload_splitmix.specs.SplitMix.{drawn};

// A number drawn, and the state to draw the next one from.
#[derive(Clone, Copy)]
pub struct Drawn {
    pub state: u64,
    pub out: u64,
}

pub fn draw(state: u64) -> Drawn
    ensures { result ≡ drawn state }
{
    let s = std::num::wrapping_add_u64(state, 0x9E37_79B9_7F4A_7C15);
    let y = arithmetic::wrapping_mul(s ^ (s >> 30), 0xBF58_476D_1CE4_E5B9);
    let z = arithmetic::wrapping_mul(y ^ (y >> 27), 0x94D0_49BB_1331_11EB);
    Drawn {
        state: s,
        out: z ^ (z >> 31),
    }
}
