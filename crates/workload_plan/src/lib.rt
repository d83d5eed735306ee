// What a workload is told: seven numbers, and how they stand in a text.
#![tactic(auto)]

pub mod choices;
pub mod lines;

ghost use Rattle.std.specs.Prelude.{◌≡◌};
ghost use Rattle.workload_plan.specs.Input.{fits, plan_in};

const KEY_LIMIT: u64 = 1024;

// Each worker has a desk.
pub const WORKER_LIMIT: usize = model::MAX_DESKS as usize;

#[derive(Clone, Copy)]
pub struct Plan {
    pub seed: u64,
    pub operations: u64,
    // how many different keys are drawn
    pub keys: u64,
    pub writers: u64,
    pub readers: u64,
    pub key_rooms: u64,
    pub version_rooms: u64,
}

// A plan, or a text that says none.
#[derive(Clone, Copy)]
pub enum Input {
    Plan(Plan),
    Other,
}

// Are keys and workers in range? Rooms are tried by making the store.
pub fn is_fit(p: Plan) -> bool
    ensures { result ≡ fits p }
{
    if p.keys < 1 {
        return false;
    }
    if KEY_LIMIT < p.keys {
        return false;
    }
    let limit = WORKER_LIMIT as u64;
    if limit < p.writers {
        return false;
    }
    if limit < p.readers {
        return false;
    }
    let workers = p.writers + p.readers;
    if workers < 1 {
        return false;
    }
    workers <= limit
}

// The plan that a text of seven lines says.
pub fn plan_in(text: &[u8]) -> Input
    ensures { result ≡ plan_in text.now }
{
    let seven = lines::seven_in(text);
    if !seven.all {
        return Input::Other;
    }
    let n = seven.numbers;
    let p = Plan {
        seed: n[0],
        operations: n[1],
        keys: n[2],
        writers: n[3],
        readers: n[4],
        key_rooms: n[5],
        version_rooms: n[6],
    };
    if !is_fit(p) {
        return Input::Other;
    }
    Input::Plan(p)
}
