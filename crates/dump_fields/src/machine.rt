// A step for each field of a dump.
ghost use Rattle.std.specs.Prelude.{◌≡◌, [], ◌∷◌, ◌-◌};
ghost use Rattle.dump_fields.specs.Machine.{said, width_of, is_key, is_end, field_tests, judged, between, known_after, phase_after, step_of, begun};

use memory::{order, spans};

// The field that comes next.
#[derive(Clone, Copy, Debug, PartialEq, Eq)]
pub enum Phase {
    Magic,
    Next,
    Count,
    KeyLength,
    Key(u64),
    VersionCount,
    Number,
    Tag,
    ValueLength,
    Value(u64),
    End,
}

impl Phase {
    // How many bytes the field has.
    pub fn width(self) -> usize
        ensures { result ≡ width_of self }
    {
        match self {
            Phase::Magic => model::MAGIC_WIDTH,
            Phase::Next | Phase::Number => model::NUMBER_WIDTH,
            Phase::Count | Phase::KeyLength | Phase::VersionCount | Phase::ValueLength =>
                model::COUNT_WIDTH,
            // no field is without bytes
            Phase::Key(n) | Phase::Value(n) => n.max(1) as usize,
            Phase::Tag => model::TAG_WIDTH,
            // after the end, one byte is one too many
            Phase::End => 1,
        }
    }

    pub fn is_key(self) -> bool
        ensures { result ≡ is_key self }
    {
        matches!(self, Phase::Key(_))
    }

    pub fn is_end(self) -> bool
        ensures { result ≡ is_end self }
    {
        matches!(self, Phase::End)
    }
}

// What is known between two fields.
#[derive(Clone, Copy, Debug, PartialEq, Eq)]
pub struct Loader {
    // the next number
    pub next: u64,
    // keys to come; at first the key rooms
    pub keys: u64,
    // version rooms left
    pub rooms: u64,
    // versions of this key to come
    pub versions: u64,
    // the last number of this key
    pub last: u64,
}

impl Loader {
    pub fn new(key_rooms: u64, version_rooms: u64) -> Loader
        ensures { result ≡ begun key_rooms version_rooms }
    {
        Loader {
            next: 0,
            keys: key_rooms,
            rooms: version_rooms,
            versions: 0,
            last: 0,
        }
    }
}

// Why a dump is refused.
#[derive(Clone, Copy, Debug, PartialEq, Eq)]
pub enum Fault {
    CutShort,
    Malformed,
    TooBig,
}

const MAGIC: &[u8] = b"DSEMVCC1";

// The number that a field of up to eight bytes says.
pub fn number(field: &[u8]) -> u64
    ensures { result ≡ said field.now }
{
    if model::NUMBER_WIDTH < field.len() {
        return 0;
    }
    let mut n = 0;
    for b in field.iter().rev() {
        n = n * 256 + u64::from(*b);
    }
    n
}

// A field is refused where the test holds.
fn refuse_if(holds: bool, f: Fault) -> Result<(), Fault>
    ensures { result ≡ judged ((holds, f) ∷ []) }
{
    if holds { Err(f) } else { Ok(()) }
}

// What a field that says n may say.
fn judge(p: Phase, s: Loader, n: u64, last: &[u8], field: &[u8]) -> Result<(), Fault>
    ensures { result ≡ judged (field_tests p s n last.now field.now) }
{
    match p {
        Phase::Magic => refuse_if(field != MAGIC, Fault::Malformed),
        Phase::Next => refuse_if(n < 1, Fault::Malformed),
        Phase::Count => refuse_if(s.keys < n, Fault::TooBig),
        Phase::KeyLength => {
            refuse_if(n < 1, Fault::Malformed)?;
            refuse_if((model::MAX_KEY as u64) < n, Fault::Malformed)
        }
        Phase::Key(_) => {
            refuse_if(!spans::are_printable(field), Fault::Malformed)?;
            refuse_if(!order::less(last, field), Fault::Malformed)
        }
        Phase::VersionCount => {
            refuse_if(n < 1, Fault::Malformed)?;
            refuse_if(s.rooms < n, Fault::TooBig)
        }
        Phase::Number => {
            refuse_if(n <= s.last, Fault::Malformed)?;
            refuse_if(s.next <= n, Fault::Malformed)
        }
        Phase::Tag => refuse_if(1 < n, Fault::Malformed),
        Phase::ValueLength => refuse_if((model::MAX_VALUE as u64) < n, Fault::Malformed),
        Phase::Value(_) => Ok(()),
        Phase::End => Err(Fault::Malformed),
    }
}

// The field after a version, or after the key count.
fn between(s: Loader) -> Phase
    ensures { result ≡ between s }
{
    if s.versions != 0 {
        Phase::Number
    } else if s.keys != 0 {
        Phase::KeyLength
    } else {
        Phase::End
    }
}

// What is known after a field that says n.
pub fn known_after(p: Phase, s: Loader, n: u64) -> Loader
    ensures { result ≡ known_after p s n }
{
    match p {
        Phase::Next => Loader { next: n, ..s },
        Phase::Count => Loader { keys: n, ..s },
        Phase::VersionCount => Loader {
            keys: s.keys.saturating_sub(1),
            rooms: s.rooms.saturating_sub(n),
            versions: n,
            last: 0,
            ..s
        },
        Phase::Number => Loader {
            versions: s.versions.saturating_sub(1),
            last: n,
            ..s
        },
        Phase::Magic
        | Phase::KeyLength
        | Phase::Key(_)
        | Phase::Tag
        | Phase::ValueLength
        | Phase::Value(_)
        | Phase::End => s,
    }
}

// The field after one that says n, where s is known; a value without bytes is no field.
pub fn phase_after(p: Phase, s: Loader, n: u64) -> Phase
    ensures { result ≡ phase_after p s n }
{
    match p {
        Phase::Magic => Phase::Next,
        Phase::Next => Phase::Count,
        Phase::KeyLength => Phase::Key(n),
        Phase::Key(_) => Phase::VersionCount,
        Phase::VersionCount => Phase::Number,
        Phase::Number => Phase::Tag,
        Phase::Tag if n != 0 => Phase::ValueLength,
        Phase::ValueLength if n != 0 => Phase::Value(n),
        Phase::Count | Phase::Tag | Phase::ValueLength | Phase::Value(_) => between(s),
        Phase::End => Phase::End,
    }
}

// One whole field: the next one and what is then known, or its fault.
#[tactic(auto, unfolding(crate::specs::Machine::step_of))]
pub fn step(p: Phase, s: Loader, last: &[u8], field: &[u8]) -> Result<(Phase, Loader), Fault>
    ensures { result ≡ step_of p s last.now field.now }
{
    let n = number(field);
    judge(p, s, n, last, field)?;
    let t = known_after(p, s, n);
    Ok((phase_after(p, t, n), t))
}
