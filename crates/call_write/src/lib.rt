// Writes of an open transaction, put and delete: they stand in its desk until it commits.
#![tactic(auto)]

ghost use Rattle.std.specs.Prelude.{◌≡◌, true, ◌<◌, length};
ghost use Rattle.model.specs.Calls.{on, put, delete, is_too_many};
ghost use Rattle.answers.specs.Paper.{paper_done};
ghost use Rattle.desk.specs.Layout.{desks_in};
ghost use Rattle.desk.specs.Shape.{desk_in, own_writes};
ghost use Rattle.desk_writes.specs.Writes.{Ordered};
ghost use Rattle.bridge.specs.Store.{Sound};
ghost use Rattle.bridge.specs.Clauses.{DeskCalled};
ghost use Rattle.call_write.specs.Aims.{Aims};

use answers::{Done, Refusal};
use bridge::{arguments, memories};
use cells::rows::Place;
use desk::desks;
use memory::Which;
use model::Start;

// Where a write goes: to a desk, or nowhere.
#[derive(Drop)]
pub enum Aim {
    At(usize),
    Refused(Refusal),
}

// Would a write of the key be one more than desk d may hold?
fn is_too_many(desk: &[u8], d: usize, key: &[u8]) -> bool
    requires { Ordered desk.now × (d < length (desks_in desk.now)) }
    ensures { result ≡ is_too_many key.now (own_writes (desk_in desk.now d)) }
{
    match desk_writes::own_write(desk, d, key) {
        Place::At(_) => false,
        Place::Before(_) => model::MAX_WRITES <= desk_writes::write_count(desk, d),
    }
}

// The desk of the start, if it takes a write of the key; fits: is the payload no longer than a value may be?
fn desk_for(desk: &[u8], start: Start, key: &[u8], fits: bool) -> Aim
    requires { Ordered desk.now }
    ensures { Aims desk.now start.0 key.now fits result }
{
    if !arguments::key_fits(key) {
        return Aim::Refused(Refusal::BadKey);
    }
    if !fits {
        return Aim::Refused(Refusal::LongValue);
    }
    match desks::desk_of(desk, start.0) {
        Which::At(d) => {
            if is_too_many(desk, d, key) {
                return Aim::Refused(Refusal::TooManyWrites);
            }
            Aim::At(d)
        }
        Which::Nothing => Aim::Refused(Refusal::NotOpen),
    }
}

pub fn put_in(hall: &[u8], desk: &mut [u8], start: Start, key: &[u8], val: &[u8]) -> Done
    requires { Sound hall.now desk.old }
    ensures { DeskCalled hall.now desk.old desk.new
        (on start.0 (put key.now val.now)) (paper_done result) }
{
    match desk_for(desk, start, key, arguments::value_fits(val)) {
        Aim::At(d) => {
            desk_writes::put_write(desk, d, key, val);
            Done::Done
        }
        Aim::Refused(r) => Done::Refused(r),
    }
}

pub fn put(hall: &[u8], desk: &mut [u8], start: Start, key: &[u8], val: &[u8]) -> Done
    ensures { DeskCalled hall.now desk.old desk.new
        (on start.0 (put key.now val.now)) (paper_done result) }
{
    if !memories::are_sound(hall, desk) {
        return Done::Refused(Refusal::Unsound);
    }
    put_in(hall, desk, start, key, val)
}

pub fn delete_in(hall: &[u8], desk: &mut [u8], start: Start, key: &[u8]) -> Done
    requires { Sound hall.now desk.old }
    ensures { DeskCalled hall.now desk.old desk.new
        (on start.0 (delete key.now)) (paper_done result) }
{
    match desk_for(desk, start, key, true) {
        Aim::At(d) => {
            desk_writes::delete_write(desk, d, key);
            Done::Done
        }
        Aim::Refused(r) => Done::Refused(r),
    }
}

pub fn delete(hall: &[u8], desk: &mut [u8], start: Start, key: &[u8]) -> Done
    ensures { DeskCalled hall.now desk.old desk.new
        (on start.0 (delete key.now)) (paper_done result) }
{
    if !memories::are_sound(hall, desk) {
        return Done::Refused(Refusal::Unsound);
    }
    delete_in(hall, desk, start, key)
}
