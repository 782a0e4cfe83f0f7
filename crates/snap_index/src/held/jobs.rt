//! The jobs of one turn.
ghost use Rattle.std.specs.Prelude.{◌≡◌, ◌++◌, false, List, drop, MatchBool};
ghost use Rattle.std.specs.FinMap.{contains_key};
ghost use Rattle.schema_fact.specs.Validity.{IsValid};
ghost use Rattle.histories.specs.declared.stamped.Stamped.{Stamped};
ghost use Rattle.histories.specs.declared.events.IndexEvent.{IndexEvent};
ghost use Rattle.histories.specs.History.{events, stamped, Before};
ghost use Rattle.histories.specs.IndexCalls.{InsertSpec};
ghost use Rattle.work_numbers.specs.Working.{with_noted};
ghost use Rattle.snap_copies.specs.FactIsValid.{fact_prop};
ghost use Rattle.snap_index.specs.Telling.{HeldTells, insert_entry};

use super::SnapHeld;
use super::turns::SnapJob;
use blobref::{NoMemory, Ref};
use claim_verify::Verifier;
use edge_base::Inserted;
use schema_fact::Fact;
use snap_copies::{Prepared, show};
use std::mem::replace;
use std::sync::Wait;
use work_numbers::WorkNumbers;

// The number of Inserts never reaches this.
const MAX_INSERTS: u64 = 1 << 60;

/// Takes the least waiting number in hand.
#[derive(Drop)]
pub struct Take {
    pub arrivals: u64,
}

impl<V: Verifier + Drop, H: Wait + Drop> SnapJob<V, H> for Take {
    ghost use Rattle.histories.specs.IndexCalls.{TakeSpec};
    ghost use Rattle.work_numbers.specs.Telling.{take_entry};

    type Out = Result<Option<u64>, NoMemory>;

    ghost says = { λ j before result entry. TakeSpec j.arrivals before result entry };

    ghost adds = { λ j result. take_entry result };

    fn go<R: Wait>(
        self,
        _rt: &R,
        _turn: u64,
        held: &mut SnapHeld<V, H>,
    ) -> Result<Option<u64>, NoMemory> {
        held.numbers.take(self.arrivals)
    }
}

/// Gives a number back. Returns whether it was in hand.
#[derive(Drop)]
pub struct GiveBack {
    pub number: u64,
}

impl<V: Verifier + Drop, H: Wait + Drop> SnapJob<V, H> for GiveBack {
    ghost use Rattle.histories.specs.IndexCalls.{ReturnSpec};
    ghost use Rattle.work_numbers.specs.Telling.{return_entry};

    type Out = bool;

    ghost says = { λ j before result entry. ReturnSpec j.number before entry };

    ghost adds = { λ j result. return_entry result j.number };

    fn go<R: Wait>(self, _rt: &R, _turn: u64, held: &mut SnapHeld<V, H>) -> bool {
        held.numbers.give_back(self.number)
    }
}

/// Finds the least number that isn't inserted.
#[derive(Drop)]
pub struct Lacking {
    pub below: u64,
}

impl<V: Verifier + Drop, H: Wait + Drop> SnapJob<V, H> for Lacking {
    ghost use Rattle.std.specs.Prelude.{None};
    ghost use Rattle.histories.specs.IndexCalls.{LackingSpec};

    type Out = Option<u64>;

    ghost says = { λ j before result entry. LackingSpec j.below before result entry };

    ghost adds = { λ j result. None };

    fn go<R: Wait>(self, _rt: &R, _turn: u64, held: &mut SnapHeld<V, H>) -> Option<u64> {
        held.numbers.lacking(self.below)
    }
}

/// Does nothing.
#[derive(Drop)]
pub struct Rest;

impl<V: Verifier + Drop, H: Wait + Drop> SnapJob<V, H> for Rest {
    ghost use Rattle.std.specs.Prelude.{◌≡◌, None};

    type Out = ();

    ghost says = { λ j before result entry. entry ≡ None };

    ghost adds = { λ j result. None };

    fn go<R: Wait>(self, _rt: &R, _turn: u64, _held: &mut SnapHeld<V, H>) {}
}

/// Inserts a number, with a fact under a ref.
#[derive(Drop)]
pub struct Insert<'a> {
    pub number: u64,
    pub r: &'a Ref,
    pub fact: Fact,
    pub ghost valid: { IsValid fact } by { fact_prop fact },
}

impl<'a, V: Verifier + Drop, H: Wait + Drop> SnapJob<V, H> for Insert<'a> {
    ghost use Rattle.histories.specs.IndexCalls.{InsertSpec};
    ghost use Rattle.snap_index.specs.Telling.{insert_entry};

    type Out = Result<Inserted, NoMemory>;

    ghost says = { λ j before result entry. InsertSpec j.number j.r.now j.fact before result entry };

    ghost adds = { λ j result. insert_entry j.number j.r.now j.fact result };

    fn go<R: Wait>(
        self,
        rt: &R,
        turn: u64,
        held: &mut SnapHeld<V, H>,
    ) -> Result<Inserted, NoMemory> {
        if held.numbers.has(self.number) {
            return Ok(Inserted::Already);
        }
        match Prepared::of(held.alloc, self.number, self.r, self.fact) {
            Ok(prepared) => add(rt, turn, prepared, held),
            Err(NoMemory) => Err(NoMemory),
        }
    }
}

// Inserts a number that isn't inserted. Its memory is taken before it is added to the list, except for the room of the
// writer's queue, which is taken after the first Insert only (`append`).
fn add<V: Verifier + Drop, H: Wait + Drop, R: Wait>(
    rt: &R,
    turn: u64,
    prepared: Prepared,
    held: &mut SnapHeld<V, H>,
) -> Result<Inserted, NoMemory>
    requires told { (h : List (Stamped IndexEvent))
        × HeldTells held.old (λ c. c.writer) (λ w. w.desk.shown.value) (λ w. drop w.behind w.log.items) h
        × Before turn h }
    requires fresh { contains_key held.old.numbers.numbers prepared.made.0 ≡ false }
    ensures head { held.new.pusher.head ≡ held.old.pusher.head }
    ensures keys { held.new.keys ≡ held.old.keys }
    ensures kept { (h : List (Stamped IndexEvent))
        → HeldTells held.old (λ c. c.writer) (λ w. w.desk.shown.value) (λ w. drop w.behind w.log.items) h
        → HeldTells held.new (λ c. c.writer) (λ w. w.desk.shown.value) (λ w. drop w.behind w.log.items)
        (h ++ stamped turn (insert_entry prepared.made.0 prepared.made.1 prepared.made.2 result)) }
    ensures says { (h : List (Stamped IndexEvent))
        → HeldTells held.old (λ c. c.writer) (λ w. w.desk.shown.value) (λ w. drop w.behind w.log.items) h
        → InsertSpec prepared.made.0 prepared.made.1 prepared.made.2 (events h) result
        (insert_entry prepared.made.0 prepared.made.1 prepared.made.2 result) }
{
    if held.pusher.front.count >= MAX_INSERTS {
        return Err(NoMemory);
    }
    if !note(&mut held.numbers, prepared.made.number()) {
        return Err(NoMemory);
    }
    let Some(writer) = held.desk.writer.take() else {
        unreachable!()
    };
    let writer = show(rt, held.alloc, turn, prepared, &mut held.pusher, writer);
    match replace(&mut held.desk.writer, Some(writer)) {
        None => {}
        Some(_) => unreachable!(),
    }
    Ok(Inserted::New)
}

// Notes that a number is inserted, unless there is no memory.
fn note(numbers: &mut WorkNumbers, number: u64) -> bool
    ensures { MatchBool result (numbers.new ≡ with_noted numbers.old number) (numbers.new ≡ numbers.old) }
{
    match numbers.note(number) {
        Ok(()) => true,
        Err(_) => false,
    }
}
