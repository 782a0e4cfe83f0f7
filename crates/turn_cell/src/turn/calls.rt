//! How a lock is made, how its seats are split and joined, and how a job is run.
ghost use Rattle.std.specs.Prelude.{◌≡◌, ◌++◌, [], ◌∷◌, ℕ, List, map, true, IfOk, IfErr, IsOk, Some};
ghost use Rattle.histories.specs.declared.stamped.Stamped.{Stamped};
ghost use Rattle.histories.specs.History.{stamp, own, AheadOf, IsLonger, Ran};
ghost use Rattle.turn_cell.specs.Line.{Caught};
ghost use Rattle.turn_cell.specs.Seats.{IsSeatOf, about, made_of, seen, turns};

use super::taking::TICKET;
use super::{Turn, TurnSeat};
use crate::plays::{Merge, Read, Twin};
use crate::told::{Job, Told};
use atomic_table::{Refused, Table};
use blobref::NoMemory;
use std::alloc::{AllocFailed, Global};
use std::marker::Brand;
use std::snapshot::Snapshot;
use std::sync::{Mutex, Wait};

impl<T: Told> Turn<T> {
    /// Puts a value behind a lock, and gives the first seat. It has seen what the value brings with it, under turn 0,
    /// and drew no turn. `NoMemory` hands the value back.
    pub fn make(
        alloc: Global,
        value: T,
    ) -> Result<(Turn<T>, TurnSeat<T, T::Entry, T::About>), (T, NoMemory)>
        requires { T.tells value (map (stamp 0) (T.begins value)) }
        ensures own { IfOk result (λ r. IsSeatOf r.0 r.1) }
        ensures made { IfOk result (λ r. made_of r.0 ≡ value) }
        ensures seen { IfOk result (λ r. seen r.1 ≡ map (stamp 0) (T.begins value)) }
        ensures turns { IfOk result (λ r. turns r.1 ≡ []) }
        ensures about { IfOk result (λ r. about r.1 ≡ Some (T.about value)) }
        ensures given_back { IfErr result (λ e. e.0 ≡ value) }
    {
        let about = Snapshot::of(&value);
        let mut slots = Vec::new(alloc);
        if let Err(failed) = slots.push(Some(value)) {
            let AllocFailed { value } = failed;
            slots.destroy_empty();
            return Err((value.unwrap(), NoMemory));
        }
        match Table::new(alloc, &[0, 0], slots, &about) {
            Ok((table, seat)) => {
                let door = Mutex::new(());
                Ok((Turn { table, door }, TurnSeat { seat }))
            }
            Err(refused) => Err((taken_back(refused), NoMemory)),
        }
    }

    /// A second seat, which has seen the same and drew no turn. It takes no turn and, so far, no memory: it is never
    /// `NoMemory`.
    pub fn split(
        &self,
        seat: &mut TurnSeat<T, T::Entry, T::About>,
    ) -> Result<TurnSeat<T, T::Entry, T::About>, NoMemory>
        requires { IsSeatOf self.now seat.old }
        ensures own { IsSeatOf self.now seat.new }
        ensures same { (seen seat.new ≡ seen seat.old) × (turns seat.new ≡ turns seat.old)
            × (about seat.new ≡ about seat.old) }
        ensures succeeds { IsOk result }
        ensures own_second { IfOk result (λ r. IsSeatOf self.now r) }
        ensures second { IfOk result (λ r. (seen r ≡ seen seat.old) × (turns r ≡ []) × (about r ≡ about seat.old)) }
    {
        Ok(TurnSeat {
            seat: self.table.shared.split_seat::<Twin>(&mut seat.seat),
        })
    }

    /// Joins a seat to another one, which then has seen the longer of their histories and has the turns of both. In the
    /// longer one no entry stands under the turns of either that it hadn't seen itself, and what it hadn't seen came
    /// after all of its turns. It takes no turn.
    pub fn join(
        &self,
        into: &mut TurnSeat<T, T::Entry, T::About>,
        other: TurnSeat<T, T::Entry, T::About>,
    )
        requires one { IsSeatOf self.now into.old }
        requires other { IsSeatOf self.now other }
        ensures own { IsSeatOf self.now into.new }
        ensures longer { IsLonger (seen into.old) (seen other) (seen into.new) }
        ensures turns { turns into.new ≡ turns into.old ++ turns other }
        ensures own_one { own (turns into.old) (seen into.new) ≡ own (turns into.old) (seen into.old) }
        ensures own_other { own (turns other) (seen into.new) ≡ own (turns other) (seen other) }
        ensures later_one { AheadOf (turns into.old) (seen into.old) (seen into.new) }
        ensures later_other { AheadOf (turns other) (seen other) (seen into.new) }
        ensures about { about into.new ≡ about into.old }
        ensures same { about other ≡ about into.old }
    {
        self.table
            .shared
            .join_seat::<Merge>(&mut into.seat, other.into_seat());
        // The look at the line tells what the two knew of one another.
        self.table.shared.load::<Read>(&mut into.seat, TICKET);
    }

    /// Does a job on the value in one turn, as soon as those that were drawn before have been passed on. The seat has
    /// then seen the history before the turn, and the entry that the turn added. What it hadn't seen before came after
    /// all turns that it had drawn before. A thread that waits for its turn sleeps after a few looks. Once 2^63 turns
    /// have been drawn no further one is, and the call doesn't return.
    pub fn run<J: Job<T>, R: Wait>(
        &self,
        rt: &R,
        seat: &mut TurnSeat<T, T::Entry, T::About>,
        job: &mut J,
    ) -> J::Out
        requires own { IsSeatOf self.now seat.old }
        requires job { (c : T.About) → about seat.old ≡ Some c → J.may job.old c }
        ensures own { IsSeatOf self.now seat.new }
        ensures about { about seat.new ≡ about seat.old }
        ensures legal { (c : T.About) → about seat.old ≡ Some c → T.legal c (seen seat.new) ≡ true }
        ensures ran { (c : T.About) × (about seat.old ≡ Some c)
            × Ran (λ before turn entry. J.says job.old c before turn result job.new entry)
            (seen seat.old) (turns seat.old) (seen seat.new) (turns seat.new) }
    {
        let _door = self.door.lock(rt);
        let (mut value, ticket) = self.take_up(rt, &mut seat.seat);
        let answer = job.go(ticket + 1, &mut value);
        self.pass_on::<J, Brand>(&mut seat.seat, value, job, &answer);
        answer
    }

    /// Ends the lock and hands its value back, which needn't be `Drop`. The value stands for a history that begins with
    /// what the seat has seen, in which nothing further stands under the turns of the seat, and what follows came after
    /// these. It draws a turn for it, and like `run` doesn't return once 2^63 were drawn.
    pub fn into_inner<R: Wait>(self, rt: &R, seat: TurnSeat<T, T::Entry, T::About>) -> T
        requires { IsSeatOf self seat }
        ensures about { about seat ≡ Some (T.about result) }
        ensures told { (n : ℕ) × (history : List (Stamped T.Entry)) × T.tells result history
            × Caught (seen seat) (turns seat) n history }
    {
        let mut seat = seat.into_seat();
        let (value, _) = self.take_up(rt, &mut seat);
        self.end(seat);
        value
    }
}

// The value out of a refused slot.
fn taken_back<T>(refused: Refused<Option<T>, Global>) -> T
    requires { (x : T) × (refused.slots.items ≡ Some x ∷ []) }
    ensures { refused.slots.items ≡ Some result ∷ [] }
{
    let Refused { mut slots } = refused;
    let value = slots.pop().unwrap().unwrap();
    slots.destroy_empty();
    value
}
