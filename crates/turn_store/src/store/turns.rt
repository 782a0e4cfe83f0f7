//! One turn of the store.
ghost use Rattle.turn_store.specs.StoreSeats.{IsOfStore, store_sight, place_about};
ghost use Rattle.home_places.specs.Seats.{StoreTurn};

use super::{KeptStore, StoreSeat, TurnStore};
use pack_disk::Disk;
use pack_store::Store;
use std::sync::Wait;
use turn_cell::{Counted, Job};

/// A job of one turn of the store.
pub trait StoreJob<D: Disk> {
    ghost use Rattle.std.specs.Prelude.{◌≡◌, ℕ, List, Option};
    ghost use Rattle.histories.specs.declared.events.StoreEvent.{StoreEvent};
    ghost use Rattle.histories.specs.Stores.{Blob};
    ghost use Rattle.store_history.specs.Represents.{AddsEntry};
    ghost use Rattle.turn_store.specs.declared.store.StoreAbout.{StoreAbout};
    ghost use Rattle.turn_store.specs.StoreAbout.{about_of};

    /// Its result.
    type Out;

    /// Its meaning, of the job, the parts that no turn changes, the blobs that arrived before the turn, the result, and
    /// the entry that the turn adds.
    ghost says: { Self → StoreAbout → List Blob → Self.Out → Option StoreEvent → Type 0 };

    /// The entry that the turn adds, if any, of the job, the result, and the disk's count of faults before the turn and
    /// after it.
    ghost adds: { Self → Self.Out → ℕ → ℕ → Option StoreEvent };

    /// Does the job.
    fn go(self, store: &mut Store<D>) -> Self::Out
        ensures about { (made : ℕ) → about_of D.Disk made store.new ≡ about_of D.Disk made store.old }
        ensures tells { (made : ℕ) → AddsEntry D.Disk made store.old store.new
            (adds self result (D.faults store.old.disk) (D.faults store.new.disk))
            (λ before entry. says self (about_of D.Disk made store.old) before result entry) };
}

impl<D: Disk, O, J: StoreJob<D, Out = O> + Drop> Job<KeptStore<D>> for Counted<J> {
    ghost use Rattle.std.specs.Prelude.{◌≡◌, ◌++◌, length, Some};
    ghost use Rattle.histories.specs.History.{stamped};
    ghost use Rattle.histories.specs.Stores.{arrivals};

    type Out = O;

    ghost says = { λ j about before turn result k entry. J.says j.was.value about (arrivals before) result entry
        × (k.count ≡ length (arrivals (before ++ stamped turn entry))) };

    ghost adds = { λ j result kept. J.adds j.was.value result kept.before (D.faults kept.store.disk) };

    ghost may = { λ j about. j.job ≡ Some j.was.value };

    fn go(&mut self, _turn: u64, value: &mut KeptStore<D>) -> O {
        let job = self.job.take().unwrap();
        value.before = value.store.faults();
        let answer = job.go(&mut value.store);
        self.count = store_history::count(&value.store);
        answer
    }
}

impl<D: Disk> TurnStore<D> {
    // Does a job in one turn.
    pub(super) fn take_turn<R: Wait, O, J: StoreJob<D, Out = O> + Drop>(
        &self,
        rt: &R,
        seat: &mut StoreSeat<D>,
        job: J,
    ) -> O
        requires { IsOfStore D.Disk self.now seat.old }
        ensures own { IsOfStore D.Disk self.now seat.new }
        ensures turn { StoreTurn (λ before entry. J.says job (place_about D.Disk self.now) before result entry)
            (store_sight seat.old) (store_sight seat.new) }
    {
        let mut counted = Counted::of(job);
        let answer = self.turn.run(rt, &mut seat.seat, &mut counted);
        seat.count = counted.count;
        answer
    }
}
