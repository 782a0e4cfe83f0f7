//! One turn of the index.
ghost use Rattle.turn_index.specs.IndexSeats.{IsOfIndex, index_sight, IndexRan};

use super::{IndexSeat, KeptIndex, TurnIndex};
use claim_verify::Verifier;
use index_history::WorkIndex;
use std::sync::Wait;
use turn_cell::{Counted, Job};

/// A job of one turn of the index.
pub trait IndexJob<V: Verifier> {
    ghost use Rattle.std.specs.Prelude.{◌≡◌, ◌++◌, ℕ, List, Option};
    ghost use Rattle.claim_verify.specs.Verifier.{Accepts};
    ghost use Rattle.histories.specs.declared.stamped.Stamped.{Stamped};
    ghost use Rattle.histories.specs.declared.events.IndexEvent.{IndexEvent};
    ghost use Rattle.histories.specs.History.{stamped};
    ghost use Rattle.index_history.specs.Represents.{IndexRepresents};

    /// Its result.
    type Out;

    /// Its meaning, of the job, what the keys accept, the history before the turn, the result, and the entry that the
    /// turn adds.
    ghost says: { Self → Accepts → List (Stamped IndexEvent) → Self.Out → Option IndexEvent → Type 0 };

    /// The entry that the turn adds, if any, of the job and the result.
    ghost adds: { Self → Self.Out → Option IndexEvent };

    /// What it requires of the job.
    ghost may: { Self → Type 0 } = { λ _. Unit {0} };

    /// Does the job.
    fn go(self, index: &mut WorkIndex<V>) -> Self::Out
        requires { may self }
        ensures keys { index.new.index.keys ≡ index.old.index.keys }
        ensures kept { (h : List (Stamped IndexEvent)) (turn : ℕ) → IndexRepresents index.old h
            → IndexRepresents index.new (h ++ stamped turn (adds self result)) }
        ensures says { (h : List (Stamped IndexEvent)) → IndexRepresents index.old h
            → says self (V.accepts index.old.index.keys) h result (adds self result) };
}

impl<V: Verifier, O, J: IndexJob<V, Out = O> + Drop> Job<KeptIndex<V>> for Counted<J> {
    ghost use Rattle.std.specs.Prelude.{◌≡◌, ◌++◌, length, Some};
    ghost use Rattle.histories.specs.History.{stamped};
    ghost use Rattle.histories.specs.Indexes.{inserts};

    type Out = O;

    ghost says = { λ j keys before turn result k entry. J.says j.was.value (V.accepts keys) before result entry
        × (k.count ≡ length (inserts (before ++ stamped turn entry))) };

    ghost adds = { λ j result kept. J.adds j.was.value result };

    ghost may = { λ j keys. (j.job ≡ Some j.was.value) × J.may j.was.value };

    fn go(&mut self, _turn: u64, value: &mut KeptIndex<V>) -> O {
        let job = self.job.take().unwrap();
        let answer = job.go(&mut value.index);
        self.count = value.index.len();
        answer
    }
}

impl<V: Verifier> TurnIndex<V> {
    // Does a job in one turn.
    pub(super) fn take_turn<R: Wait, O, J: IndexJob<V, Out = O> + Drop>(
        &self,
        rt: &R,
        seat: &mut IndexSeat<V>,
        job: J,
    ) -> O
        requires own { IsOfIndex self.now seat.old }
        requires may { J.may job }
        ensures own { IsOfIndex self.now seat.new }
        ensures ran { IndexRan (λ accepts before entry. J.says job accepts before result entry)
            (index_sight V.accepts seat.old) (index_sight V.accepts seat.new) }
    {
        let mut counted = Counted::of(job);
        let answer = self.turn.run(rt, &mut seat.seat, &mut counted);
        seat.count = counted.count;
        answer
    }
}
