//! One turn of the index.
ghost use Rattle.std.specs.Prelude.{◌≡◌, Some};

use super::SnapHeld;
use claim_verify::Verifier;
use snap_copies::Front;
use std::snapshot::Snapshot;
use std::sync::Wait;
use turn_cell::Job;

/// A job of one turn.
pub trait SnapJob<V: Verifier + Drop, H: Wait + Drop> {
    ghost use Rattle.std.specs.Prelude.{◌≡◌, ◌++◌, ℕ, List, Option, drop};
    ghost use Rattle.histories.specs.declared.stamped.Stamped.{Stamped};
    ghost use Rattle.histories.specs.declared.events.IndexEvent.{IndexEvent};
    ghost use Rattle.histories.specs.History.{stamped, events, Before};
    ghost use Rattle.snap_index.specs.Telling.{HeldTells};

    /// Its result.
    type Out;

    /// Its meaning, of the job, the entries before the turn, the result, and the entry that the turn adds.
    ghost says: { Self → List IndexEvent → Self.Out → Option IndexEvent → Type 0 };

    /// The entry that the turn adds, if any, of the job and the result.
    ghost adds: { Self → Self.Out → Option IndexEvent };

    /// Does the job.
    fn go<R: Wait>(self, rt: &R, turn: u64, held: &mut SnapHeld<V, H>) -> Self::Out
        requires { (h : List (Stamped IndexEvent)) × HeldTells held.old (λ c. c.writer) (λ w. w.desk.shown.value) (λ w. drop w.behind w.log.items) h
            × Before turn h }
        ensures head { held.new.pusher.head ≡ held.old.pusher.head }
        ensures keys { held.new.keys ≡ held.old.keys }
        ensures kept { (h : List (Stamped IndexEvent)) → HeldTells held.old (λ c. c.writer) (λ w. w.desk.shown.value) (λ w. drop w.behind w.log.items) h
            → HeldTells held.new (λ c. c.writer) (λ w. w.desk.shown.value) (λ w. drop w.behind w.log.items) (h ++ stamped turn (adds self result)) }
        ensures says { (h : List (Stamped IndexEvent)) → HeldTells held.old (λ c. c.writer) (λ w. w.desk.shown.value) (λ w. drop w.behind w.log.items) h
            → says self (events h) result (adds self result) };
}

/// A job that is done only if the list of Inserts has all that were shown to a seat.
#[derive(Drop)]
pub struct Guarded<'a, J, R> {
    pub rt: &'a R,
    pub job: Option<J>,
    /// The job before it is done.
    pub was: Snapshot<J>,
    /// What was shown to the seat.
    pub mine: Front,
    /// All Inserts at the end of the turn.
    pub after: Option<Front>,
}

impl<'a, J, R> Guarded<'a, J, R> {
    /// A job that is still to be done.
    pub(crate) fn of(rt: &'a R, job: J, mine: Front) -> Guarded<'a, J, R>
        ensures job { result.job ≡ Some job }
        ensures was { result.was.value ≡ job }
        ensures mine { result.mine ≡ mine }
    {
        let was = Snapshot::of(&job);
        Guarded {
            rt,
            job: Some(job),
            was,
            mine,
            after: None,
        }
    }
}

impl<'a, V: Verifier + Drop, H: Wait + Drop, R: Wait, O, J: SnapJob<V, H, Out = O> + Drop> Job<
    SnapHeld<V, H>,
> for Guarded<'a, J, R> {
    ghost use Rattle.std.specs.Prelude.{◌≡◌, ◌++◌, Some};
    ghost use Rattle.snap_index.specs.Telling.{GuardedSpec, guarded_entry};

    type Out = Option<O>;

    ghost says = { λ j about before turn result k entry.
        GuardedSpec (J.says j.was.value) about.head.book j.mine.seen.log before turn result k.after entry };

    ghost adds = { λ j result held. guarded_entry (J.adds j.was.value) result };

    ghost may = { λ j about. (j.job ≡ Some j.was.value) × (j.mine.seen.book ≡ about.head.book) };

    fn go(&mut self, turn: u64, value: &mut SnapHeld<V, H>) -> Option<O> {
        if !value.pusher.front.has_all_of(&self.mine) {
            return None;
        }
        let job = self.job.take().unwrap();
        let answer = job.go(self.rt, turn, value);
        self.after = Some(value.pusher.front.again());
        Some(answer)
    }
}
