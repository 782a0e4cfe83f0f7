//! One turn of a seat.
ghost use Rattle.std.specs.Prelude.{◌≡◌, Some, MatchOption};
ghost use mathlib.Core.List.{IsPrefix};
ghost use Rattle.home_places.specs.Seats.{IndexTurn, IndexJoin};
ghost use Rattle.snap_index.specs.SnapSeats.{IsOfSnap, snap_sight};

use super::{SnapIndex, SnapSeat};
use crate::held::jobs::Rest;
use crate::held::turns::{Guarded, SnapJob};
use claim_verify::Verifier;
use snap_copies::Front;
use std::sync::Wait;
use std::thread;

impl<V: Verifier + Drop, H: Wait + Drop> SnapIndex<V, H> {
    // Does a job in one turn, and looks until all Inserts of the history that is then seen are shown.
    pub(super) fn take_turn<R: Wait, O: Drop, J: SnapJob<V, H, Out = O> + Drop>(
        &self,
        rt: &R,
        seat: &mut SnapSeat<V, H>,
        job: J,
    ) -> O
        requires { IsOfSnap self.now seat.old }
        ensures own { IsOfSnap self.now seat.new }
        ensures turn { IndexTurn (λ before entry. J.says job before result entry)
            (snap_sight V.accepts seat.old) (snap_sight V.accepts seat.new) }
    {
        let Some(watch) = seat.watch.take() else {
            unreachable!()
        };
        let mut guarded = Guarded::of(rt, job, watch.mine.again());
        let answer = self.turn.run(rt, &mut seat.seat, &mut guarded);
        let (answer, front) = done(rt, answer, guarded.after.take());
        seat.watch = Some(watch.catch_up(rt, &front));
        answer
    }

    // Joins a seat to another one, and takes a turn in which nothing is done, so that all that was shown to either is
    // seen.
    pub(super) fn join_seats<R: Wait>(
        &self,
        rt: &R,
        into: &mut SnapSeat<V, H>,
        other: SnapSeat<V, H>,
    )
        requires one { IsOfSnap self.now into.old }
        requires other { IsOfSnap self.now other }
        ensures own { IsOfSnap self.now into.new }
        ensures join { IndexJoin (snap_sight V.accepts into.old) (snap_sight V.accepts other)
            (snap_sight V.accepts into.new) }
    {
        let (seat, watch) = other.into_parts();
        let Some(theirs) = watch else { unreachable!() };
        let Some(mine) = into.watch.take() else {
            unreachable!()
        };
        self.turn.join(&mut into.seat, seat);
        let longer = longer_of(&mine.mine, &theirs.mine);
        let mut guarded = Guarded::of(rt, Rest, longer);
        let answer = self.turn.run(rt, &mut into.seat, &mut guarded);
        let (_, front) = done(rt, answer, guarded.after.take());
        into.watch = Some(mine.catch_up(rt, &front));
    }
}

// The longer of two prefixes of the list.
fn longer_of(one: &Front, other: &Front) -> Front
    requires { other.now.seen.book ≡ one.now.seen.book }
    ensures book { result.seen.book ≡ one.now.seen.book }
    ensures one { IsPrefix one.now.seen.log result.seen.log }
    ensures other { IsPrefix other.now.seen.log result.seen.log }
{
    if one.has_all_of(other) {
        return one.again();
    }
    other.again()
}

// The result of a job that was done. A job is never left undone, since all Inserts that are shown are published. If it
// were, this would wait forever.
fn done<R: Wait, O: Drop>(rt: &R, answer: Option<O>, front: Option<Front>) -> (O, Front)
    ensures answer { answer ≡ Some result.0 }
    ensures front { front ≡ Some result.1 }
{
    match (answer, front) {
        (Some(answer), Some(front)) => (answer, front),
        _ => {
            for _ in rt.forever() {
                thread::yield_now();
            }
            unreachable!()
        }
    }
}
