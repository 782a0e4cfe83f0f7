//! Work at desks, shared among threads.
ghost use Rattle.std.specs.Prelude.{◌≡◌, ◌+◌, ◌<◌, ℕ, All, length};
ghost use Rattle.std.specs.Thread.{IsSync};
ghost use denote.Param.Send.{IsSend};
ghost use Rattle.blob_server.specs.Counting.{Adds, AddsTwice, Attended, HasParts};

use crate::counting::{Connections, TakenShare};
use std::sync::Wait;
use std::thread::{Threads, join_mut};

/// What is done at each desk, in any thread.
pub trait DeskWork<D, J: Connections, R: Wait> {
    /// At which desks it can be done.
    ghost may: { Self → D → Type 0 };

    /// What it leaves of a desk, where it took so many connections, and so often found none left.
    ghost does: { Self → D → D → ℕ → ℕ → Type 0 };

    /// Does it.
    fn attend(&self, rt: &R, hand: &mut TakenShare<J>, desk: &mut D)
        requires may { may self.now desk.old }
        requires parts { (0 < hand.old.taken.parts) × (0 < hand.old.dry.parts) }
        ensures does { Adds (does self.now desk.old desk.new)
            hand.old.taken.amount hand.new.taken.amount hand.old.dry.amount hand.new.dry.amount }
        ensures parts { (hand.new.taken.parts ≡ hand.old.taken.parts) × (hand.new.dry.parts ≡ hand.old.dry.parts) };
}

/// Does the work at each desk, each in a thread of its own. Where no thread can be made they follow one another, in
/// their order.
#[cycle(halves)]
pub fn attend_all<
    D: Send,
    J: Connections + Send + Sync,
    R: Threads + Wait + Sync,
    A: DeskWork<D, J, R> + Sync,
>(rt: &R, work: &A, hand: &mut TakenShare<J>, desks: &mut [D])
    requires some { 0 < length desks.old }
    requires may { All (A.may work.now) desks.old }
    requires parts { HasParts (length desks.old) hand.old.taken.parts hand.old.dry.parts }
    ensures does { Adds (Attended (A.does work.now) desks.old desks.new)
        hand.old.taken.amount hand.new.taken.amount hand.old.dry.amount hand.new.dry.amount }
    ensures parts { HasParts (length desks.old) hand.new.taken.parts hand.new.dry.parts }
{
    if desks.len() == 1 {
        work.attend(rt, hand, &mut desks[0]);
        return;
    }
    let (front, back) = desks.split_at_mut(desks.len() / 2);
    attend_both(rt, work, hand, front, back);
}

// Where no thread can be made, `join_mut` calls its first closure last.
#[cycle(halves)]
fn attend_both<
    D: Send,
    J: Connections + Send + Sync,
    R: Threads + Wait + Sync,
    A: DeskWork<D, J, R> + Sync,
>(rt: &R, work: &A, hand: &mut TakenShare<J>, front: &mut [D], back: &mut [D])
    requires some { (0 < length front.old) × (0 < length back.old) }
    requires parts { HasParts (length front.old + length back.old) hand.old.taken.parts hand.old.dry.parts }
    requires front { All (A.may work.now) front.old }
    requires back { All (A.may work.now) back.old }
    ensures does { AddsTwice (Attended (A.does work.now) front.old front.new)
        (Attended (A.does work.now) back.old back.new)
        hand.old.taken.amount hand.new.taken.amount hand.old.dry.amount hand.new.dry.amount }
    ensures parts { HasParts (length front.old + length back.old) hand.new.taken.parts hand.new.dry.parts }
{
    let mut other = hand.split(back.len() as u64);
    let mut first = ||
        requires { IsSync R.row × IsSync A.row × IsSend D.row × IsSend J.row × IsSync J.row
            × (0 < length front.now) × All (A.may work.now) front.now
            × HasParts (length front.now) hand.now.taken.parts hand.now.dry.parts }
        ensures does { Adds (Attended (A.does work.entry.now) front.entry.now front.exit.now)
            hand.entry.now.taken.amount hand.exit.now.taken.amount
            hand.entry.now.dry.amount hand.exit.now.dry.amount }
        ensures parts { HasParts (length front.entry.now) hand.exit.now.taken.parts hand.exit.now.dry.parts }
    { attend_all(rt, work, hand, front) };
    let mut rest = ||
        requires { IsSync R.row × IsSync A.row × IsSend D.row × IsSend J.row × IsSync J.row
            × (0 < length back.now) × All (A.may work.now) back.now
            × HasParts (length back.now) other.taken.parts other.dry.parts }
        ensures does { Adds (Attended (A.does work.entry.now) back.entry.now back.exit.now)
            other.entry.taken.amount other.exit.taken.amount
            other.entry.dry.amount other.exit.dry.amount }
        ensures parts { HasParts (length back.entry.now) other.exit.taken.parts other.exit.dry.parts }
    { attend_all(rt, work, &mut other, back) };
    join_mut(rt, &mut rest, &mut first);
    hand.merge(other);
}
