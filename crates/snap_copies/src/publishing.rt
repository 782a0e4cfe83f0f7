//! Adds one more Insert to the list and to the published copy.
ghost use Rattle.std.specs.Prelude.{◌≡◌, ◌++◌, ◌∷◌, [], true, false, length, ◌<◌, ◌^◌, drop};
ghost use Rattle.histories.specs.Indexes.{has_number};
ghost use Rattle.snap_copies.specs.Books.{insertion, is_fine};

use crate::book::{Adding, Front, Pusher};
use crate::copies::Addition;
use crate::prepared::Prepared;
use crate::showing::{SnapWriter, append, publish};
use claim_verify::Verifier;
use std::alloc::Global;
use std::sync::Wait;
use std::thread;

/// Adds an Insert of this turn to the list, and shows readers a copy that has it. It never fails: if memory is short,
/// it waits. All Inserts of the list must be published, and the number must be new.
pub fn show<V: Verifier + Drop, R: Wait>(
    rt: &R,
    alloc: Global,
    turn: u64,
    prepared: Prepared,
    pusher: &mut Pusher,
    writer: SnapWriter<V>,
) -> SnapWriter<V>
    requires room { length pusher.old.front.seen.log < 2 ^ 62 }
    requires fine { is_fine (pusher.old.front.seen.log
        ++ insertion turn prepared.made.0 prepared.made.1 prepared.made.2 ∷ []) ≡ true }
    requires fresh { has_number prepared.made.0 pusher.old.front.seen.log ≡ false }
    requires shown { writer.desk.shown.value.front.seen ≡ pusher.old.front.seen }
    requires none_pends { drop writer.behind writer.log.items ≡ [] }
    ensures head { pusher.new.head ≡ pusher.old.head }
    ensures log { pusher.new.front.seen.log ≡ pusher.old.front.seen.log
        ++ insertion turn prepared.made.0 prepared.made.1 prepared.made.2 ∷ [] }
    ensures shown { result.desk.shown.value.front.seen ≡ pusher.new.front.seen }
    ensures keys { result.desk.shown.value.index.keys ≡ writer.desk.shown.value.index.keys }
    ensures none_pends { drop result.behind result.log.items ≡ [] }
{
    let front = listed(rt, &*pusher, turn, &prepared);
    let addition = Addition {
        alloc,
        prepared,
        front: front.again(),
    };
    pusher.front = front;
    publish(rt, append(rt, writer, addition))
}

// Adds an Insert to the list, and returns the prefix that ends with it.
fn listed<R: Wait>(rt: &R, pusher: &Pusher, turn: u64, prepared: &Prepared) -> Front
    requires room { length pusher.now.front.seen.log < 2 ^ 62 }
    requires fine { is_fine (pusher.now.front.seen.log
        ++ insertion turn prepared.now.made.0 prepared.now.made.1 prepared.now.made.2 ∷ []) ≡ true }
    ensures book { result.seen.book ≡ pusher.now.front.seen.book }
    ensures log { result.seen.log ≡ pusher.now.front.seen.log
        ++ insertion turn prepared.now.made.0 prepared.now.made.1 prepared.now.made.2 ∷ [] }
{
    let r = prepared.made.r();
    let adding = Adding {
        turn,
        number: prepared.made.number(),
        r: &r,
        fact: &prepared.fact,
    };
    pushed(rt, pusher, &adding)
}

// The list is never longer, since only the holder of the turn adds to it. If it were, this would wait forever.
fn pushed<R: Wait>(rt: &R, pusher: &Pusher, adding: &Adding<'_>) -> Front
    requires room { length pusher.now.front.seen.log < 2 ^ 62 }
    requires fine { is_fine (pusher.now.front.seen.log
        ++ insertion adding.now.turn adding.now.number adding.now.r.now adding.now.fact.now ∷ []) ≡ true }
    ensures book { result.seen.book ≡ pusher.now.front.seen.book }
    ensures log { result.seen.log ≡ pusher.now.front.seen.log
        ++ insertion adding.now.turn adding.now.number adding.now.r.now adding.now.fact.now ∷ [] }
{
    match pusher.pushed(adding) {
        Some(front) => front,
        None => {
            for _ in rt.forever() {
                thread::yield_now();
            }
            unreachable!()
        }
    }
}
