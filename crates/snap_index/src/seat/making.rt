//! Makes the place and its seats.
ghost use Rattle.std.specs.Prelude.{◌≡◌, [], IfOk, OnOk, length, All};
ghost use Rattle.turn_cell.specs.Seats.{IsSeatOf, about, seen, turns};
ghost use Rattle.snap_index.specs.Making.{IsFor, HasOneMoreSeat, AreNew, IsFresh};

use super::{SharedIndex, SharedSeat, SnapIndex, SnapSeat};
use crate::held::{About, Held, SnapHeld};
use blobref::NoMemory;
use claim_verify::Verifier;
use histories::IndexEvent;
use snap_copies::{Ended, Pusher, Watch, linked, new_writer};
use std::alloc::Global;
use std::sync::Wait;
use turn_cell::{Turn, TurnSeat};
use work_numbers::WorkNumbers;

// One more seat, with a reader.
fn push_seat<V: Verifier + Drop, H: Wait + Drop>(
    seats: &mut Vec<SnapSeat<V, H>>,
    turn: &Turn<SnapHeld<V, H>>,
    first: &mut TurnSeat<SnapHeld<V, H>, IndexEvent, About<V>>,
    watch: Watch<V>,
) -> Result<(), NoMemory>
    requires own { IsSeatOf turn.now first.old }
    requires fresh { (seen first.old ≡ []) × (turns first.old ≡ []) }
    requires knows { IsFor (about first.old) watch }
    ensures own { IsSeatOf turn.now first.new }
    ensures same { (seen first.new ≡ []) × (turns first.new ≡ []) × (about first.new ≡ about first.old) }
    ensures added { OnOk result (HasOneMoreSeat turn.now (about first.old) seats.old.items seats.new.items) }
{
    let Ok(seat) = turn.split(first) else {
        return Err(NoMemory);
    };
    let seat = SharedSeat {
        seat,
        watch: Some(watch),
    };
    seats.push(seat)?;
    Ok(())
}

// A seat for each reader.
fn seats_of<V: Verifier + Drop, H: Wait + Drop>(
    alloc: Global,
    turn: &Turn<SnapHeld<V, H>>,
    first: TurnSeat<SnapHeld<V, H>, IndexEvent, About<V>>,
    watches: Vec<Watch<V>>,
) -> Result<Vec<SnapSeat<V, H>>, NoMemory>
    requires own { IsSeatOf turn.now first }
    requires fresh { (seen first ≡ []) × (turns first ≡ []) }
    requires knows { All (IsFor (about first)) watches.items }
    ensures { IfOk result (λ seats. AreNew turn.now (about first) (length watches.items) seats.items) }
{
    let mut seats = Vec::new(alloc);
    let mut seat = first;
    let mut left = watches;
    'seats: while let Some(watch) = left.pop() {
        push_seat(&mut seats, turn, &mut seat, watch)?;
    }
    Ok(seats)
}

impl<V: Verifier + Copy + Drop, H: Wait + Drop> SnapIndex<V, H> {
    /// An index of no facts over these keys, and so many seats of it, each of which has seen nothing and drew no turn.
    /// `NoMemory` comes only if no memory is left, or there would be 2^32 seats. The handle is kept, and the
    /// allocator; all memory is taken from it.
    pub fn make(
        rt: H,
        alloc: Global,
        keys: V,
        count: usize,
    ) -> Result<(SnapIndex<V, H>, Vec<SnapSeat<V, H>>), NoMemory>
        ensures count { IfOk result (λ r. length r.1.items ≡ count) }
        ensures fresh { IfOk result (λ r. All (IsFresh V.accepts r.0 keys) r.1.items) }
    {
        let pusher = Pusher::new();
        let writer = new_writer(&rt, alloc, keys, &pusher, count)?;
        let (writer, watches) = linked(&rt, alloc, writer, count)?;
        let held = Held {
            alloc,
            desk: Ended {
                rt,
                writer: Some(writer),
            },
            pusher,
            numbers: WorkNumbers::fresh(alloc),
            keys,
        };
        let Ok((turn, seat)) = Turn::make(alloc, held) else {
            return Err(NoMemory);
        };
        let seats = seats_of(alloc, &turn, seat, watches)?;
        Ok((SharedIndex { alloc, turn }, seats))
    }
}
