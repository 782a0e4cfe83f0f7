//! The place and its seats.
ghost use Rattle.std.specs.Prelude.{◌≡◌, Some, true, option_map, length, take};
ghost use Rattle.histories.specs.Indexes.{inserts, is_legal_index};
ghost use Rattle.turn_cell.specs.Seats.{about, seen};

use crate::held::{About, Held};
use claim_verify::Verifier;
use histories::IndexEvent;
use snap_copies::{SnapEnded, Watch};
use std::alloc::Global;
use turn_cell::{Told, Turn, TurnSeat};

mod calls;
mod making;
mod searching;
mod turning;

/// An index that several seats share, with the type of the writer's end as a parameter, as in `SnapIndex`.
pub struct SharedIndex<V, C>
where
    Held<V, C>: Told,
{
    alloc: Global,
    turn: Turn<Held<V, C>>,
}

// Written by hand, as that of a seat: a derived drop is proved again in each crate that holds such a value.
impl<V: Drop, C: Drop> Drop for SharedIndex<V, C>
where
    Held<V, C>: Told,
{
    fn drop(self) {
        let Self {
            alloc: _,
            turn: _turn,
        } = self;
    }
}

/// An index that several seats share (`docs/core.md`). Calls that change it take turns; a search never waits. The
/// handle is used only to wait: for the readers to leave a copy, when the index is dropped.
pub type SnapIndex<V, H> = SharedIndex<V, SnapEnded<V, H>>;

/// One actor's access to such an index: the history of the index that it has seen, the turns that it drew, and a
/// reader with the Inserts that were shown to it.
pub struct SharedSeat<V: Verifier + Drop, C> {
    seat: TurnSeat<Held<V, C>, IndexEvent, About<V>>,
    watch: Option<Watch<V>>,
    pub ghost legal: { is_legal_index (seen seat) ≡ true },
    ghost keyed: { option_map (λ w. w.reader.place.me.0.client.keys) watch
        ≡ Some (option_map (λ a. a.keys) (about seat)) },
    ghost book: { option_map (λ w. Some w.mine.seen.book) watch ≡ Some (option_map (λ a. a.head.book) (about seat)) },
    ghost known: { option_map (λ w. take (length (inserts (seen seat))) w.mine.seen.log) watch
        ≡ Some (inserts (seen seat)) },
}

/// One actor's access to a `SnapIndex`.
pub type SnapSeat<V, H> = SharedSeat<V, SnapEnded<V, H>>;

impl<V: Verifier + Drop, C> SharedSeat<V, C> {
    fn into_parts(self) -> (TurnSeat<Held<V, C>, IndexEvent, About<V>>, Option<Watch<V>>)
        ensures seat { result.0 ≡ self.seat }
        ensures watch { result.1 ≡ self.watch }
    {
        let Self { seat, watch } = self;
        (seat, watch)
    }
}

// Written by hand, so that a seat can be dropped whatever the content of the lock is.
impl<V: Verifier + Drop, C> Drop for SharedSeat<V, C> {
    fn drop(self) {
        let Self {
            seat: _seat,
            watch: _watch,
        } = self;
    }
}
