//! The calls of the place.
use super::searching::search_blank;
use super::{SnapIndex, SnapSeat};
use crate::held::jobs::{GiveBack, Insert, Lacking, Take};
use blobref::{NoMemory, Ref, RefList};
use claim_verify::Verifier;
use edge_base::Inserted;
use home_places::IndexPlace;
use schema_fact::Fact;
use search_query::Query;
use std::marker::Brand;
use std::sync::Wait;
use std::sync::ledger::Blank;

/// `take`, `insert`, `give_back`, `lacking` and `join` take one turn each. A search takes none and never waits. It
/// answers over the Inserts that were published when it began.
impl<V: Verifier + Drop, H: Wait + Drop> IndexPlace for SnapIndex<V, H> {
    ghost use Rattle.snap_index.specs.SnapSeats.{IsOfSnap, snap_sight};
    ghost use Rattle.snap_index.specs.Legal.{snap_seat_legal};

    type Seat = SnapSeat<V, H>;

    ghost belongs = { λ p s. IsOfSnap p s };

    ghost sight = { λ s. snap_sight V.accepts s };

    ghost is_legal = { λ s. snap_seat_legal V.accepts s };

    fn take<R: Wait>(
        &self,
        rt: &R,
        seat: &mut SnapSeat<V, H>,
        arrivals: u64,
    ) -> Result<Option<u64>, NoMemory> {
        self.take_turn(rt, seat, Take { arrivals })
    }

    /// It returns after readers see the Insert. Once the Insert is in the history it can't fail: if memory is short, it
    /// waits.
    fn insert<R: Wait>(
        &self,
        rt: &R,
        seat: &mut SnapSeat<V, H>,
        number: u64,
        r: &Ref,
        fact: Fact,
    ) -> Result<Inserted, NoMemory> {
        self.take_turn(rt, seat, Insert { number, r, fact })
    }

    fn give_back<R: Wait>(&self, rt: &R, seat: &mut SnapSeat<V, H>, number: u64) {
        self.take_turn(rt, seat, GiveBack { number });
    }

    fn lacking<R: Wait>(&self, rt: &R, seat: &mut SnapSeat<V, H>, below: u64) -> Option<u64> {
        self.take_turn(rt, seat, Lacking { below })
    }

    fn search(&self, seat: &mut SnapSeat<V, H>, query: &Query) -> Result<RefList, NoMemory> {
        search_blank::<_, _, Brand>(self, seat, query, Blank::new(1))
    }

    fn seen(&self, seat: &SnapSeat<V, H>) -> u64 {
        match &seat.watch {
            Some(watch) => watch.mine.count,
            None => unreachable!(),
        }
    }

    fn join<R: Wait>(&self, rt: &R, into: &mut SnapSeat<V, H>, other: SnapSeat<V, H>) {
        self.join_seats(rt, into, other)
    }
}
