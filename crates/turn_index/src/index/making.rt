//! Makes the place and its seats.
ghost use Rattle.std.specs.Prelude.{◌≡◌, [], IfOk, IfErr};
ghost use Rattle.home_places.specs.Showing.{shown_alone};
ghost use Rattle.turn_index.specs.IndexSeats.{IsOfIndex, index_sight};

use super::{IndexSeat, KeptIndex, TurnIndex};
use blobref::NoMemory;
use claim_verify::Verifier;
use index_history::WorkIndex;
use std::alloc::Global;
use turn_cell::Turn;

impl<V: Verifier + Drop> TurnIndex<V> {
    /// An index of no facts over these keys, in a lock, and its first seat. The seat has seen nothing and drew no turn.
    pub fn make(alloc: Global, keys: V) -> Result<(TurnIndex<V>, IndexSeat<V>), NoMemory>
        ensures own { IfOk result (λ r. IsOfIndex r.0 r.1) }
        ensures seat { IfOk result (λ r. index_sight V.accepts r.1 ≡ shown_alone [] [] (V.accepts keys)) }
    {
        let kept = KeptIndex {
            index: WorkIndex::fresh(alloc, keys),
        };
        match Turn::make(alloc, kept) {
            Ok((turn, seat)) => Ok((TurnIndex { turn }, IndexSeat { seat, count: 0 })),
            Err(_) => Err(NoMemory),
        }
    }
}

impl<V: Verifier> TurnIndex<V> {
    /// A second seat, which has seen the same and drew no turn. It takes no turn and no memory.
    pub fn split(&self, seat: &mut IndexSeat<V>) -> IndexSeat<V>
        requires { IsOfIndex self.now seat.old }
        ensures own { IsOfIndex self.now seat.new }
        ensures same { index_sight V.accepts seat.new ≡ index_sight V.accepts seat.old }
        ensures own_second { IsOfIndex self.now result }
        ensures second { index_sight V.accepts result ≡ record (index_sight V.accepts seat.old) { turns = [] } }
    {
        IndexSeat {
            seat: self.turn.split(&mut seat.seat).unwrap(),
            count: seat.count,
        }
    }
}
