//! What holds for each seat.
ghost use Rattle.std.specs.Prelude.{◌≡◌};
ghost use Rattle.histories.specs.Indexes.{inserts};
ghost use Rattle.home_places.specs.Seats.{IsIndexSight};
ghost use Rattle.turn_index.specs.IndexSeats.{index_sight, index_seat_legal};

use super::IndexSeat;
use claim_verify::Verifier;

/// The history that a seat has seen is legal, its turns rise, and it is shown the Inserts of its history.
pub fn index_seat_is_legal<V: Verifier>(seat: &IndexSeat<V>)
    ensures legal { IsIndexSight (index_sight V.accepts seat.now) }
    ensures shown { (index_sight V.accepts seat.now).shown ≡ inserts (index_sight V.accepts seat.now).history }
{
    let _seat = seat;
}
