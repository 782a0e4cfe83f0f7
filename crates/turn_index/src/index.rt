//! The index in its lock, and its seats.
ghost use Rattle.std.specs.Prelude.{◌≡◌, true, length};
ghost use Rattle.histories.specs.Indexes.{inserts, is_legal_index};
ghost use Rattle.turn_cell.specs.Seats.{seen};

use claim_verify::Verifier;
use histories::IndexEvent;
use index_history::WorkIndex;
use turn_cell::{Told, Turn, TurnSeat};

mod calls;
mod jobs;
mod laws;
mod making;
mod turns;

pub use laws::index_seat_is_legal;

/// The index, the content of the lock.
#[derive(Drop)]
pub struct KeptIndex<V: Verifier> {
    pub index: WorkIndex<V>,
}

impl<V: Verifier> Told for KeptIndex<V> {
    ghost use Rattle.std.specs.Prelude.{[]};
    ghost use Rattle.histories.specs.Indexes.{is_legal_index};
    ghost use Rattle.index_history.specs.Represents.{IndexRepresents};

    type Entry = IndexEvent;

    type About = V;

    ghost about = { λ k. k.index.index.keys };

    ghost tells = { λ k h. IndexRepresents k.index h };

    ghost begins = { λ k. [] };

    ghost legal = { λ keys h. is_legal_index h };

    ghost is_legal = { λ k h t. t.numbers.legal };
}

/// An index that several seats share, with the calls of a place (`docs/core.md`). Here a search takes a turn, and a
/// join takes none. Therefore it isn't an `IndexPlace`, whose searches take no turn (`snap_index`). A seat is shown
/// exactly the Inserts of its history.
#[derive(Drop)]
pub struct TurnIndex<V: Verifier> {
    turn: Turn<KeptIndex<V>>,
}

/// One actor's access to a `TurnIndex`: the history of the index that it has seen, the turns that it drew, and the
/// number of Inserts in that history. It has eight bytes.
#[derive(Drop)]
pub struct IndexSeat<V: Verifier> {
    seat: TurnSeat<KeptIndex<V>, IndexEvent, V>,
    count: u64,
    pub ghost legal: { is_legal_index (seen seat) ≡ true },
    ghost counted: { count ≡ length (inserts (seen seat)) },
}
