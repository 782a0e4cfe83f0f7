//! An index that threads share: a place in a lock that gives out turns (`docs/core.md`, `docs/turns.md`). The server
//! has a place of two copies instead, whose searches wait for no turn.
#![tactic(auto)]

mod index;
mod threads;

pub use index::{IndexSeat, TurnIndex, index_seat_is_legal};
pub use threads::threads_share_an_index;
