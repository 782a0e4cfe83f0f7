//! A store and an index that threads share: places in locks that give out turns (`docs/core.md`, `docs/turns.md`). They
//! are those of `turn_store` and `turn_index`, under one name.
#![tactic(auto)]

pub use turn_index::{IndexSeat, TurnIndex, index_seat_is_legal, threads_share_an_index};
pub use turn_store::{StoreSeat, TurnStore, threads_share_a_store};
