//! A store of packs that threads share: a place in a lock that gives out turns (`docs/core.md`, `docs/turns.md`).
#![tactic(auto)]

mod store;
mod threads;

pub use store::{StoreSeat, TurnStore};
pub use threads::threads_share_a_store;
