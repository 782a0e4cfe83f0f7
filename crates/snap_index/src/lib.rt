//! An index that several seats share, whose searches wait for no lock (`docs/core.md`, `docs/turns.md`). It has two
//! copies (`snap_copies`). A call that changes the index takes a turn, changes the copy that no reader is in, and
//! publishes it; a search reads the copy that was published last.
#![tactic(auto)]

mod held;
mod seat;
mod threads;

pub use held::{About, Held, SnapHeld};
pub use seat::{SharedIndex, SharedSeat, SnapIndex, SnapSeat};
pub use threads::threads_share_an_index;
