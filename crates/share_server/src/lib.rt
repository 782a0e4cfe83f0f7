//! Serves the shares of a store to the connections of a listener, one after the other (`docs/shares.md`).
#![tactic(auto)]

mod accepting;
mod gating;
mod serving;

pub use serving::serve_shares;
pub use top_frame::Status;
