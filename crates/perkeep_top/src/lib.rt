//! The program, from its words to its bytes.
#![tactic(auto)]

mod commands;
mod laws;
mod running;
mod steps;

pub use laws::{stored_notes_count, valid_runs_end_well};
pub use running::{readers_put_nothing, run};
pub use store_peer::StorePeer;
pub use top_frame::{InputFault, LIMITS, ReplyFault, Status};
