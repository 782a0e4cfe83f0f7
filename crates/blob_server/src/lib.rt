//! Serves the connections of listeners over any home, by workers and indexers in threads.
#![tactic(auto)]

mod attending;
mod counting;
mod desk_list;
mod serving;
mod sharing;

pub use desk_list::{Desk, desks};
pub use serving::serve_all;
pub use top_frame::Status;
