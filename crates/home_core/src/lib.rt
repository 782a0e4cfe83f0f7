//! The core of a store with its index: what each event does and what is replied, over plain lists (`docs/core.md`).
//! What any server or library does with many sessions comes down to this.
#![tactic(auto)]

mod events;
mod lists;
mod numbers;
mod running;
mod searching;
mod stepping;
mod storing;
mod telling;

pub use events::{Event, EventList, Reply, ReplyList};
pub use home_places::{Home, IndexPlace, Indexed, StorePlace};
pub use lists::Seen;
pub use running::after;
pub use stepping::Core;
