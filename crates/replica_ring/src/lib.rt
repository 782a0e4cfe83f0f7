//! Stores that exchange blobs in pairs until they are equal, as a model that runs, and its laws.
#![tactic(auto)]

mod events;
mod giving;
mod laws;
mod pulling;
mod ring;

pub use events::{RingEvent, RingEventList};
pub use laws::{
    events_keep, events_keep_valid, full_pulls_join, join_is_union, others_change_nothing,
    rounds_join,
};
pub use ring::{Ring, run_ring};
