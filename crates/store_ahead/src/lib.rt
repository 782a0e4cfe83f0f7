//! A store whose blobs are read and checked several at a time.
#![tactic(auto)]

mod next;
mod store_ahead;

pub use store_ahead::StoreAhead;
