//! What every place of a store, every place of an index, and every home of the two promises (`docs/core.md`): traits
//! alone, so that whoever keeps or serves them stands on no store and on no index.
#![tactic(auto)]

mod home;
mod places;

pub use home::{Home, Indexed};
pub use places::{IndexPlace, StorePlace};
