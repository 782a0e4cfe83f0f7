//! What every index answers, over which tables of facts, and what single facts give to it.
#![tactic(auto)]

pub mod claim;
mod known;
mod laws;
mod look;
mod table;
pub mod tree;
pub mod values;

pub use known::Known;
pub use laws::equal_maps_give_equal_answers;
pub use look::Look;
pub use table::FactTable;
