//! The answers of an index over any table of facts, straight from their definitions.
#![tactic(auto)]

mod answers;
mod attributes;
mod deletion;
mod known;
mod readiness;
mod trees;
mod walk;

pub use answers::{
    deleted, fact_known, fact_of, file_size, holders, is_permanode, last_change, parents,
    permanode_after, size_known, values,
};
