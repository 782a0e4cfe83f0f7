//! An index that keeps only its facts, and computes each answer directly by the definitions.
#![tactic(auto)]

mod index;

pub use index::{FactList, PlainIndex};
