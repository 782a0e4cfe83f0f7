//! The rows that an index keeps, in tables by key.
#![tactic(auto)]

mod change_rows;
mod deletion;
mod fact_rows;
mod holder_rows;
mod loose_rows;
mod ordered_facts;
mod pair_rows;
mod ref_rows;
mod removal_rows;
mod rows;

pub use change_rows::{ChangeRows, Moment};
pub use deletion::{deleted_at, has_deleters};
pub use fact_rows::FactRows;
pub use holder_rows::{HolderKey, HolderRows, one_more};
pub use loose_rows::{LooseRows, Made};
pub use ordered_facts::OrderedFacts;
pub use pair_rows::PairRows;
pub use ref_rows::RefRows;
pub use removal_rows::{RemovalRows, mark_of, removal_mark};
pub use rows::{Rows, StateRow};
