//! Reading queries: the first fault of a text, or the query that it is.
#![tactic(auto)]

mod constraints;
mod fault;
mod laws;
mod leaves;
mod objects;
mod reading;
mod value_tests;

pub use fault::QueryFault;
pub use laws::{tables_ascend, what_is_read_is_valid};
pub use reading::read;
