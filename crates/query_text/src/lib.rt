//! Writing queries: the text of a query, which is read as that query.
#![tactic(auto)]

mod constraints;
mod fields;
mod laws;
mod value_tests;
mod writing;

pub use laws::{dates_are_spelled, queries_are_read};
pub use writing::text;
