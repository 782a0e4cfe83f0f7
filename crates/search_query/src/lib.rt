//! Queries: what a search asks for.
#![tactic(auto)]

mod query;

pub use query::{
    Constraint, FileTest, IntTest, Kin, Logical, Op, PermanodeTest, Query, Relation, Sort, TextTest,
};
