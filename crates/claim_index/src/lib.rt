//! An index of facts that come one by one, in any order.
#![tactic(auto)]

mod finishing;
mod following;
mod genuine;
mod index;
mod judging;
mod moving;
mod numbers;
mod rebuilding;
mod soundness;
mod taking;
mod touching;
mod work;

pub use index::{FactList, Index};
pub use index_rows::Made;
