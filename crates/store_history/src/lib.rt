//! The calls on a store of packs in one turn, over the history that the store represents (`docs/core.md`). There is no
//! lock here: the contract of each call says which entry it adds to that history, and that its answer is that of
//! `histories`.
#![tactic(auto)]

mod asking;
mod beginning;
mod finding;
mod putting;
mod together;

pub use asking::{count, list, once, stat};
pub use beginning::represents_beginning;
pub use finding::{check, check_arrival, find, find_number};
pub use putting::put;
pub use together::{check_all, find_numbers};
