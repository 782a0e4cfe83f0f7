//! The answers that the tables of an index give while nothing is left to do.
#![tactic(auto)]

mod answers;
mod folding;
mod said;

pub use answers::{
    deleted, fact_of, file_size, is_genuine_permanode, last_change, parents, permanode_after,
    values,
};
pub use folding::{fold_at, last_change_at};
pub use said::{says_genuine, says_sound};
