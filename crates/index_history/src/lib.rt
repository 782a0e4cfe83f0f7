//! The calls on an index in one turn, with the numbers that workers have in hand (`docs/core.md`, `docs/turns.md`).
#![tactic(auto)]

mod uncounted;
mod work_index;

pub use work_index::WorkIndex;
