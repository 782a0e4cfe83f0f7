//! Which permanodes hold which values, folded out of the rows of changes.
#![tactic(auto)]

mod attribute_turns;
mod following;
mod late;
mod refolding;
mod settling;
mod turns;
mod value_turns;

pub use following::follow;
pub use refolding::refold;
pub use settling::settle;
