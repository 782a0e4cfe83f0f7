//! What a constraint asks, and which refs meet it, over any index.
#![tactic(auto)]

mod kin;
mod leaves;
mod marks;
mod meeting;
mod parents;
mod testing;
mod valuing;

pub use meeting::met;
pub use parents::live_permanodes;
