//! The home of one actor: a core whose events are the calls of a home (`docs/core.md`). Tests and proofs of whoever
//! serves are run over it, where no thread and no lock is wanted.
#![tactic(auto)]

mod home;
mod indexing;
mod pass;
mod reading;
mod storing;
mod turns;

pub use home::CoreHome;
pub use pass::CorePass;
pub use turns::Turns;
