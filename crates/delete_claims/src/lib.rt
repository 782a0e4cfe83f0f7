//! Which blobs are deleted, updated as delete claims arrive.
#![tactic(auto)]

mod entering;
mod flipping;

pub use entering::enter;
