//! Who gets in by a socket (`docs/server.md`, "Who gets in"): a function of the bytes with which a connection begins.
#![tactic(auto)]

mod admission;
mod browsers;
mod foreign;
mod texts;

pub use admission::{Admission, Door, MAX_HEAD, admission_of};
