//! The refs of a peer, listed page by page, and which refs of a page another peer lacks.
#![tactic(auto)]

mod lacking;
mod pages;

pub use lacking::{ask_once, lacking_of};
pub use pages::{PAGE, last_ref};
