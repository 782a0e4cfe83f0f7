//! Shares: what a blob says as one, what blobs link to, and which paths of refs are served. The definitions are in
//! `specs/`; `docs/shares.md` tells them.
#![tactic(auto)]

mod laws;
mod links;
mod reading;
mod share;
mod verdict;

pub use laws::{served_is_held, share_is_reached, shares_are_unread};
pub use links::links_of;
pub use reading::share_in;
pub use share::Share;
pub use verdict::{Rule, Verdict};
