//! Notes: blobs that a key signs, and the commands that store them: `permanode DIR`, `claim DIR`, `delete DIR` and
//! `multi DIR`.
#![tactic(auto)]

mod claims;
mod multi_claims;
mod notes;
mod permanodes;
mod storing;

pub use claims::{claim, delete};
pub use multi_claims::multi;
pub use permanodes::permanode;
