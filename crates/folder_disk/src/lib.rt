//! The packs of a folder as a disk (`docs/formats/packs.md`), on the system's files. What the system does is trusted.
#![tactic(auto)]

mod folder;
mod identity;
mod lines;
mod listing;
mod locking;
mod opening;
mod pack_file;
mod trouble;

pub use folder::{Access, FolderDisk};
pub use pack_file::open_regular;
pub use trouble::{Cause, Trouble};
