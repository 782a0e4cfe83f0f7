//! Files are cut into blobs, which are kept one after the other.
#![tactic(auto)]

mod draft;
mod fault;
mod group;
mod laws;
mod pieces;
mod writing;

pub use fault::CutFault;
pub use laws::{blobs_in_order, written_is_source};
pub use pieces::read_piece;
pub use writing::{MAX_FILE, MAX_NAME, write_file};
