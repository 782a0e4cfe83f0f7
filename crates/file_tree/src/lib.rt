//! Files as trees of blobs, read to a sink.
#![tactic(auto)]

mod fault;
mod laws;
mod opening;
mod part_shelf;
mod reading;
mod zeros;

pub use fault::FileFault;
pub use laws::{
    fetched_blobs_are_one_map, fetched_files_are_walked, refusals_are_answered,
    sound_files_are_read,
};
pub use part_shelf::PartShelf;
pub use reading::read_file;
