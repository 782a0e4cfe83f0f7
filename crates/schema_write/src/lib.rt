//! Schema blobs, written from what they are to say.
#![tactic(auto)]

mod changes;
mod draft;
mod files;
mod generated;
mod laws;
mod signing;

pub use draft::DraftFault;
pub use files::{bytes_blob, file_blob};
pub use generated::{OctetsList, load_blobs};
pub use laws::{files_are_read, keys_are_read, signed_are_read};
pub use signing::{claim_payload, key_blob, permanode_payload, signed};
