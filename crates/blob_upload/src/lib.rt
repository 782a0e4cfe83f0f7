//! The body of an upload, put part by part into a home.
#![tactic(auto)]

mod feeding;
mod laws;
mod opened;
mod parts;
mod service;
mod upload_end;
mod uploading;

pub use laws::{fronts_of_bodies, uploads_add, uploads_come, uploads_so_far};
pub use service::Service;
pub use upload_end::UploadEnd;
pub use uploading::take_parts;
