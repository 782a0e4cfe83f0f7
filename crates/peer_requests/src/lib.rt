//! The requests that a client writes to a peer over HTTP.
#![tactic(auto)]

mod boundaries;
mod free_number;
mod marks;
mod requests;

pub use requests::{fetch_request, list_request, upload_request};
