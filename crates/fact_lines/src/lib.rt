//! Facts of the blobs of a store, of a pack or of a generated store, and the lines that commands write about them:
//! answers to searches, and a comparison of two indexes. How a command runs, and with which status it ends, is for its
//! callers (`docs/commands.md`).
#![tactic(auto)]

mod blobs;
mod incoming;
mod load;
mod search;

pub use blobs::store_facts;
pub use incoming::source_facts;
pub use load::load_text;
pub use search::{query_line, search_line};
