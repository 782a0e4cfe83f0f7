//! The texts of answers, written and read.
#![tactic(auto)]

mod entries;
mod fields;
mod listed;
mod listings;
mod reading;
mod refusal;
mod refusals;
mod search;

pub use listings::{page_text, stat_text, upload_text};
pub use reading::{AnswerFault, read_page, read_received};
pub use refusal::{BadKind, Refusal};
pub use refusals::refusal_text;
pub use search::search_text;
