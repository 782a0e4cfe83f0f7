//! Writing search words: the line that asks what a constraint asks (`docs/formats/search_words.md`).
#![tactic(auto)]

mod laws;
mod rank;
mod text;
mod word;
mod writing;

pub use laws::{lines_are_read_back, lines_are_written};
pub use writing::words_of;
