//! Search words: a line of them asks what a constraint asks (`docs/formats/search_words.md`). Here are the grammar,
//! what is said of a text that isn't read, the laws of both, and the reading of one word.
#![tactic(auto)]

mod asking;
mod buffer;
mod fault;
mod laws;
mod place;
mod word;

pub use buffer::Buffer;
pub use fault::WordsFault;
pub use laws::{faults_are_exact, fronts_are_live, lines_are_read, lines_are_valid};
pub use place::{Aim, Letters, Place, Spot, Use};
pub use word::{Onward, is_bare, is_escaped, wide_step, word_asks, word_step};
