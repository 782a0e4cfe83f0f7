//! Reading search words: a line of them as a constraint, or why it isn't read (`docs/formats/search_words.md`).
#![tactic(auto)]

mod depth;
mod form;
mod joining;
mod reading;

pub use reading::read_words;
