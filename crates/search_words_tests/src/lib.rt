//! Tests of search words: the worked lines of `docs/formats/search_words.md`.
#![tactic(auto)]

#[cfg(test)]
mod asked_lines;
