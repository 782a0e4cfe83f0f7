//! What is wrong with search words, by their text and the place at which they go wrong.
use crate::excerpt::searched_text;
use blobref::Text;
use search_words::WordsFault;

/// What is wrong with the search words of the line that the words are.
pub(crate) fn hint_of_words(fault: &WordsFault, words: &[Text]) -> &'static str {
    match fault {
        WordsFault::TooLong { .. } => "TEXT is longer than 1,024 bytes",
        WordsFault::TooDeep => "TEXT nests constraints more than 32 deep",
        WordsFault::Bad { at } => hint_at(searched_text(words).unwrap_or(""), *at),
        WordsFault::NoMemory => QUOTES,
    }
}

const QUOTES: &str =
    "from the mark on TEXT can't be read as search words; it is typed with both kinds of quotes, \
    as 'tag:a title:\"on the way\"'";

// What is wrong with a text of which so many bytes begin a line.
fn hint_at(text: &str, at: u64) -> &'static str {
    if text.is_empty() {
        "TEXT is empty: give it a search word, as tag:letters"
    } else if (text.len() as u64) <= at {
        "something is missing at the end of TEXT: a search word, a value, a quote or a )"
    } else if joins(word_at(text, at)) {
        "or is written in lower case; a space alone means and, and - before a search word means not"
    } else if has_colon_before(text, at) {
        QUOTES
    } else {
        "the word at the mark isn't a search word; those are tag:, title:, attr:NAME:, has:, ref: and childrenof:, \
        as in title:Letters"
    }
}

// The word of a text that is at a place, where spaces separate words; empty after the last one.
fn word_at(text: &str, at: u64) -> &str {
    let mut end = 0u64;
    for word in text.split(' ') {
        end = end.saturating_add(word.len() as u64).saturating_add(1);
        if at < end {
            return word;
        }
    }
    ""
}

// Whether other search languages join words by this one.
fn joins(word: &str) -> bool {
    matches!(
        word,
        "OR" | "AND" | "NOT" | "Or" | "And" | "Not" | "and" | "not"
    )
}

// Whether a colon is among the first so many bytes.
fn has_colon_before(text: &str, at: u64) -> bool {
    for (place, c) in text.char_indices() {
        if (place as u64) >= at {
            return false;
        }
        if c == ':' {
            return true;
        }
    }
    false
}
