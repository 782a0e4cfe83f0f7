//! What a person at a terminal is shown of search words that aren't read.
use blobref::{NoMemory, Text};
use perkeep_words::Line;
use search_words::WordsFault;
use std::alloc::Global;
use top_frame::{InputFault, Status};

// How many characters of search words are shown, and at most how many of these before the place where they go wrong.
const SHOWN: usize = 60;

const SHOWN_BEFORE: usize = 30;

// What may be done where words are no line of `words`, since its search words are several words or begin with a dash;
// None where it isn't seen that this is so.
pub(crate) fn quoting_hint(words: &[Text]) -> Option<&'static str> {
    let (command, behind) = words.split_first()?;
    if command.as_str() == "words" && has_loose_text(behind) {
        Some(
            "TEXT is one argument: put single quotes around it, as 'tag:a title:\"on the way\"', \
            and -- before it if it begins with a dash",
        )
    } else {
        None
    }
}

// Whether there are more positions than DIR and TEXT, or a word begins with a single dash; not where an option is there
// that the command doesn't have.
fn has_loose_text(words: &[Text]) -> bool {
    let is_option = |word: &&Text| word.as_str().starts_with("--");
    let is_strange = |word: &Text| {
        let word = word.as_str();
        word == "-at"
            || word.starts_with("--")
                && !(word == "--" || word == "--at" || word.starts_with("--at="))
    };
    let positions = words.iter().filter(|word| !is_option(word)).count();
    let values = words.iter().filter(|word| word.as_str() == "--at").count();
    let dashed = |word: &Text| word.as_str().starts_with('-') && !word.as_str().starts_with("--");
    !words.iter().any(is_strange)
        && (positions.saturating_sub(values) > 2 || words.iter().any(dashed))
}

/// What is around the place where the search words of a line go wrong, by the status; None where they don't, and where
/// no memory is left.
pub fn excerpt_of(alloc: Global, status: &Status, words: &[Text]) -> Option<Excerpt> {
    match status {
        Status::BadInput(InputFault::Words(WordsFault::Bad { at })) => {
            Excerpt::of(alloc, searched_text(words)?, *at).ok()
        }
        _ => None,
    }
}

/// The search words of the line that the words are.
pub(crate) fn searched_text(words: &[Text]) -> Option<&str> {
    Line::read(words)?.search_words()
}

/// What is around a place in a text, with control characters by their numbers.
#[derive(Drop)]
pub struct Excerpt {
    pub before: String,
    pub after: String,
    /// As many spaces as `before` has characters.
    pub indent: String,
}

impl Excerpt {
    fn of(alloc: Global, text: &str, at: u64) -> Result<Excerpt, NoMemory> {
        let place = text
            .char_indices()
            .filter(|(place, _)| (*place as u64) < at)
            .count();
        let most_before = text.chars().count().saturating_sub(SHOWN);
        let start = place.saturating_sub(SHOWN_BEFORE).min(most_before);
        let length = place.saturating_sub(start);
        let before = shown(alloc, text, start, length)?;
        Ok(Excerpt {
            after: shown(alloc, text, place, SHOWN.saturating_sub(length))?,
            indent: spaces(alloc, before.chars().count())?,
            before,
        })
    }
}

// So many characters of a text from one of them on, or up to its end, with control characters by their numbers.
fn shown(alloc: Global, text: &str, start: usize, length: usize) -> Result<String, NoMemory> {
    let mut shown = String::new(alloc);
    for c in text.chars().skip(start).take(length) {
        if c.is_control() {
            shown.push_str(&format!(in alloc; "\\u{{{:x}}}", u32::from(c))?)?;
        } else {
            shown.push(c)?;
        }
    }
    Ok(shown)
}

fn spaces(alloc: Global, count: usize) -> Result<String, NoMemory> {
    let mut spaces = String::new(alloc);
    for _ in 0..count {
        spaces.push(' ')?;
    }
    Ok(spaces)
}
