//! Which commands search for notes, and what is said where they find none.
use blobref::Text;
use std::alloc::Global;

// How long the answer without a blob is, with its line feed (`docs/formats/answers.md`).
const EMPTY_ANSWER: u64 = 13;

/// Whether the words are those of a command that searches a store for notes.
pub fn seeks_notes(words: &[Text]) -> bool {
    match words.first() {
        Some(command) => matches!(command.as_str(), "search" | "words" | "query"),
        None => false,
    }
}

/// Whether a command that has succeeded, and has written so many bytes, searched for notes and found none.
pub fn found_no_note(words: &[Text], written: u64) -> bool {
    seeks_notes(words) && written == EMPTY_ANSWER
}

/// What may be wrong with a folder in which no note is found, where one should be.
pub fn no_note_text(alloc: Global, folder: &str) -> Option<String> {
    format!(in alloc;
        "nothing was found; notes are found only with the key that signed them, in {folder}/keyring; \
        perkeep salvage {folder} says whether a pack is damaged"
    )
    .ok()
}
