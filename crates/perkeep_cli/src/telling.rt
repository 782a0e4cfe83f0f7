//! What the program says of its end.
use crate::console::Console;
use crate::ending::Ending;
use crate::hints::file_to_blame;
use crate::keys::{has_keyring, is_there};
use blobref::Text;
use perkeep_hints::{Seen, blamed, excerpt_of, fixed_hint, keyring_text};
use std::io;

/// Tells how the program ended: by its word, and to a person at a terminal also what is to blame, or what may be done.
pub(crate) fn tell(
    console: &Console<'_>,
    ending: &Ending,
    words: &[Text],
    folder: &str,
) -> io::Result<()> {
    let rt = console.rt();
    let word = ending.status().word();
    if !console.screen().is_shown() {
        return rt.eprintln(format_args!("perkeep: {word}"));
    }
    if let Some(hint) = found_hint(console, ending, words, folder) {
        return rt.eprintln(format_args!("perkeep: {word} ({hint})"));
    }
    match fixed_hint(ending.status(), words) {
        Some(hint) => rt.eprintln(format_args!("perkeep: {word} ({hint})")),
        None => rt.eprintln(format_args!("perkeep: {word}")),
    }?;
    match excerpt_of(rt.alloc(), ending.status(), words) {
        Some(excerpt) => rt.eprintln(format_args!(
            "{}{}\n{}^",
            excerpt.before, excerpt.after, excerpt.indent
        )),
        None => Ok(()),
    }
}

// What is to blame, where that is seen in the folder, the words or the status.
fn found_hint(
    console: &Console<'_>,
    ending: &Ending,
    words: &[Text],
    folder: &str,
) -> Option<String> {
    let rt = console.rt();
    if let Some(fault) = ending.keyring() {
        return keyring_text(rt.alloc(), folder, fault);
    }
    if let Some(file) = file_to_blame(rt, folder, ending.status()) {
        return Some(file);
    }
    let seen = Seen {
        folder,
        cause: console.trouble().cause(),
        is_there: is_there(rt, folder),
        has_keyring: has_keyring(rt, folder),
        peer: ending.peer(),
    };
    blamed(rt.alloc(), ending.status(), words, seen)
}
