//! What a person at a terminal is told of how the program ended: texts, by the status, the words and what was seen of
//! the folder (`docs/commands.md`, "On a terminal").
#![tactic(auto)]

mod bad_keyring;
mod blame;
mod excerpt;
mod fixed;
mod lines;
mod misfits;
mod options;
mod peers;
mod search_text;
mod seeking;

pub use bad_keyring::BadKeyring;
pub use blame::{Seen, blamed, keyring_text};
pub use excerpt::{Excerpt, excerpt_of};
pub use fixed::fixed_hint;
pub use peers::is_address;
pub use seeking::{found_no_note, no_note_text, seeks_notes};
