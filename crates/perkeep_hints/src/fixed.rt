//! What a person can do after a status, where that is one of a few texts.
use crate::search_text::hint_of_words;
use blobref::Text;
use top_frame::{InputFault, ReplyFault, Status};

/// What a person can do after a status, where one of a few texts says it, whatever the folder.
pub fn fixed_hint(status: &Status, words: &[Text]) -> Option<&'static str> {
    match status {
        Status::BadInput(InputFault::Words(fault)) => Some(hint_of_words(fault, words)),
        Status::BadInput(InputFault::TooBig { .. }) if is_put(words) => {
            Some(
                "standard input is longer than a blob may be, 16 MiB; perkeep put-file stores files of any length",
            )
        }
        Status::BadInput(fault) => hint_of_input(fault),
        Status::Disk => Some("the folder, or a file in it, can't be read or written"),
        Status::ReadFault => Some("standard input is closed, is a folder, or can't be read"),
        Status::WriteFault => Some(
            "standard output can't be written: its reader has ended, or no space is left for it",
        ),
        Status::Peer => Some(
            "no server answers there, or the connection broke: is perkeep serve running there?",
        ),
        Status::BadReply(fault) => Some(hint_of_reply(fault)),
        Status::Full { .. } => Some("the store has as many blobs or packs as it may have"),
        Status::ListenerFault => Some(
            "the port is in use, or no connection could be accepted; --port takes another one",
        ),
        _ => None,
    }
}

fn is_put(words: &[Text]) -> bool {
    match words.first() {
        Some(command) => command.as_str() == "put",
        None => false,
    }
}

fn hint_of_input(fault: &InputFault) -> Option<&'static str> {
    match fault {
        InputFault::BadRef => Some("an argument that should be a blobref isn't one"),
        InputFault::BadDate => Some(
            "an argument that should be a date, as 2026-12-01T09:00:00Z, isn't one",
        ),
        InputFault::BadNumber => {
            Some("COUNT takes a number from 1 to 100,000, and START one from 0 to 2^64 - 1")
        }
        InputFault::TooBig { .. } => Some("standard input is longer than allowed"),
        InputFault::NotAFile { .. } => {
            Some("a blob that should be a file, or a part of one, isn't one")
        }
        InputFault::Short { .. } | InputFault::Deep { .. } => {
            Some("the blobs of the file don't fit together")
        }
        InputFault::TooLong { .. } => Some("a value, a file or a query is longer than allowed"),
        InputFault::BadChanges => Some(
            "standard input isn't a list of changes, as [{\"changeType\":\"add-attribute\",\"permaNode\":\"REF\",\
            \"attribute\":\"tag\",\"value\":\"letters\"}] is",
        ),
        InputFault::BadName | InputFault::NoKey | InputFault::BadQuery(_) | InputFault::Words(_) =>
            None,
    }
}

fn hint_of_reply(fault: &ReplyFault) -> &'static str {
    match fault {
        ReplyFault::Grammar => {
            "no whole reply of perkeep serve came: it was stopped, or another program listens there"
        }
        ReplyFault::Refused { .. } => {
            "it refuses: its disk failed, its store is full, or another program listens there"
        }
        ReplyFault::Gone { .. } => "it lists a blob that it doesn't have",
    }
}
