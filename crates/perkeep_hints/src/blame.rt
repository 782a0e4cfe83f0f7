//! What is to blame for a status, where it says more than a fixed text. Where no memory is left there is no such text.
use crate::bad_keyring::BadKeyring;
use crate::misfits::words_text;
use crate::options::value_of;
use crate::peers::{address_in, reply_text, way_text};
use blobref::{Ref, RefText, Text};
use claim_verify::KeyName;
use folder_disk::Cause;
use perkeep_words::CommandName;
use query_read::QueryFault;
use std::alloc::Global;
use top_frame::{InputFault, Status};

/// What was seen of the folder of a run, and of its peers.
#[derive(Clone, Copy)]
pub struct Seen<'a> {
    pub folder: &'a str,
    /// Why its disk failed.
    pub cause: Cause,
    /// Whether something is there under its name.
    pub is_there: bool,
    /// Whether something in it has the name of a keyring.
    pub has_keyring: bool,
    /// The address of the peer that is to blame, where one of several is.
    pub peer: Option<&'a str>,
}

/// What is to blame for a status, by the words and what was seen of the folder; None where these don't say it.
pub fn blamed(alloc: Global, status: &Status, words: &[Text], seen: Seen<'_>) -> Option<String> {
    match status {
        Status::BadWords => words_text(alloc, words),
        Status::Absent { r } => absent_text(alloc, words, seen.folder, r),
        Status::Damaged { want, is } => damaged_text(alloc, seen.folder, want, is),
        Status::Disk => disk_text(alloc, seen.folder, seen.cause),
        Status::Peer => way_text(alloc, peer_of(words, seen)?),
        Status::BadReply(fault) => reply_text(alloc, peer_of(words, seen)?, fault),
        Status::ListenerFault => port_text(alloc, words),
        Status::BadInput(fault) => input_text(alloc, fault, words, seen),
        _ => None,
    }
}

// The address of the peer that is to blame.
fn peer_of<'a>(words: &'a [Text], seen: Seen<'a>) -> Option<&'a str> {
    match seen.peer {
        Some(peer) => Some(peer),
        None => address_in(words),
    }
}

fn input_text(alloc: Global, fault: &InputFault, words: &[Text], seen: Seen<'_>) -> Option<String> {
    match fault {
        InputFault::BadRef => no_ref_text(alloc, words),
        InputFault::BadNumber => number_text(alloc, words),
        InputFault::NotAFile { r } => no_file_text(alloc, r),
        InputFault::BadDate => date_text(alloc, words),
        InputFault::BadName => name_text(alloc, words),
        InputFault::BadQuery(fault) => query_text(alloc, fault),
        InputFault::NoKey => key_text(alloc, words, seen),
        _ => None,
    }
}

// The ref that the store lacks, and whether the words name it.
fn absent_text(alloc: Global, words: &[Text], folder: &str, lacks: &Ref) -> Option<String> {
    let lacks = lacks.spell();
    let lacks = spelled(&lacks);
    if words.iter().any(|word| word.as_str() == lacks) {
        format!(in alloc;
            "the store has no blob {lacks}; perkeep salvage {folder} says whether a pack is damaged"
        ).ok()
    } else {
        format!(in alloc;
            "the file needs {lacks}, which the store lacks: see perkeep salvage {folder}, and your backup"
        ).ok()
    }
}

// Which ref was wanted, and which one the bytes have.
fn damaged_text(alloc: Global, folder: &str, want: &Ref, is: &Ref) -> Option<String> {
    let want = want.spell();
    let is = is.spell();
    let (want, is) = (spelled(&want), spelled(&is));
    format!(in alloc;
        "the bytes stored as {want} have the ref {is}; perkeep salvage {folder} says which blobs are undamaged"
    ).ok()
}

fn spelled(text: &RefText) -> &str {
    str::from_utf8(text.as_slice()).unwrap_or("")
}

// That a port is taken.
fn port_text(alloc: Global, words: &[Text]) -> Option<String> {
    let port = value_of(words, "port")?;
    format!(in alloc;
        "port {port} is in use, or no connection could be accepted; --port takes another one"
    ).ok()
}

// Which text is no blobref, and what one looks like.
fn no_ref_text(alloc: Global, words: &[Text]) -> Option<String> {
    let text = match value_of(words, "after") {
        Some(text) => text,
        None => ref_in(words)?,
    };
    format!(in alloc;
        "{text:?} isn't a blobref: sha224- and 56 digits, 0 to 9 and a to f, as perkeep list prints them"
    ).ok()
}

// The position that should be a blobref.
fn ref_in(words: &[Text]) -> Option<&str> {
    let (command, behind) = words.split_first()?;
    let command = CommandName::of(command.as_str())?;
    let place = if command == CommandName::Claim { 2 } else { 1 };
    command.form().right_position(behind, place)
}

// That a number of refs is none, or out of its range.
fn number_text(alloc: Global, words: &[Text]) -> Option<String> {
    let limit = value_of(words, "limit")?;
    format!(in alloc; "--limit takes a number from 1 to 4,194,304, not {limit:?}").ok()
}

// Which blob is no file.
fn no_file_text(alloc: Global, r: &Ref) -> Option<String> {
    let r = r.spell();
    let r = spelled(&r);
    format!(in alloc;
        "{r} isn't a file: a note's file is its camliContent, and examples/get_tree.py restores a folder"
    ).ok()
}

// Which date is none, and what one looks like.
fn date_text(alloc: Global, words: &[Text]) -> Option<String> {
    let date = value_of(words, "at")?;
    format!(in alloc;
        "{date:?} isn't a date: a date has a time and a zone, as 2026-12-01T09:00:00Z, or with +01:00 for Z"
    ).ok()
}

// What is wrong with a query, and where.
fn query_text(alloc: Global, fault: &QueryFault) -> Option<String> {
    match fault {
        QueryFault::NotJson | QueryFault::NoMemory => {
            format!(in alloc; "standard input isn't a query: NotJson").ok()
        }
        QueryFault::BadKey { at } => query_fault_text(alloc, "BadKey", at),
        QueryFault::BadValue { at } => query_fault_text(alloc, "BadValue", at),
        QueryFault::TooDeep { at } => query_fault_text(alloc, "TooDeep", at),
    }
}

fn query_fault_text(alloc: Global, kind: &str, at: &Text) -> Option<String> {
    let at = at.as_str();
    if is_date_place(at) {
        format!(in alloc;
            "standard input isn't a query: {kind} at {at:?}: a date has a time and a zone, as 2026-12-01T09:00:00Z"
        ).ok()
    } else {
        format!(in alloc; "standard input isn't a query: {kind} at {at:?}").ok()
    }
}

// Whether a query has a date at a place.
fn is_date_place(at: &str) -> bool {
    at == "at" || at.ends_with("/at")
}

// Which name is none: that of the key that the words have, or an attribute's.
fn name_text(alloc: Global, words: &[Text]) -> Option<String> {
    match value_of(words, "key") {
        Some(key) if KeyName::read(key.as_bytes()).is_none() => {
            format!(in alloc;
                "{key:?} can't be a key's name: that is 1 to 64 characters, each a to z, 0 to 9 or -"
            ).ok()
        }
        _ => format!(in alloc; "the name of an attribute is empty").ok(),
    }
}

// Which key the keyring of a folder doesn't hold, or that there is no keyring, or no folder.
fn key_text(alloc: Global, words: &[Text], seen: Seen<'_>) -> Option<String> {
    let folder = seen.folder;
    if folder.is_empty() {
        no_folder_text(alloc)
    } else if !seen.is_there {
        format!(in alloc; "{folder} doesn't exist: is its name mistyped?").ok()
    } else if seen.has_keyring {
        let key = value_of(words, "key").unwrap_or("");
        format!(in alloc;
            "{folder}/keyring has no key {key}: each of its lines begins with a key's name"
        ).ok()
    } else {
        no_keyring_text(alloc, folder, value_of(words, "key").unwrap_or("me"))
    }
}

// That there is no keyring, and how one with a key is made.
fn no_keyring_text(alloc: Global, folder: &str, key: &str) -> Option<String> {
    format!(in alloc;
        "{folder}/keyring doesn't exist: copy the archive's, since notes are found only with the key \
        that signed them; only for a new archive make one, with (umask 077; \
        printf '{key} %s\\n' \"$(openssl rand -hex 32)\" > '{folder}/keyring')"
    )
    .ok()
}

fn no_folder_text(alloc: Global) -> Option<String> {
    format!(in alloc; "DIR is an empty string").ok()
}

/// What is wrong with the keyring of a folder.
pub fn keyring_text(alloc: Global, folder: &str, fault: BadKeyring) -> Option<String> {
    match fault {
        BadKeyring::Unreadable => {
            format!(in alloc;
                "{folder}/keyring can't be read: it must be a file, or a link to one, that you may read"
            ).ok()
        }
        BadKeyring::TooLong => {
            format!(in alloc; "{folder}/keyring is longer than 1,048,576 bytes").ok()
        }
        BadKeyring::NoKey { line } => {
            format!(in alloc;
                "line {line} of {folder}/keyring isn't a name, a space, hexadecimal digits and a line feed, \
                which the last line needs too"
            )
            .ok()
        }
        BadKeyring::Twice { line } => {
            format!(in alloc;
                "line {line} of {folder}/keyring has the name of an earlier line"
            ).ok()
        }
    }
}

// Why the disk of a folder failed, where that is known.
fn disk_text(alloc: Global, folder: &str, cause: Cause) -> Option<String> {
    if folder.is_empty() {
        return no_folder_text(alloc);
    }
    match cause {
        Cause::NoRoom => format!(in alloc; "no space is left on the disk of {folder}").ok(),
        Cause::NoRight => {
            format!(in alloc; "you aren't allowed to read or write {folder}, or a file in it").ok()
        }
        Cause::Held => held_text(alloc, folder),
        Cause::NotAFolder => format!(in alloc; "{folder} isn't a folder").ok(),
        Cause::Gone => format!(in alloc;
            "{folder}, or the folder that it should be in, doesn't exist"
        ).ok(),
        Cause::Unknown => None,
    }
}

fn held_text(alloc: Global, folder: &str) -> Option<String> {
    format!(in alloc;
        "another program has locked {folder}, perkeep serve or a command that writes: \
        upload to the server, stop it, or wait for its end"
    )
    .ok()
}
