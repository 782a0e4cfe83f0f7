//! What a core replies to each kind of event.
use crate::blobs::{KEY, TAG, events, keyring};
use blobref::{NoMemory, Ref};
use edge_base::{Inserted, Put};
use home_core::{Core, Reply, after};
use std::alloc::Global;

// What a search for the tag is answered where it finds the permanode, and where it finds nothing.
const ONE_FOUND: &str =
    "{\"blobs\":[{\"blob\":\"sha224-01d0f2ac408584236db9de88e8cbd79887704db69e188875443566b5\"}]}";

const NONE_FOUND: &str = "{\"blobs\":[]}";

// Events with their replies. A session finds what it put and settled. A claim that a stop lost isn't found. A number
// that didn't arrive isn't inserted. A number is indexed once. A blob is kept once, and under its own ref alone. A
// session that saw nothing settles nothing, and with a fault it has seen all. A tag that is deleted isn't found.
const ROWS: &str =
    "key=stored node=stored1 tag=stored2 take=taken return=nothing take=taken settle=nothing search=found
key=stored node=stored1 tag=stored2 stop=nothing settle9=nothing search=none
key=stored node=stored1 insert7=nothing take=taken
key=stored take=taken insert=new insert=already take=nothing
key=stored key=kept false=bad_digest node=stored1
key=stored sync=nothing settle2=nothing search=none fault2=nothing settle2=nothing search=found
key=stored sync=nothing settle=nothing search=found delete=stored3 search=found settle=nothing search=none";

// The word for a reply. A number that isn't 0 stands behind it where a blob was stored.
fn word_for(reply: &Reply) -> &'static str {
    match reply {
        Reply::Nothing => "nothing",
        Reply::Kept(Put::Stored { number }) => stored(*number),
        Reply::Kept(Put::Already { number: 0 }) => "kept",
        Reply::BadDigest { said, is } => bad_digest(said, is),
        Reply::Taken { number: 0 } => "taken",
        Reply::Indexed(Inserted::New) => "new",
        Reply::Indexed(Inserted::Already) => "already",
        Reply::Answer(bytes) => answered(bytes.as_slice()),
        _ => "another",
    }
}

fn stored(number: u64) -> &'static str {
    match number {
        0 => "stored",
        1 => "stored1",
        2 => "stored2",
        3 => "stored3",
        _ => "another",
    }
}

fn bad_digest(said: &Ref, is: &Ref) -> &'static str {
    if *said == Ref::of(TAG.as_bytes()) && *is == Ref::of(KEY.as_bytes()) {
        "bad_digest"
    } else {
        "another"
    }
}

fn answered(bytes: &[u8]) -> &'static str {
    if bytes == ONE_FOUND.as_bytes() {
        "found"
    } else if bytes == NONE_FOUND.as_bytes() {
        "none"
    } else {
        "another"
    }
}

// Whether a reply is the one that a word of a row has behind `=`.
fn is_reply(reply: &Reply, word: &str) -> bool {
    let (_, want) = word.split_once('=').unwrap_or((word, ""));
    word_for(reply) == want
}

// Whether a fresh core replies to the events of a row as it says.
fn holds(alloc: Global, row: &str) -> Result<bool, NoMemory> {
    let events = events(alloc, row)?;
    let (_core, replies) = after(alloc, Core::fresh(alloc, keyring(alloc)), &events)?;
    Ok(
        replies
            .as_slice()
            .iter()
            .zip(row.split(' '))
            .all(|(reply, word)| is_reply(reply, word)),
    )
}

// The first row that doesn't hold, or nothing.
fn first_wrong(alloc: Global) -> Result<&'static str, NoMemory> {
    for row in ROWS.lines() {
        if !holds(alloc, row)? {
            return Ok(row);
        }
    }
    Ok("")
}

#[test]
fn events_are_replied_to(rt: HostRuntime) -> Result<(), NoMemory> {
    assert_eq!(rt; first_wrong(rt.alloc())?, "");
    Ok(())
}
