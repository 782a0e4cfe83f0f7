//! Blobs, and events with them.
use blobref::{BlobList, NoMemory, Octets, Ref};
use claim_verify::{KeyName, Keyring};
use home_core::{Event, EventList};
use schema_date::When;
use search_query::Query;
use std::alloc::Global;

// Blobs that were signed outside, with the secret `Jefe` under the name `jefe`.
pub(crate) const KEY: &str = "perkeep-hmac-sha256 jefe\n";

const PERMANODE: &str =
    r#"{"camliVersion":1,"camliType":"permanode","camliSigner":"sha224-da4a89851a3c8f7ce55ef510378a1b717451b9f0b152bb73f28508dc","random":"000102030405060708090a0b0c0d0e0f","camliSig":"1e5bcf1913a8b2517cf5f29a6fc8dd96fbc6dd1c9ed88e9f61f486dc9b161526"}"#;

// Of 2014-01-02: the tag sunset of that permanode.
pub(crate) const TAG: &str =
    r#"{"camliVersion":1,"camliType":"claim","camliSigner":"sha224-da4a89851a3c8f7ce55ef510378a1b717451b9f0b152bb73f28508dc","claimDate":"2014-01-02T00:00:00Z","claimType":"add-attribute","permaNode":"sha224-01d0f2ac408584236db9de88e8cbd79887704db69e188875443566b5","attribute":"tag","value":"sunset","camliSig":"7148778c9252ee12411c4b08050e85c6ea44c062a015e3d32f602e75b91b36cd"}"#;

// Of 2014-01-03: it deletes the tag.
const DELETE: &str =
    r#"{"camliVersion":1,"camliType":"claim","camliSigner":"sha224-da4a89851a3c8f7ce55ef510378a1b717451b9f0b152bb73f28508dc","claimDate":"2014-01-03T00:00:00Z","claimType":"delete","target":"sha224-5aee6bc960444ae06b0ed804ab488bb98fa9c0d302f2aa29d42c5fd1","camliSig":"5b9988416d2624d7c82e12d1e79753da3ab33a0f2093d708e2db24355df9f146"}"#;

pub(crate) fn keyring(alloc: Global) -> Keyring {
    let mut keys = Keyring::empty(alloc);
    if let Some(name) = KeyName::read(b"jefe") {
        let _ = keys.add(&name, b"Jefe");
    }
    keys
}

// The events that the words of a row name, each in front of `=`.
pub(crate) fn events(alloc: Global, row: &str) -> Result<EventList, NoMemory> {
    let mut events = EventList::empty(alloc);
    for word in row.split(' ') {
        let (name, _) = word.split_once('=').unwrap_or((word, ""));
        events.push(event(alloc, name)?)?;
    }
    Ok(events)
}

fn event(alloc: Global, name: &str) -> Result<Event, NoMemory> {
    match name {
        "key" => put(alloc, KEY, KEY),
        "node" => put(alloc, PERMANODE, PERMANODE),
        "tag" => put(alloc, TAG, TAG),
        "delete" => put(alloc, DELETE, DELETE),
        "false" => put(alloc, TAG, KEY),
        "search" => search(alloc),
        "sync" => sync(alloc),
        "stop" => stop(alloc),
        _ => Ok(event_of_number(name)),
    }
}

// A put of these bytes under the ref of others.
fn put(alloc: Global, others: &str, bytes: &str) -> Result<Event, NoMemory> {
    let bytes = Octets::copy(alloc, bytes.as_bytes())?;
    Ok(Event::Put {
        session: 1,
        said: Ref::of(others.as_bytes()),
        bytes,
    })
}

// A search for the tag.
fn search(alloc: Global) -> Result<Event, NoMemory> {
    let q = Query::for_value(alloc, "tag", "sunset", When::Always)?;
    Ok(Event::Search { session: 1, q })
}

fn sync(alloc: Global) -> Result<Event, NoMemory> {
    let blobs = two_blobs(alloc, PERMANODE, TAG)?;
    Ok(Event::Sync { session: 1, blobs })
}

fn stop(alloc: Global) -> Result<Event, NoMemory> {
    let kept = two_blobs(alloc, KEY, PERMANODE)?;
    Ok(Event::Stop { kept })
}

fn two_blobs(alloc: Global, one: &str, other: &str) -> Result<BlobList, NoMemory> {
    let mut blobs = BlobList::empty(alloc);
    for text in [one, other] {
        let bytes = Octets::copy(alloc, text.as_bytes())?;
        blobs.push((Ref::of(text.as_bytes()), bytes))?;
    }
    Ok(blobs)
}

// An event that is of no blob. Where its name ends in 2 it is of the second session.
fn event_of_number(name: &str) -> Event {
    match name {
        "take" => Event::Take {
            session: 1,
            known: 9,
        },
        "insert" => Event::Insert {
            session: 1,
            number: 0,
        },
        "insert7" => Event::Insert {
            session: 1,
            number: 7,
        },
        "return" => Event::Return {
            session: 1,
            number: 0,
        },
        "settle" => Event::Settle {
            session: 1,
            below: 0,
        },
        "settle2" => Event::Settle {
            session: 2,
            below: 0,
        },
        "settle9" => Event::Settle {
            session: 1,
            below: 9,
        },
        _ => Event::Fault { session: 2 },
    }
}
