//! Connections that are served by threads.
use crate::ends::{HeldGate, HeldSource, NotedListener, ToldSink};
use crate::texts::{
    ABC_KEPT, FULL, GET_AND_SEARCH, KEPT_LEN, NONE_KEPT_ABC_NOTHING, TAGGED_AND_FOUND, UPLOAD_ABC,
    UPLOAD_NONE, UPLOAD_TAGGED_AND_SEARCH, spelled,
};
use crate::threads::{Archive, Ending, served};
use blob_server::Status;
use blobref::{NoMemory, Octets};
use claim_verify::{KeyName, Keyring};
use edge_base::CallList;
use edge_listen::MemListener;
use pack_disk::MemDisk;
use std::alloc::Global;
use std::collections::VecDeque;
use std::sync::Wait;
use std::sync::atomic::{AtomicBool, AtomicU64, Ordering};
use std::thread::Threads;

type Connection<'a> = (HeldSource<'a>, ToldSink<'a>);

// A store of nothing, which may have so many blobs, and no keys.
fn archive(alloc: Global, blobs: u64) -> Archive {
    Archive {
        disk: MemDisk::empty(alloc, CallList::empty(alloc), u64::MAX),
        blobs,
        keys: Keyring::empty(alloc),
    }
}

// What is said and told on a connection, and how many bytes of that were told.
#[derive(Drop)]
pub(crate) struct Talk {
    wanted: Octets,
    pub(crate) told: AtomicU64,
}

impl Talk {
    pub(crate) fn of(alloc: Global, wanted: &str) -> Result<Talk, NoMemory> {
        Ok(Talk {
            wanted: spelled(alloc, wanted)?,
            told: AtomicU64::new(0),
        })
    }

    // Whether all of it was told, and nothing else.
    pub(crate) fn is_told(&self) -> bool {
        self.told.load(Ordering::SeqCst) == self.wanted.as_slice().len() as u64
    }

    // The connection on which a first part is said, and a second one once a number is at least so much.
    pub(crate) fn connection<'a>(
        &'a self,
        alloc: Global,
        first: &str,
        held: &str,
        until: &'a AtomicU64,
        least: u64,
    ) -> Result<Connection<'a>, NoMemory> {
        let first = spelled(alloc, first)?;
        let held = spelled(alloc, held)?;
        let source = HeldSource::of(alloc, first, held, until, least);
        Ok((source, ToldSink::of(self.wanted.as_slice(), &self.told)))
    }

    // Adds the connection on which all of it is said at once.
    fn say<'a>(
        &'a self,
        alloc: Global,
        waiting: &mut VecDeque<Connection<'a>>,
        text: &str,
    ) -> Result<(), NoMemory> {
        waiting.push_back(self.connection(alloc, text, "", &self.told, 0)?)?;
        Ok(())
    }
}

pub(crate) type Line<'a> = MemListener<HeldSource<'a>, ToldSink<'a>>;

// A listener of one connection.
pub(crate) fn line<'a>(alloc: Global, connection: Connection<'a>) -> Result<Line<'a>, NoMemory> {
    let mut waiting = VecDeque::new(alloc);
    waiting.push_back(connection)?;
    Ok(MemListener::of(waiting, CallList::empty(alloc)))
}

// Adds a listener of one connection.
fn push_line<'a>(
    alloc: Global,
    lines: &mut Vec<Line<'a>>,
    connection: Connection<'a>,
) -> Result<(), NoMemory> {
    lines.push(line(alloc, connection)?)?;
    Ok(())
}

// A gate that is held until a number is at least so much.
fn gate<'a>(until: &'a AtomicU64, least: u64, late: &'a AtomicBool) -> HeldGate<'a> {
    HeldGate { until, least, late }
}

// Whether all was served, and all passes together have seen so many blobs, of which so many are inserted.
fn is_done(ending: &Ending, seen: (u64, u64)) -> bool {
    matches!(ending.served, Status::Done) && ending.seen == seen
}

// What is said on the first connection is held until the second was told a reply, and what is said there behind that
// until the first was told its reply. So there is no order in which they could follow one another.
fn two_lines<'a>(
    alloc: Global,
    first: &'a Talk,
    second: &'a Talk,
) -> Result<Vec<Line<'a>>, NoMemory> {
    let one = first.connection(alloc, "", UPLOAD_ABC, &second.told, KEPT_LEN)?;
    let two = second.connection(alloc, UPLOAD_NONE, GET_AND_SEARCH, &first.told, KEPT_LEN)?;
    let mut lines = Vec::new(alloc);
    push_line(alloc, &mut lines, one)?;
    push_line(alloc, &mut lines, two)?;
    Ok(lines)
}

fn serves_two<R: Threads + Wait + Sync>(
    rt: &R,
    alloc: Global,
    first: &Talk,
    second: &Talk,
) -> Result<bool, NoMemory> {
    let lines = two_lines(alloc, first, second)?;
    let late = AtomicBool::new(false);
    let gate = gate(&first.told, 0, &late);
    let ending = served(rt, rt, alloc, archive(alloc, 100), lines, 0, 2, &gate)?;
    Ok(is_done(&ending, (2, 2)) && first.is_told() && second.is_told())
}

#[test]
fn two_connections_at_once(rt: HostRuntime) -> Result<(), NoMemory> {
    let first = Talk::of(rt.alloc(), ABC_KEPT)?;
    let second = Talk::of(rt.alloc(), NONE_KEPT_ABC_NOTHING)?;
    assert!(rt; serves_two(&rt, rt.alloc(), &first, &second)?);
    Ok(())
}

// A store of nothing, and the key under which the claim is signed.
fn signed_archive(alloc: Global) -> Archive {
    let mut archive = archive(alloc, 100);
    if let Some(name) = KeyName::read(b"jefe") {
        let _ = archive.keys.add(&name, b"Jefe");
    }
    archive
}

// One worker serves the connection. Two indexers are held until all of it was told.
fn finds_uploaded<R: Threads + Wait + Sync>(
    rt: &R,
    alloc: Global,
    talk: &Talk,
) -> Result<bool, NoMemory> {
    let connection = talk.connection(alloc, UPLOAD_TAGGED_AND_SEARCH, "", &talk.told, 0)?;
    let mut lines = Vec::new(alloc);
    push_line(alloc, &mut lines, connection)?;
    let late = AtomicBool::new(false);
    let gate = gate(&talk.told, talk.wanted.as_slice().len() as u64, &late);
    let ending = served(rt, rt, alloc, signed_archive(alloc), lines, 2, 1, &gate)?;
    Ok(is_done(&ending, (3, 3)) && talk.is_told() && !late.load(Ordering::SeqCst))
}

#[test]
fn a_search_finds_what_was_uploaded_while_indexers_are_held(
    rt: HostRuntime,
) -> Result<(), NoMemory> {
    let talk = Talk::of(rt.alloc(), TAGGED_AND_FOUND)?;
    assert!(rt; finds_uploaded(&rt, rt.alloc(), &talk)?);
    Ok(())
}

// A listener of three connections, on which blobs are uploaded: `abc`, no bytes, and `abc` again.
fn uploads<'a>(
    alloc: Global,
    first: &'a Talk,
    second: &'a Talk,
    third: &'a Talk,
) -> Result<Line<'a>, NoMemory> {
    let mut waiting = VecDeque::new(alloc);
    first.say(alloc, &mut waiting, UPLOAD_ABC)?;
    second.say(alloc, &mut waiting, UPLOAD_NONE)?;
    third.say(alloc, &mut waiting, UPLOAD_ABC)?;
    Ok(MemListener::of(waiting, CallList::empty(alloc)))
}

fn refuses_when_full<R: Threads + Wait + Sync>(
    rt: &R,
    alloc: Global,
    first: &Talk,
    second: &Talk,
    third: &Talk,
) -> Result<bool, NoMemory> {
    let mut lines = Vec::new(alloc);
    lines.push(uploads(alloc, first, second, third)?)?;
    let late = AtomicBool::new(false);
    let gate = gate(&first.told, 0, &late);
    let ending = served(rt, rt, alloc, archive(alloc, 1), lines, 0, 3, &gate)?;
    Ok(is_done(&ending, (1, 0)) && first.is_told() && second.is_told() && third.is_told())
}

#[test]
fn a_full_store_refuses_new_blobs_alone(rt: HostRuntime) -> Result<(), NoMemory> {
    let first = Talk::of(rt.alloc(), ABC_KEPT)?;
    let second = Talk::of(rt.alloc(), FULL)?;
    let third = Talk::of(rt.alloc(), ABC_KEPT)?;
    assert!(rt; refuses_when_full(&rt, rt.alloc(), &first, &second, &third)?);
    Ok(())
}

// A listener whose first call fails.
fn failing_line<'a>(alloc: Global) -> Result<Line<'a>, NoMemory> {
    let mut fails = CallList::empty(alloc);
    fails.push(0)?;
    Ok(MemListener::of(VecDeque::new(alloc), fails))
}

// Adds a listener that adds its failures to a number.
fn push_noted<'a>(
    lines: &mut Vec<NotedListener<'a>>,
    listener: Line<'a>,
    failed: &'a AtomicU64,
) -> Result<(), NoMemory> {
    lines.push(NotedListener { listener, failed })?;
    Ok(())
}

// The first call of the first listener fails. The second one has a connection, which is held until then.
fn failing_lines<'a>(
    alloc: Global,
    talk: &'a Talk,
    failed: &'a AtomicU64,
) -> Result<Vec<NotedListener<'a>>, NoMemory> {
    let held = talk.connection(alloc, "", UPLOAD_ABC, failed, 1)?;
    let mut lines = Vec::new(alloc);
    push_noted(&mut lines, failing_line(alloc)?, failed)?;
    push_noted(&mut lines, line(alloc, held)?, failed)?;
    Ok(lines)
}

fn tells_failure<R: Threads + Wait + Sync>(
    rt: &R,
    alloc: Global,
    talk: &Talk,
    failed: &AtomicU64,
) -> Result<bool, NoMemory> {
    let lines = failing_lines(alloc, talk, failed)?;
    let late = AtomicBool::new(false);
    let gate = gate(failed, 0, &late);
    let ending = served(rt, rt, alloc, archive(alloc, 100), lines, 1, 2, &gate)?;
    Ok(
        matches!(ending.served, Status::ListenerFault)
            && ending.failed.as_slice() == [true, false, false].as_slice()
            && talk.is_told(),
    )
}

#[test]
fn a_failing_listener_ends_its_own_desk_alone(rt: HostRuntime) -> Result<(), NoMemory> {
    let talk = Talk::of(rt.alloc(), ABC_KEPT)?;
    let failed = AtomicU64::new(0);
    assert!(rt; tells_failure(&rt, rt.alloc(), &talk, &failed)?);
    Ok(())
}
