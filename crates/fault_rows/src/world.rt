//! A disk and two peers in memory, over which a line of the program's words is run.
ghost use Rattle.std.specs.Prelude.{◌≡◌, ◌≤◌, ◌<◌, ℕ, None, OnOk, IfOk};
ghost use Rattle.std.specs.FinMap.{get};
ghost use Rattle.pack_disk.specs.Disk.{last_number};
ghost use Rattle.pack_disk.specs.Past.{told};

use crate::failing::{Failing, NONE, Object};
use crate::hand::Hand;
use crate::told::{add_bytes, add_number, add_ref, add_written};
use blobref::{ListOf, NoMemory, Octets, Ref, Text};
use claim_verify::Keyring;
use edge_base::{CallList, Failed};
use pack_disk::{Disk, MemDisk};
use peer_base::{MemPeer, Peer};
use perkeep_lines::size_lines;
use perkeep_top::run;
use salvage_scan::{Found, scan};
use std::alloc::Global;
use std::mem::replace;
use top_mirror::mirror_run;

// The words of a line that lists all blobs.
const LIST: &str = "list d --limit 4194304";

/// What there is before a run: the packs 0, .. of the disk, of which an empty one isn't there; packs with the blobs of
/// the peer and of the second peer; and the keys. What the run reads, and its words.
#[derive(Drop)]
pub(crate) struct Given {
    pub(crate) packs: ListOf<Octets>,
    pub(crate) peer: Octets,
    pub(crate) second: Octets,
    pub(crate) keys: Keyring,
    pub(crate) input: Octets,
    pub(crate) words: Vec<Text>,
}

/// A second crash, by a choice: at once, or once the store has been opened.
#[derive(Clone, Copy)]
pub(crate) enum Crash {
    None,
    AtOnce(u64),
    OnceOpened(u64),
}

// A disk, and a peer and the second one.
#[derive(Drop)]
struct World {
    disk: MemDisk,
    peers: [MemPeer; 2],
}

impl World {
    // Whether a call failed.
    fn has_failed(&self) -> bool {
        self.disk.faults() > 0 || self.peers[0].faults() > 0 || self.peers[1].faults() > 0
    }
}

/// Runs the words over what there is before, and once more without a call that fails. Answers whether one failed.
pub(crate) fn tell_fault(
    alloc: Global,
    given: &Given,
    failing: Failing,
    line: &mut Vec<u8>,
) -> Result<bool, NoMemory> {
    let mut world = world_of(alloc, given, failing, u64::MAX)?;
    tell_failed(alloc, given, failing, &mut world, line)
}

fn tell_failed(
    alloc: Global,
    given: &Given,
    failing: Failing,
    world: &mut World,
    line: &mut Vec<u8>,
) -> Result<bool, NoMemory> {
    let has_failed = tell_run(alloc, given, failing, world, line)?;
    add_held(alloc, world, line)?;
    tell_again(alloc, given, world, line)?;
    Ok(has_failed)
}

/// Runs the words over what there is before, on a disk that stops at a call and crashes then, and once more over what
/// the crash left. Answers whether the disk stopped.
pub(crate) fn tell_stop(
    alloc: Global,
    given: &Given,
    stop: u64,
    choice: u64,
    second: Crash,
    line: &mut Vec<u8>,
) -> Result<bool, NoMemory> {
    let mut world = world_of(alloc, given, NONE, stop)?;
    tell_crashed(alloc, given, choice, second, &mut world, line)
}

fn tell_crashed(
    alloc: Global,
    given: &Given,
    choice: u64,
    second: Crash,
    world: &mut World,
    line: &mut Vec<u8>,
) -> Result<bool, NoMemory> {
    let has_failed = tell_run(alloc, given, NONE, world, line)?;
    crash_by(alloc, world, choice)?;
    crash_again(alloc, world, second)?;
    add_held(alloc, world, line)?;
    tell_again(alloc, given, world, line)?;
    Ok(has_failed)
}

fn crash_again(alloc: Global, world: &mut World, crash: Crash) -> Result<(), NoMemory> {
    match crash {
        Crash::None => Ok(()),
        Crash::AtOnce(choice) => crash_by(alloc, world, choice),
        Crash::OnceOpened(choice) => crash_once_opened(alloc, world, choice),
    }
}

// Runs the words without a call that fails, and tells what there is then.
fn tell_again(
    alloc: Global,
    given: &Given,
    world: &mut World,
    line: &mut Vec<u8>,
) -> Result<(), NoMemory> {
    tell_run(alloc, given, NONE, world, line)?;
    add_held(alloc, world, line)
}

// Runs the words, and tells how that ended and what was written. Answers whether a call failed.
fn tell_run(
    alloc: Global,
    given: &Given,
    failing: Failing,
    world: &mut World,
    line: &mut Vec<u8>,
) -> Result<bool, NoMemory> {
    let mut hand = Hand::of(alloc, given.input.as_slice(), failing)?;
    tell_ended(alloc, given, world, &mut hand, line)
}

fn tell_ended(
    alloc: Global,
    given: &Given,
    world: &mut World,
    hand: &mut Hand,
    line: &mut Vec<u8>,
) -> Result<bool, NoMemory> {
    let code = run_words(alloc, &given.words, &given.keys, world, hand);
    line.push(b' ')?;
    add_number(alloc, line, u64::from(code))?;
    add_written(alloc, line, hand.sink.written())?;
    Ok(hand.has_failed() || world.has_failed())
}

// The exit status of a run. A mirror has both peers, and each other command the first one.
fn run_words(
    alloc: Global,
    words: &[Text],
    keys: &Keyring,
    world: &mut World,
    hand: &mut Hand,
) -> u8 {
    let disk = replace(&mut world.disk, no_disk(alloc));
    let (disk, status) = if is_mirror(words) {
        mirror_run(alloc, words, disk, &mut world.peers, &mut hand.sink)
    } else {
        run(
            alloc,
            words,
            disk,
            &mut world.peers[0],
            keys,
            &mut hand.source,
            &mut hand.sink,
            &mut hand.clock,
            &mut hand.dice,
        )
    };
    world.disk = disk;
    status.code()
}

fn is_mirror(words: &[Text]) -> bool {
    match words.first() {
        Some(word) => word.as_str() == "mirror",
        None => false,
    }
}

// Adds the ref of the lines of all blobs of the disk and of the peers.
fn add_held(alloc: Global, world: &mut World, line: &mut Vec<u8>) -> Result<(), NoMemory> {
    let mut held = Vec::new(alloc);
    add_disk(alloc, world, &mut held)?;
    for peer in &mut world.peers {
        add_peer(alloc, peer, &mut held)?;
    }
    add_ref(line, &held)
}

fn add_disk(alloc: Global, world: &mut World, held: &mut Vec<u8>) -> Result<(), NoMemory> {
    let words = words_of(alloc, LIST)?;
    let mut hand = Hand::of(alloc, b"", NONE)?;
    let keys = Keyring::empty(alloc);
    run_words(alloc, &words, &keys, world, &mut hand);
    add_bytes(held, hand.sink.written())
}

fn add_peer(alloc: Global, peer: &mut MemPeer, held: &mut Vec<u8>) -> Result<(), NoMemory> {
    let Ok(page) = peer.list(None, 9_999) else {
        return Ok(());
    };
    add_bytes(held, size_lines(alloc, &page)?.as_slice())
}

fn words_of(alloc: Global, line: &str) -> Result<Vec<Text>, NoMemory> {
    let mut words = Vec::new(alloc);
    for word in line.split(' ') {
        words.push(Text::copy(alloc, word)?)?;
    }
    Ok(words)
}

// A disk without packs.
fn no_disk(alloc: Global) -> MemDisk {
    MemDisk::empty(alloc, CallList::empty(alloc), u64::MAX)
}

// Leaves of the disk what a crash does.
fn crash_by(alloc: Global, world: &mut World, choice: u64) -> Result<(), NoMemory> {
    let disk = replace(&mut world.disk, no_disk(alloc));
    world.disk = disk.crash(choice)?;
    Ok(())
}

fn crash_once_opened(alloc: Global, world: &mut World, choice: u64) -> Result<(), NoMemory> {
    let mut held = Vec::new(alloc);
    add_disk(alloc, world, &mut held)?;
    crash_by(alloc, world, choice)
}

// What there is before, with a call that fails, or with a disk that stops at a call.
fn world_of(alloc: Global, given: &Given, failing: Failing, stop: u64) -> Result<World, NoMemory> {
    let first = peer_of(alloc, given.peer.as_slice(), failing, Object::Peer)?;
    let second = peer_of(alloc, given.second.as_slice(), failing, Object::SecondPeer)?;
    let disk = disk_of(alloc, given.packs.as_slice(), failing, stop)?;
    Ok(World {
        disk,
        peers: [first, second],
    })
}

// Each pack takes three calls.
fn disk_of(
    alloc: Global,
    packs: &[Octets],
    failing: Failing,
    stop: u64,
) -> Result<MemDisk, NoMemory> {
    let made = packs
        .iter()
        .filter(|pack| !pack.as_slice().is_empty())
        .count();
    let before = (made as u64).saturating_mul(3);
    let calls = failing.calls(alloc, Object::Disk, before)?;
    let mut disk = MemDisk::empty(alloc, calls, stop.saturating_add(before));
    if add_packs(&mut disk, packs).is_err() {
        return Err(NoMemory);
    }
    Ok(disk)
}

fn add_packs(disk: &mut MemDisk, packs: &[Octets]) -> Result<(), Failed>
    requires { (n : ℕ) → get (told disk.old.history) n ≡ None }
{
    for number in 0..4u32 {
        if let Some(bytes) = packs.get(number as usize) {
            add_pack(disk, number, bytes.as_slice())?;
        }
    }
    Ok(())
}

// Adds a pack with these bytes, all of which are durable, where there is none from its number on; or none, where there
// are no bytes.
fn add_pack(disk: &mut MemDisk, number: u32, bytes: &[u8]) -> Result<(), Failed>
    requires range { number ≤ last_number }
    requires absent { (n : ℕ) → number ≤ n → get (told disk.old.history) n ≡ None }
    ensures { OnOk result ((n : ℕ) → number < n → get (told disk.new.history) n ≡ None) }
{
    if !bytes.is_empty() {
        disk.make(number)?;
        disk.append(number, bytes)?;
        disk.sync(number)?;
    }
    Ok(())
}

// A peer that holds the blobs of a pack. Each takes one call.
fn peer_of(
    alloc: Global,
    pack: &[u8],
    failing: Failing,
    object: Object,
) -> Result<MemPeer, NoMemory> {
    let (found, _) = scan(alloc, pack)?;
    let calls = failing.calls(alloc, object, found.len() as u64)?;
    let mut peer = MemPeer::empty(alloc, calls);
    for place in found.as_slice() {
        if !is_put(&mut peer, &place.r, blob_at(pack, place)) {
            return Err(NoMemory);
        }
    }
    Ok(peer)
}

fn is_put(peer: &mut MemPeer, named: &Ref, bytes: &[u8]) -> bool {
    let r = named.like(bytes);
    bytes.len() <= 16_777_216 && r == *named && peer.put(&r, bytes).is_ok()
}

/// The bytes of a blob. A place that isn't in the pack, which no scan gives, has none.
pub(crate) fn blob_at<'a>(pack: &'a [u8], place: &Found) -> &'a [u8] {
    let start = place.at as usize;
    let size = place.size as usize;
    if start <= pack.len() && size <= pack.len() - start {
        &pack[start..start + size]
    } else {
        &[]
    }
}
