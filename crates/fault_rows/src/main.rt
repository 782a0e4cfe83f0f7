//! What faults and stops leave, in memory: a line of the program's words is run over a disk, peers, a source, a sink, a
//! clock and dice in memory, one of whose calls fails, or whose disk stops and crashes. It judges nothing:
//! `tests/fault_rows.sh`, `bench/stops.sh` and `bench/memory.sh` compare what it prints with what has to come.
//!
//! `fault_rows fails OBJECT FROM UNTIL WORLD WORD..` prints a line of a run of the words in which no call fails, and
//! then one for each of the calls FROM, .. of the object (`disk`, `peer`, `second`, `source`, `sink`, `clock`, `dice`
//! or `listener`), before UNTIL, of a run in which that call fails; until a run doesn't make it.
//!
//! `fault_rows stops CHOICE SECOND WORLD WORD..` prints a line for each of the calls 0, .. of the disk, of a run in
//! which that call and all later ones fail, after which the disk crashes by the choice of that number; the last one is
//! of a run that makes no such call. Where SECOND is a number, what the crash left crashes by that choice too: at once
//! in the lines printed first, and once a listing has opened the store in those after them.
//!
//! Standard input is what the words read. WORLD is a folder, whose files say what there is before: the packs of the
//! disk with the numbers 0 to 3, each in the file of its name; `peer` and `second`, packs with the blobs of the peer
//! and of the second one, which a mirror has; and `keyring`. What isn't there is empty. The clock stands at
//! 2020-01-02T00:00:00Z, and the dice are those of `docs/formats`. Where the only word is `connection`, a connection is
//! served over a home of one actor that is empty, and reads the source. Where it is `workers`, each of the four packs
//! has a worker, with such a home and a listener that gives it a connection for each blob of the pack, which is the
//! connection's stream; the listener that fails is the first one's.
//!
//! A line has the number of the call that fails, or `-`; how the run ended, by its exit status or by the name of the
//! connection's end; what it wrote, in hexadecimal digits after `=`; the ref of what there is then, after the crash;
//! and the same three of a second run over what there is, in which no call fails. What there is are the lines that
//! `list` prints of the disk, and then those that it would print of the peers' blobs; or what a connection is answered
//! that asks for all refs, of each worker in turn. For what workers write stands a byte of each, 1 where an accept
//! failed.
//!
//! `fault_rows stale WORLD` places the blobs of pack 0 in an index, one by one. Before each of the last two, which has
//! brought its memory, `placed` is printed; once a byte came on standard input it is placed, and `stale` is printed,
//! where the index is stale then, or `quick`. Then each line of standard input is a query, and two lines are printed
//! for it, the answer by that index, and the one by an index that keeps nothing but facts.
//!
//! `fault_rows inserts WORLD` inserts the blobs of pack 0 into an index, one by one, and one for which there was no
//! memory once more. After each try it prints `inserted`, or `refused`, and how many blobs the index has then, and a
//! line with its answer to each query, which are the lines of standard input.
//!
//! It is no part of the archive's program. It ends with that program's exit statuses.
#![tactic(auto)]

mod answering;
mod connection;
mod failing;
mod hand;
mod indexing;
mod inserting;
mod listening;
mod stale;
mod told;
mod world;

use crate::connection::tell_connection;
use crate::failing::{Failing, NONE, Object};
use crate::indexing::{Coming, tell_index};
use crate::listening::tell_workers;
use crate::told::add_number;
use crate::world::{Crash, Given, tell_fault, tell_stop};
use blobref::{ListOf, NoMemory, Octets, Text};
use claim_verify::{Keyring, KeyringFault};
use std::alloc::Global;
use std::io::{self, ErrorKind, Read, Write};
use std::marker::Brand;
use std::process::ExitCode;
use std::sync::Wait;
use std::sync::ledger::Blank;
use std::thread::Threads;
use std::{env, fs};

// Why nothing was told.
#[derive(Clone, Copy)]
pub(crate) enum Fault {
    Memory,
    Words,
    Read,
    Write,
}

impl Fault {
    fn code(self) -> u8 {
        match self {
            Fault::Memory => 1,
            Fault::Words => 2,
            Fault::Read => 5,
            Fault::Write => 6,
        }
    }
}

impl From<NoMemory> for Fault {
    fn from(_: NoMemory) -> Fault {
        Fault::Memory
    }
}

fn main(rt: HostRuntime) -> ExitCode {
    match tell(&rt, &rt) {
        Ok(()) => ExitCode::SUCCESS,
        Err(fault) => ExitCode::from(fault.code()),
    }
}

// Tells what the words ask. A connection waits for as long as requests come.
fn tell<W: Threads + Wait + Sync>(rt: &HostRuntime, wait: &W) -> Result<(), Fault> {
    let words = words(rt)?;
    match word(&words, 0) {
        "fails" => tell_faults(rt, wait, &words),
        "stops" => tell_stops(rt, &words),
        "stale" => tell_indexed(rt, &words, Coming::Placed),
        "inserts" => tell_indexed(rt, &words, Coming::Inserted),
        _ => Err(Fault::Words),
    }
}

/// Prints bytes at once.
pub(crate) fn print(rt: &HostRuntime, bytes: &[u8]) -> Result<(), Fault> {
    rt.stdout().write_all(bytes).map_err(|_| Fault::Write)
}

fn tell_faults<W: Threads + Wait + Sync>(
    rt: &HostRuntime,
    wait: &W,
    words: &[Text],
) -> Result<(), Fault> {
    let object = Object::named(word(words, 1)).ok_or(Fault::Words)?;
    let calls = (number(word(words, 2))?, number(word(words, 3))?);
    let given = given(rt, words, 4)?;
    print_faults(rt, wait, &given, object, calls)
}

fn print_faults<W: Threads + Wait + Sync>(
    rt: &HostRuntime,
    wait: &W,
    given: &Given,
    object: Object,
    calls: (u64, u64),
) -> Result<(), Fault> {
    let mut lines = Vec::new(rt.alloc());
    add_line(rt.alloc(), wait, given, NONE, &mut lines)?;
    add_faults(rt.alloc(), wait, given, object, calls, &mut lines)?;
    print(rt, &lines)
}

// A line for each of the calls from the first number on, before the second one, until none fails.
fn add_faults<W: Threads + Wait + Sync>(
    alloc: Global,
    wait: &W,
    given: &Given,
    object: Object,
    calls: (u64, u64),
    lines: &mut Vec<u8>,
) -> Result<(), NoMemory> {
    for call in calls.0..calls.1 {
        let before = lines.len();
        let failing = Failing {
            object,
            call: Some(call),
        };
        if !add_line(alloc, wait, given, failing, lines)? {
            lines.truncate(before);
            return Ok(());
        }
    }
    Ok(())
}

// Whether a call failed.
fn add_line<W: Threads + Wait + Sync>(
    alloc: Global,
    wait: &W,
    given: &Given,
    failing: Failing,
    lines: &mut Vec<u8>,
) -> Result<bool, NoMemory> {
    match failing.call {
        Some(call) => add_number(alloc, lines, call)?,
        None => lines.push(b'-')?,
    }
    let failed = match word(&given.words, 0) {
        "connection" => tell_connection(alloc, wait, given.input.as_slice(), failing, lines)?,
        "workers" => tell_workers(alloc, wait, given.packs.as_slice(), failing, lines)?,
        _ => tell_fault(alloc, given, failing, lines)?,
    };
    lines.push(b'\n')?;
    Ok(failed)
}

fn tell_stops(rt: &HostRuntime, words: &[Text]) -> Result<(), Fault> {
    let choice = number(word(words, 1))?;
    let second = number(word(words, 2)).ok();
    let given = given(rt, words, 3)?;
    print_stops(rt, &given, choice, second)
}

fn print_stops(
    rt: &HostRuntime,
    given: &Given,
    choice: u64,
    second: Option<u64>,
) -> Result<(), Fault> {
    let mut lines = Vec::new(rt.alloc());
    add_all_stops(rt.alloc(), given, choice, second, &mut lines)?;
    print(rt, &lines)
}

// The lines of one crash, or those of each way in which there may be a second one.
fn add_all_stops(
    alloc: Global,
    given: &Given,
    choice: u64,
    second: Option<u64>,
    lines: &mut Vec<u8>,
) -> Result<(), NoMemory> {
    match second {
        None => add_stops(alloc, given, choice, Crash::None, lines),
        Some(second) => {
            add_stops(alloc, given, choice, Crash::AtOnce(second), lines)?;
            add_stops(alloc, given, choice, Crash::OnceOpened(second), lines)
        }
    }
}

// A line for each call at which the disk stops, and one for a run in which it doesn't.
fn add_stops(
    alloc: Global,
    given: &Given,
    choice: u64,
    second: Crash,
    lines: &mut Vec<u8>,
) -> Result<(), NoMemory> {
    for stop in 0..u64::MAX {
        add_number(alloc, lines, stop)?;
        let failed = tell_stop(alloc, given, stop, choice, second, lines)?;
        lines.push(b'\n')?;
        if !failed {
            return Ok(());
        }
    }
    Ok(())
}

// Tells of an index to which the blobs of the first pack come.
fn tell_indexed(rt: &HostRuntime, words: &[Text], coming: Coming) -> Result<(), Fault> {
    let folder = word(words, 1);
    let pack = file(rt, folder, "pack-00000.blobs")?;
    let keys = keys(rt, folder)?;
    tell_index::<Brand>(rt, coming, pack.as_slice(), &keys, Blank::new(1))
}

// What the words say from the place of the world on, and what standard input holds.
fn given(rt: &HostRuntime, words: &[Text], place: usize) -> Result<Given, Fault> {
    let folder = word(words, place);
    Ok(Given {
        packs: packs(rt, folder)?,
        peer: file(rt, folder, "peer")?,
        second: file(rt, folder, "second")?,
        keys: keys(rt, folder)?,
        input: input(rt)?,
        words: rest(rt.alloc(), words, place)?,
    })
}

fn packs(rt: &HostRuntime, folder: &str) -> Result<ListOf<Octets>, Fault> {
    let mut packs = ListOf::empty(rt.alloc());
    for name in [
        "pack-00000.blobs",
        "pack-00001.blobs",
        "pack-00002.blobs",
        "pack-00003.blobs",
    ] {
        add_file(rt, folder, name, &mut packs)?;
    }
    Ok(packs)
}

fn add_file(
    rt: &HostRuntime,
    folder: &str,
    name: &str,
    files: &mut ListOf<Octets>,
) -> Result<(), Fault> {
    let bytes = file(rt, folder, name)?;
    files.push(bytes)?;
    Ok(())
}

fn keys(rt: &HostRuntime, folder: &str) -> Result<Keyring, Fault> {
    let text = file(rt, folder, "keyring")?;
    match Keyring::read(rt.alloc(), text.as_slice()) {
        Ok(keys) => Ok(keys),
        Err(KeyringFault::NoMemory) => Err(Fault::Memory),
        Err(_) => Err(Fault::Words),
    }
}

// The bytes of a file of a folder, none where there is no such file.
fn file(rt: &HostRuntime, folder: &str, name: &str) -> Result<Octets, Fault> {
    let path = format!(in rt.alloc(); "{}/{}", folder, name).map_err(NoMemory::from)?;
    match fs::read(rt, path.as_str()) {
        Ok(bytes) => Ok(Octets::from_vec(bytes)),
        Err(error) => unread(rt.alloc(), &error),
    }
}

// The bytes of a file that couldn't be read.
fn unread(alloc: Global, error: &io::Error) -> Result<Octets, Fault> {
    if error.kind() == ErrorKind::NotFound {
        Ok(Octets::from_vec(Vec::new(alloc)))
    } else {
        Err(Fault::Read)
    }
}

/// What standard input holds from here on.
pub(crate) fn input(rt: &HostRuntime) -> Result<Octets, Fault> {
    let mut input = Vec::new(rt.alloc());
    rt.stdin().read_to_end(&mut input).map_err(|_| Fault::Read)?;
    Ok(Octets::from_vec(input))
}

// The words behind a place.
fn rest(alloc: Global, words: &[Text], place: usize) -> Result<Vec<Text>, NoMemory> {
    let mut rest = Vec::new(alloc);
    for word in words.iter().skip(place).skip(1) {
        push_word(alloc, &mut rest, word.as_str())?;
    }
    Ok(rest)
}

// The words behind the name of the program.
fn words(rt: &HostRuntime) -> Result<Vec<Text>, Fault> {
    let args = env::args(rt).map_err(|_| Fault::Words)?;
    let mut words = Vec::new(rt.alloc());
    for word in args.skip(1) {
        push_word(rt.alloc(), &mut words, word.as_str())?;
    }
    Ok(words)
}

fn push_word(alloc: Global, words: &mut Vec<Text>, word: &str) -> Result<(), NoMemory> {
    words.push(Text::copy(alloc, word)?)?;
    Ok(())
}

// The word of a place, or the empty one.
fn word(words: &[Text], place: usize) -> &str {
    match words.get(place) {
        Some(word) => word.as_str(),
        None => "",
    }
}

fn number(word: &str) -> Result<u64, Fault> {
    word.parse().map_err(|_| Fault::Words)
}
