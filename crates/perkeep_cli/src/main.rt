//! The program: its words, the keyring, the folder of the store, standard input and standard output.
#![tactic(auto)]

mod console;
mod copying;
mod ending;
mod hand;
mod hints;
mod keys;
mod mirroring;
mod pauses;
mod serving;
mod sharing;
mod shown_peer;
mod streams;
mod telling;

use crate::console::Console;
use crate::ending::Ending;
use crate::hand::{SystemClock, SystemDice};
use crate::hints::tell_of_peer;
use crate::keys::{read_keyring, tell_of_no_keyring, tell_of_no_note};
use crate::mirroring::mirror;
use crate::serving::serve;
use crate::sharing::serve_folder_shares;
use crate::shown_peer::ShownPeer;
use crate::streams::Closed;
use crate::telling::tell;
use blobref::{NoMemory, Text};
use edge_dial::peer_at;
use edge_os::{standard_input, standard_output};
use folder_disk::{Access, FolderDisk};
use perkeep_hints::{found_no_note, seeks_notes};
use perkeep_top::{Status, run};
use perkeep_words::{Line, mirror_words, places, serve_words, share_words};
use std::alloc::Global;
use std::env;
use std::io::ErrorKind;
use std::process::ExitCode;
use std::sync::Wait;
use std::thread::Threads;

fn main(rt: HostRuntime) -> ExitCode {
    let console = Console::new(&rt);
    let words = match words(&rt) {
        Ok(words) => words,
        Err(status) => return told(&console, &Ending::of(status), &[], "."),
    };
    let named = Named::of(&words);
    let ending = match Closed::take(&rt) {
        Ok(_closed) => ending_of(&rt, &rt, &console, &words, named),
        Err(_) => Ending::of(Status::WriteFault),
    };
    told(&console, &ending, &words, named.folder)
}

// The exit status of an ending, once it was told, where something went wrong.
fn told(console: &Console<'_>, ending: &Ending, words: &[Text], folder: &str) -> ExitCode {
    console.screen().clear();
    if !matches!(ending.status(), Status::Done) {
        // Where this fails too nothing more can be told.
        let _ = tell(console, ending, words, folder);
    }
    ExitCode::from(ending.status().code())
}

// Does what the words ask for, over standard input and standard output, or as a server.
fn ending_of<R: Threads + Wait + Sync>(
    rt: &HostRuntime,
    threads: &R,
    console: &Console<'_>,
    words: &[Text],
    named: Named<'_>,
) -> Ending {
    if let Some(plan) = serve_words(words) {
        return serve(rt, threads, console, named.folder, &plan);
    }
    if let Some(plan) = share_words(words) {
        return serve_folder_shares(threads, console, named.folder, &plan);
    }
    match mirror_words(rt.alloc(), words) {
        Ok(Some(addresses)) => return mirror(rt, console, words, named.folder, &addresses),
        Ok(None) => {}
        Err(NoMemory) => return Ending::of(Status::NoMemory),
    }
    match Line::read(words) {
        Some(line) => command(rt, console, words, named, &line),
        None => Ending::of(Status::BadWords),
    }
}

// Runs a command that is no server.
fn command(
    rt: &HostRuntime,
    console: &Console<'_>,
    words: &[Text],
    named: Named<'_>,
    line: &Line<'_>,
) -> Ending {
    let screen = console.screen();
    let keys = match read_keyring(rt, screen, named.folder) {
        Ok(keys) => keys,
        Err(ending) => return ending,
    };
    tell_of_peer(rt, screen, named.address);
    if seeks_notes(words) {
        tell_of_no_keyring(rt, screen, named.folder, "note");
    }
    let access = Access::of(line);
    let disk = FolderDisk::new(rt, screen, console.trouble(), named.folder, access);
    let peer = peer_at(rt, screen, named.address);
    let mut peer = ShownPeer::alone(screen, named.address, peer);
    let mut source = standard_input(rt, screen);
    let mut sink = standard_output(rt, screen);
    let mut clock = SystemClock::new(rt);
    let mut dice = SystemDice::new(rt);
    let (_disk, status) = run(
        rt.alloc(),
        words,
        disk,
        &mut peer,
        &keys,
        &mut source,
        &mut sink,
        &mut clock,
        &mut dice,
    );
    if matches!(status, Status::Done) && found_no_note(words, sink.writer().written()) {
        tell_of_no_note(rt, screen, named.folder);
    }
    Ending::of(status)
}

// What words name: a folder, the working folder where they name none, and the address of a peer, empty where they name
// none: then no peer is asked.
#[derive(Clone, Copy)]
struct Named<'a> {
    folder: &'a str,
    address: &'a str,
}

impl<'a> Named<'a> {
    fn of(words: &'a [Text]) -> Named<'a> {
        let places = places(words);
        let folder = match places.dir {
            Some(place) => words[place].as_str(),
            None => ".",
        };
        let address = match places.addr {
            Some(place) => words[place].as_str(),
            None => "",
        };
        Named { folder, address }
    }
}

// The words of the command line. Where one isn't UTF-8 they are bad words.
fn words(rt: &HostRuntime) -> Result<Vec<Text>, Status> {
    match env::args(rt) {
        Ok(args) => Ok(texts(rt.alloc(), args)?),
        Err(error) => match error.kind() {
            ErrorKind::OutOfMemory => Err(Status::NoMemory),
            _ => Err(Status::BadWords),
        },
    }
}

// The words behind the name of the program.
fn texts(alloc: Global, args: env::Args<Global>) -> Result<Vec<Text>, NoMemory> {
    let mut words = Vec::new(alloc);
    for word in args.skip(1) {
        words.push(Text::copy(alloc, word.as_str())?)?;
    }
    Ok(words)
}
