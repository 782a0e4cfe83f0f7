//! The yardsticks of `bench/`, in one program: `lab WORD` measures what the word names over standard input, and
//! prints one line. `lab WORD KEYRING ATTRIBUTE VALUE` asks an index by the keys of the keyring, whose text is the
//! word, for the holders of the value.
//!
//! `lab orders KEYRING ATTRIBUTE VALUE DATE ORDER..` makes indexes of the blobs of the pack on standard input in the
//! orders that are given, each a word of letters: `a` is the first blob of the pack, and what isn't named doesn't come.
//! For each order it prints what three indexes tell, the first of which takes the blobs one by one, as does the second,
//! to which each brings its memory, and the third all at once: that it is stale, where it is, their first permanode,
//! the values of each permanode at the date, and the holders of the value. A date that is none stands for all dates.
//!
//! `lab http PACK KEYRING PIECE` answers the requests on standard input over the blobs of the file PACK, by the keys of
//! the file KEYRING: the requests are handed on at most PIECE bytes at a time, or as many as are asked for where that
//! is 0.
//!
//! `lab words` reads lines of search words from standard input, and prints for each the query that it asks, or why it
//! asks none. `lab words-of` reads queries, each a line, and prints for each the line of search words that asks its
//! constraint, or that none does.
//!
//! It is no part of the archive's program. It ends with that program's exit statuses.
#![tactic(auto)]

mod asking;
mod indexing;
mod ordering;
mod serving;
mod yardstick;

use crate::asking::{asked_lines, written_lines};
use crate::indexing::Question;
use crate::ordering::order_lines;
use crate::serving::replies;
use crate::yardstick::Yardstick;
use blobref::{NoMemory, Octets, Text};
use claim_verify::{Keyring, KeyringFault};
use schema_date::{Date, When};
use std::alloc::Global;
use std::io::{Read, Write};
use std::process::ExitCode;
use std::sync::Wait;
use std::{env, fs};

// Why nothing was measured, or nothing printed of it.
#[derive(Clone, Copy)]
enum Fault {
    Memory,
    Words,
    Read,
    Write,
}

impl Fault {
    fn code(self) -> u8 {
        match self {
            Fault::Memory => 1,
            Fault::Words => 2,
            Fault::Read => 5,
            Fault::Write => 6,
        }
    }
}

impl From<NoMemory> for Fault {
    fn from(_: NoMemory) -> Fault {
        Fault::Memory
    }
}

fn main(rt: HostRuntime) -> ExitCode {
    match measure(&rt, &rt) {
        Ok(()) => ExitCode::SUCCESS,
        Err(fault) => ExitCode::from(fault.code()),
    }
}

// Does what the words ask. A connection waits for as long as requests come.
fn measure<W: Wait>(rt: &HostRuntime, wait: &W) -> Result<(), Fault> {
    let words = words(rt)?;
    match word(&words, 0) {
        "http" => answer(rt, wait, &words),
        "orders" => tell(rt, &words),
        "words" => tell_asked(rt),
        "words-of" => tell_written(rt),
        _ => print_line(rt, &words),
    }
}

fn print_line(rt: &HostRuntime, words: &[Text]) -> Result<(), Fault> {
    let line = line_of(rt, words)?;
    rt.println(format_args!("{}", line.as_str()))
        .map_err(|_| Fault::Write)
}

// The line of the yardstick that the words name, over standard input.
fn line_of(rt: &HostRuntime, words: &[Text]) -> Result<String, Fault> {
    let yardstick = Yardstick::named(word(words, 0)).ok_or(Fault::Words)?;
    let question = question(rt.alloc(), words)?;
    let input = input(rt)?;
    Ok(yardstick.line(rt.alloc(), &input, &question)?)
}

// Tells what indexes tell of the pack on standard input, in each of the orders behind the first five words.
fn tell(rt: &HostRuntime, words: &[Text]) -> Result<(), Fault> {
    let question = question(rt.alloc(), words)?;
    let pack = input(rt)?;
    let orders = words.get(5..).unwrap_or(&[]);
    let lines = order_lines(rt.alloc(), &pack, orders, &question)?;
    print(rt, &lines)
}

// Tells what the lines on standard input ask.
fn tell_asked(rt: &HostRuntime) -> Result<(), Fault> {
    let input = input(rt)?;
    let text = str::from_utf8(&input).map_err(|_| Fault::Words)?;
    print(rt, &asked_lines(rt.alloc(), text)?)
}

// Tells which lines ask what the queries on standard input do.
fn tell_written(rt: &HostRuntime) -> Result<(), Fault> {
    let input = input(rt)?;
    let text = str::from_utf8(&input).map_err(|_| Fault::Words)?;
    print(rt, &written_lines(rt.alloc(), text)?)
}

// Answers the requests of standard input over the blobs of a pack.
fn answer<W: Wait>(rt: &HostRuntime, wait: &W, words: &[Text]) -> Result<(), Fault> {
    let pack = file(rt, word(words, 1))?;
    let keys = keyring(rt.alloc(), &file(rt, word(words, 2))?)?;
    let piece = word(words, 3).parse().map_err(|_| Fault::Words)?;
    let requests = Octets::from_vec(input(rt)?);
    let sink = replies(wait, rt.alloc(), &pack, keys, requests, piece)?;
    print(rt, sink.written())
}

fn print(rt: &HostRuntime, bytes: &[u8]) -> Result<(), Fault> {
    rt.stdout().write_all(bytes).map_err(|_| Fault::Write)
}

fn file(rt: &HostRuntime, path: &str) -> Result<Vec<u8>, Fault> {
    fs::read(rt, path).map_err(|_| Fault::Read)
}

fn input(rt: &HostRuntime) -> Result<Vec<u8>, Fault> {
    let mut input = Vec::new(rt.alloc());
    rt.stdin().read_to_end(&mut input).map_err(|_| Fault::Read)?;
    Ok(input)
}

// The words behind the name of the program.
fn words(rt: &HostRuntime) -> Result<Vec<Text>, Fault> {
    let args = env::args(rt).map_err(|_| Fault::Words)?;
    let mut words = Vec::new(rt.alloc());
    for word in args.skip(1) {
        push_word(rt.alloc(), &mut words, word.as_str())?;
    }
    Ok(words)
}

fn push_word(alloc: Global, words: &mut Vec<Text>, word: &str) -> Result<(), NoMemory> {
    words.push(Text::copy(alloc, word)?)?;
    Ok(())
}

// The word of a place, or the empty one.
fn word(words: &[Text], place: usize) -> &str {
    match words.get(place) {
        Some(word) => word.as_str(),
        None => "",
    }
}

// What the words behind the first ask.
fn question(alloc: Global, words: &[Text]) -> Result<Question, Fault> {
    let keys = keyring(alloc, word(words, 1).as_bytes())?;
    let attr = Text::copy(alloc, word(words, 2))?;
    let value = Text::copy(alloc, word(words, 3))?;
    let when = time_of(word(words, 4));
    Ok(Question {
        keys,
        attr,
        value,
        when,
    })
}

// A text that is no date stands for all dates.
fn time_of(text: &str) -> When {
    match Date::read(text.as_bytes()) {
        Some(date) => When::At(date),
        None => When::Always,
    }
}

fn keyring(alloc: Global, text: &[u8]) -> Result<Keyring, Fault> {
    match Keyring::read(alloc, text) {
        Ok(keys) => Ok(keys),
        Err(KeyringFault::NoMemory) => Err(Fault::Memory),
        Err(_) => Err(Fault::Words),
    }
}
