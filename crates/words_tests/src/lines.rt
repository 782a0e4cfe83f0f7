//! Lines of `get`, `list` and `search`, as `clap` reads them and as the program does.
use blobref::{NoMemory, Ref, Text};
use clap::{Arg, ArgMatches, Command as Lines, Error};
use perkeep_words::{Command, Line, TextFault};
use std::alloc::Global;
use std::test::Fail;

// The positions of a line, all of which are needed.
static GET: [&str; 2] = ["dir", "ref"];

static DIR: [&str; 1] = ["dir"];

// The options of a line, and which of them are needed.
static LIST: [(&str, bool); 2] = [("after", false), ("limit", false)];

static SEARCH: [(&str, bool); 3] = [("attr", true), ("value", true), ("at", false)];

// A line, for `clap`. The program has no words for help.
fn line<'a>(
    alloc: Global,
    name: &'a str,
    positions: &'a [&'a str],
    options: &'a [(&'a str, bool)],
) -> Result<Lines<'a>, Error> {
    let mut line = Lines::new(alloc, name).disable_help_flag(true);
    for position in positions {
        line = line.arg(Arg::new(alloc, position).required(true))?;
    }
    for option in options {
        let arg = Arg::new(alloc, option.0).long(option.0);
        line = line.arg(arg.required(option.1))?;
    }
    Ok(line)
}

// The three lines, for `clap`.
fn lines<'a>(alloc: Global) -> Result<Lines<'a>, Error> {
    let program = Lines::new(alloc, "perkeep")
        .disable_help_flag(true)
        .disable_help_subcommand(true)
        .subcommand_required(true)
        .subcommand(line(alloc, "get", &GET, &[])?)?
        .subcommand(line(alloc, "list", &DIR, &LIST)?)?
        .subcommand(line(alloc, "search", &DIR, &SEARCH)?)?;
    Ok(program)
}

// Whether an option's or a position's text is the ref.
fn is_ref(text: Option<&str>, r: &Ref) -> bool {
    match text {
        Some(text) => Ref::read(text.as_bytes()) == Some(*r),
        None => false,
    }
}

// Whether `clap` found what the program read.
fn has_values(name: &str, found: &ArgMatches, line: &Line) -> bool {
    match line.command() {
        Ok(Command::Get { dir, r }) => {
            name == "get"
                && found.get_str("dir") == Some(dir.as_str())
                && is_ref(found.get_str("ref"), &r)
        }
        Ok(Command::List { dir, after, limit }) => {
            name == "list"
                && found.get_str("dir") == Some(dir.as_str())
                && after.is_some_and(|r| is_ref(found.get_str("after"), &r))
                && limit == 1
                && found.get_str("limit") == Some("1")
        }
        Ok(
            Command::Search {
                dir,
                attr,
                value,
                at: _,
            },
        ) => {
            name == "search"
                && found.get_str("dir") == Some(dir.as_str())
                && found.get_str("attr") == Some(attr.as_str())
                && found.get_str("value") == Some(value.as_str())
        }
        // A word that is no ref is refused behind the reading of the line.
        Err(TextFault::BadRef) => found
            .get_str("ref")
            .is_some_and(|text| Ref::read(text.as_bytes()).is_none()),
        _ => false,
    }
}

// The words behind the program's name, each for itself.
fn texts(alloc: Global, words: &[&str]) -> Result<Vec<Text>, NoMemory> {
    let mut texts = Vec::new(alloc);
    for word in words.iter().skip(1) {
        texts.push(Text::copy(alloc, word)?)?;
    }
    Ok(texts)
}

// Whether both read the line, or both don't, as is expected, and the same values out of it. The first word is the
// program's name.
fn is_read_alike<'a>(alloc: Global, words: &'a [&'a str], is_line: bool) -> Result<bool, Fail> {
    let texts = texts(alloc, words)?;
    let found = lines(alloc)?.try_get_matches_from(words);
    match Line::read(&texts) {
        Some(line) => Ok(is_line && is_found(&found, &line)),
        None => Ok(!is_line && found.is_err()),
    }
}

// Whether `clap` found this line.
fn is_found(found: &Result<ArgMatches, Error>, line: &Line) -> bool {
    match found {
        Ok(found) => match found.subcommand() {
            Some((name, found)) => has_values(name, found, line),
            None => false,
        },
        Err(_) => false,
    }
}

#[test]
fn lines_are_read_as_clap_reads_them(rt: HostRuntime) -> Result<(), Fail> {
    let alloc = rt.alloc();
    let r = "sha224-23097d223405d8228642a477bda255b32aadbce4bda0b3f7e36c9da7";
    let after = "--after=sha224-23097d223405d8228642a477bda255b32aadbce4bda0b3f7e36c9da7";
    let dash = ["perkeep", "search", "DIR", "--value=-x", "--attr", "tag"];
    let twice = ["perkeep", "list", "DIR", "--limit", "1", "--limit", "2"];
    let behind = ["perkeep", "get", "DIR", "--", "-x"];
    let get = ["perkeep", "get", "DIR", r];
    let list = ["perkeep", "list", "DIR", after, "--limit", "1"];
    for (words, is_line) in [
        (dash.as_slice(), true),
        (twice.as_slice(), false),
        (behind.as_slice(), true),
        (get.as_slice(), true),
        (list.as_slice(), true),
    ] {
        assert!(rt; is_read_alike(alloc, words, is_line)?, "{words:?}");
    }
    Ok(())
}
