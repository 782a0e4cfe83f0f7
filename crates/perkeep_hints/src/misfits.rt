//! Which of the words isn't one of its command's, or is missing.
use crate::excerpt::quoting_hint;
use crate::lines::{COMMANDS, line_of};
use crate::options::{is_number, is_option, is_twice, value_of};
use blobref::Text;
use perkeep_words::CommandName;
use std::alloc::Global;

/// The greatest port.
pub(crate) const MAX_PORT: u64 = 65_535;

const MAX_THREADS: u64 = 64;

// The options of `serve`, each of them a number from 1 on, with the greatest.
const SERVE_NUMBERS: &[(&str, u64)] = &[
    ("port", MAX_PORT),
    ("workers", MAX_THREADS),
    ("indexers", MAX_THREADS),
    ("connections", u64::MAX),
];

// Those of `serve-shares`.
const SHARE_NUMBERS: &[(&str, u64)] = &[("port", MAX_PORT), ("connections", u64::MAX)];

/// Why words are no line. There are none of them where one isn't UTF-8.
pub(crate) fn words_text(alloc: Global, words: &[Text]) -> Option<String> {
    if let Some(hint) = quoting_hint(words) {
        return format!(in alloc; "{hint}").ok();
    }
    let Some((first, behind)) = words.split_first() else {
        return format!(in alloc;
            "no command is given, or an argument isn't UTF-8; the commands are {COMMANDS}; see man perkeep"
        ).ok();
    };
    match first.as_str() {
        "serve" => server_text(alloc, "serve", SERVE_NUMBERS, behind),
        "serve-shares" => server_text(alloc, "serve-shares", SHARE_NUMBERS, behind),
        "mirror" => misfit_text(alloc, "mirror"),
        name => command_text(alloc, name, behind),
    }
}

fn command_text(alloc: Global, name: &str, behind: &[Text]) -> Option<String> {
    let Some(command) = CommandName::of(name) else {
        return format!(in alloc;
            "{name:?} isn't a command; the commands are {COMMANDS}; see man perkeep"
        ).ok();
    };
    if let Some(word) = first_unknown(command, behind) {
        return unknown_text(alloc, command, name, word, behind);
    }
    match first_missing(command, behind) {
        Some("key") => {
            format!(in alloc;
                "--key NAME is missing: the name of the key in DIR/keyring to sign with"
            ).ok()
        }
        Some(option) => missing_text(alloc, name, option),
        None => short_text(alloc, command, name, behind),
    }
}

// Why a command doesn't expect a word, which is one of those after its name.
fn unknown_text(
    alloc: Global,
    command: CommandName,
    name: &str,
    word: &str,
    behind: &[Text],
) -> Option<String> {
    let line = line_of(name);
    if let Some(option) = option_of(command, word) {
        return needs_value_text(alloc, name, option);
    }
    match cure_of(command, word, behind) {
        Some(cure) => format!(in alloc; "{word:?} isn't expected; {cure}: {line}").ok(),
        None => format!(in alloc; "{word:?} isn't expected: {line}").ok(),
    }
}

// What may be done about a word that a command doesn't expect, where that is likely.
fn cure_of(command: CommandName, word: &str, behind: &[Text]) -> Option<&'static str> {
    if is_dashed(word) {
        return Some("put -- before an argument that begins with a dash");
    }
    match command {
        CommandName::Query => Some(
            "the query is read from standard input, with its date as \"at\"; for search words use perkeep words",
        ),
        CommandName::Get | CommandName::GetFile => Some("> FILE keeps the output"),
        CommandName::Put => Some("the blob is read from standard input"),
        CommandName::Claim if !has_kind(behind) => Some("KIND is set, add or del"),
        CommandName::Search | CommandName::SearchPack | CommandName::Claim | CommandName::PutFile =>
            Some("put quotes around a value of several words"),
        _ => None,
    }
}

// Whether one of the words after `claim` is a kind.
fn has_kind(behind: &[Text]) -> bool {
    behind
        .iter()
        .any(|word| matches!(word.as_str(), "set" | "add" | "del"))
}

// Whether a word begins with a single dash.
fn is_dashed(word: &str) -> bool {
    word.starts_with('-') && !word.starts_with("--")
}

// The option of a command that a word names, without a value.
fn option_of(command: CommandName, word: &str) -> Option<&'static str> {
    for option in command.form().options {
        if is_option(word, option.name) {
            return Some(option.name);
        }
    }
    None
}

fn needs_value_text(alloc: Global, command: &str, option: &str) -> Option<String> {
    let line = line_of(command);
    format!(in alloc;
        "--{option} needs a value, after = if the value begins with a dash: {line}"
    ).ok()
}

// Which number of a server's words is out of its range, or that the port is missing.
fn server_text(
    alloc: Global,
    name: &str,
    numbers: &[(&str, u64)],
    behind: &[Text],
) -> Option<String> {
    for (option, most) in numbers {
        match value_of(behind, option) {
            Some(value) if !is_number(value, *most) => {
                return format!(in alloc;
                    "--{option} takes a number from 1 to {most}, not {value:?}"
                ).ok();
            }
            None if is_last(behind, option) => return needs_value_text(alloc, name, option),
            _ => {}
        }
    }
    match value_of(behind, "port") {
        Some(_) => misfit_text(alloc, name),
        None => missing_text(alloc, name, "port"),
    }
}

// Whether the last word names an option.
fn is_last(words: &[Text], option: &str) -> bool {
    match words.last() {
        Some(word) => is_option(word.as_str(), option),
        None => false,
    }
}

fn missing_text(alloc: Global, command: &str, option: &str) -> Option<String> {
    let line = line_of(command);
    format!(in alloc; "--{option} is missing: {line}").ok()
}

fn misfit_text(alloc: Global, command: &str) -> Option<String> {
    let line = line_of(command);
    format!(in alloc; "an argument is missing, unexpected or wrong: {line}").ok()
}

// What words lack that a line may go on with: an option is there twice, or else positions are missing.
fn short_text(alloc: Global, command: CommandName, name: &str, behind: &[Text]) -> Option<String> {
    let line = line_of(name);
    for option in command.form().options {
        let option = option.name;
        if is_twice(behind, option) {
            return format!(in alloc; "--{option} is given more than once: {line}").ok();
        }
    }
    format!(in alloc; "an argument is missing: {line}").ok()
}

// The first word with which no line of the command goes on: it isn't known with the next word either, which may be the
// value that it waits for.
fn first_unknown<'a>(command: CommandName, words: &'a [Text]) -> Option<&'a str> {
    let mut doubted = None;
    for place in 0..words.len() {
        if command.form().knows_all(&words[..place + 1]) {
            doubted = None;
        } else if doubted.is_some() {
            return doubted;
        } else {
            doubted = Some(words[place].as_str());
        }
    }
    doubted
}

// The first option of a command that has to be given, and isn't.
fn first_missing(command: CommandName, words: &[Text]) -> Option<&'static str> {
    for option in command.form().options {
        if option.needed && value_of(words, option.name).is_none() {
            return Some(option.name);
        }
    }
    None
}
