//! The parts of a line, read word by word.
ghost use Rattle.std.specs.Prelude.{◌≡◌, ◌==◌, if◌then◌else◌, true, false, length, Some, None, is_some, option_copied};
ghost use Rattle.perkeep_words.specs.Words.{begins_with_dash};
ghost use Rattle.perkeep_words.specs.Parts.{start, position, option_step, value_step, item_step, step, PartsAgree};
ghost use Rattle.perkeep_words.specs.Forms.{is_same_name};

use blobref::Text;
use std::marker::Model;

/// A part of a line.
#[derive(Drop)]
pub struct Part<'a> {
    /// The option's name. None for a position.
    pub name: Option<&'a str>,
    /// The option's value, or the position.
    pub text: &'a str,
}

impl<'a> Model for Part<'a> {
    ghost use Rattle.std.specs.Prelude.{ℕ, List, Option, option_map};

    ghost Value = { Option (List ℕ) × List ℕ };

    ghost view = { λ p. (option_map (λ name. name.now) p.name, p.text.now) };
}

/// Where a reader stands between two words.
#[derive(Drop)]
pub struct State<'a> {
    // The option that waits for its value.
    waiting: Option<&'a str>,
    // Whether `--` was read.
    closed: bool,
}

impl<'a> Model for State<'a> {
    ghost use Rattle.std.specs.Prelude.{ℕ, Bool, List, Option, option_map};

    ghost Value = { Option (List ℕ) × Bool };

    ghost view = { λ s. (option_map (λ name. name.now) s.waiting, s.closed) };
}

impl<'a> Part<'a> {
    /// Whether it is a value of this option, or a position where there is none.
    pub fn is_named(&self, option: Option<&str>) -> bool
        ensures { result ≡ is_same_name self.now.0 (option_copied option.entry) }
    {
        match (self.name, option) {
            (None, None) => true,
            (Some(name), Some(option)) => name == option,
            _ => false,
        }
    }
}

impl<'a> State<'a> {
    /// Before the first word.
    pub fn start() -> State<'a>
        ensures { result ≡ start }
    {
        State {
            waiting: None,
            closed: false,
        }
    }

    /// Whether an option waits for its value.
    pub fn is_waiting(&self) -> bool
        ensures { result ≡ is_some self.now.0 }
    {
        self.waiting.is_some()
    }

    /// Where the reader stands after one more word, and the part that the word ends. None where no line goes on so.
    pub fn step(self, word: &'a Text) -> Option<(State<'a>, Option<Part<'a>>)>
        ensures { result ≡ step self.entry word.now }
    {
        let word = word.as_str();
        match self.waiting {
            Some(name) => value_step(name, word),
            None if self.closed => Some((self, Some(position(word)))),
            None => item_step(word),
        }
    }
}

// The value of an option.
fn value_step<'a>(name: &'a str, word: &'a str) -> Option<(State<'a>, Option<Part<'a>>)>
    ensures { result ≡ value_step name.now word.now }
{
    if begins_with_dash(word) {
        return None;
    }
    let part = Part {
        name: Some(name),
        text: word,
    };
    Some((State::start(), Some(part)))
}

// A word that is no value, before `--`.
fn item_step<'a>(word: &'a str) -> Option<(State<'a>, Option<Part<'a>>)>
    ensures { result ≡ item_step word.now }
{
    if word == "--" {
        let closed = State {
            waiting: None,
            closed: true,
        };
        return Some((closed, None));
    }
    match word.strip_prefix("--") {
        Some(option) => option_step(option),
        None if begins_with_dash(word) => None,
        None => Some((State::start(), Some(position(word)))),
    }
}

// `--name` or `--name=value`, without the two dashes.
fn option_step<'a>(text: &'a str) -> Option<(State<'a>, Option<Part<'a>>)>
    ensures { result ≡ option_step text.now }
{
    let Some((name, value)) = text.split_once('=') else {
        return waiting_step(text);
    };
    if name.is_empty() {
        return None;
    }
    let part = Part {
        name: Some(name),
        text: value,
    };
    Some((State::start(), Some(part)))
}

// `--name`.
fn waiting_step<'a>(name: &'a str) -> Option<(State<'a>, Option<Part<'a>>)>
    ensures { result ≡ (if length name.now == 0 then None else Some ((Some name.now, false), None)) }
{
    if name.is_empty() {
        return None;
    }
    let waiting = State {
        waiting: Some(name),
        closed: false,
    };
    Some((waiting, None))
}

// A part that is a position.
fn position<'a>(word: &'a str) -> Part<'a>
    ensures { result ≡ position word.now }
{
    Part {
        name: None,
        text: word,
    }
}

// Whether the word begins with `-`.
fn begins_with_dash(word: &str) -> bool
    ensures { result ≡ begins_with_dash word.now }
{
    word.as_bytes().starts_with(b"-")
}

/// The words have these parts, by the rules of a line, exactly where they are read so.
pub fn parts_agree()
    ensures { PartsAgree }
{}
