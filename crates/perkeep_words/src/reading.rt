//! Lines, and the commands that they are (docs/commands.md).
ghost use Rattle.std.specs.Prelude.{◌≡◌, ◌≤◌, true, is_some, option_copied};
ghost use Rattle.blobref.specs.Blobref.{is_blobref};
ghost use Rattle.claim_verify.specs.KeyName.{is_key_name};
ghost use Rattle.schema_date.specs.Dates.{number};
ghost use Rattle.perkeep_words.specs.Kinds.{number_within};
ghost use Rattle.perkeep_words.specs.Parts.{start, parts_from};
ghost use Rattle.perkeep_words.specs.Forms.{position_at, text_of};
ghost use Rattle.perkeep_words.specs.Table.{writes_of};
ghost use Rattle.perkeep_words.specs.Reading.{line_of, search_words_in, command_at, command_in, change_at, ref_of};
ghost use Rattle.perkeep_words.specs.Reading.{number_of, when_of, NeedsAt, NeedsOption, ReadingsAgree};
ghost use Rattle.perkeep_words.specs.declared.kinds.TextKind.TheVariants.{Blobref, Name, Key, Number};

use crate::change::Change;
use crate::forms::{nth, position};
use crate::kinds::{TextFault, number_within};
use crate::table::{CommandName, MAX_COUNT, MAX_LIMIT, MAX_START};
use crate::words::{BlobCount, NonEmptyWord, Word};
use blobref::{Ref, Text};
use claim_verify::KeyName;
use schema_date::{Date, When};
use std::marker::Model;

/// What a line asks for, with its texts. DIR is any text.
#[derive(Drop)]
pub enum Command<'a> {
    /// `put DIR`
    Put {
        dir: Word<'a>,
    },
    /// `get DIR REF`
    Get {
        dir: Word<'a>,
        r: Ref,
    },
    /// `stat DIR REF`
    Stat {
        dir: Word<'a>,
        r: Ref,
    },
    /// `list DIR [--after REF] [--limit N]`: refs above `after`, at most `limit` of them, 1 to 4,194,304.
    List {
        dir: Word<'a>,
        after: Option<Ref>,
        limit: u64,
    },
    /// `search DIR --attr A --value V [--at DATE]`
    Search {
        dir: Word<'a>,
        attr: NonEmptyWord<'a>,
        value: Word<'a>,
        at: When,
    },
    /// `words DIR TEXT [--at DATE]`. TEXT is any text here: whether it is a line of search words, who reads it finds.
    Words {
        dir: Word<'a>,
        text: Word<'a>,
        at: When,
    },
    /// `query DIR`
    Query {
        dir: Word<'a>,
    },
    /// `salvage DIR`
    Salvage {
        dir: Word<'a>,
    },
    /// `search-pack A V`
    SearchPack {
        attr: NonEmptyWord<'a>,
        value: Word<'a>,
    },
    /// `permanode DIR --key NAME`
    Permanode {
        dir: Word<'a>,
        key: KeyName,
    },
    /// `claim DIR KIND REF ATTR [VALUE] --key NAME`. `value` is empty where VALUE is left out, as it may be for `del`.
    Claim {
        dir: Word<'a>,
        kind: Change,
        r: Ref,
        attr: NonEmptyWord<'a>,
        value: Word<'a>,
        key: KeyName,
    },
    /// `multi DIR --key NAME`
    Multi {
        dir: Word<'a>,
        key: KeyName,
    },
    /// `delete DIR REF --key NAME`
    Delete {
        dir: Word<'a>,
        r: Ref,
        key: KeyName,
    },
    /// `put-file DIR NAME`
    PutFile {
        dir: Word<'a>,
        name: Word<'a>,
    },
    /// `get-file DIR REF`
    GetFile {
        dir: Word<'a>,
        r: Ref,
    },
    /// `push DIR ADDR`. ADDR is `HOST:PORT`, or any text, as an address to which no connection can be made.
    Push {
        dir: Word<'a>,
        addr: Word<'a>,
    },
    /// `pull DIR ADDR`
    Pull {
        dir: Word<'a>,
        addr: Word<'a>,
    },
    /// `load COUNT START`
    Load {
        count: BlobCount,
        start: u64,
    },
}

const DEFAULT_LIMIT: u64 = 1_000;

/// Words that are the line of a command, whatever its texts say (docs/commands.md). A contract sees it as the command,
/// and the parts behind the command's name in their order.
#[derive(Drop)]
pub struct Line<'a> {
    name: CommandName,
    behind: &'a [Text],
}

impl<'a> Model for Line<'a> {
    ghost use Rattle.std.specs.Prelude.{◌≡◌, ◌∷◌, Some};
    ghost use Rattle.perkeep_words.specs.Parts.{start, parts_from};
    ghost use Rattle.perkeep_words.specs.Table.{form_of};
    ghost use Rattle.perkeep_words.specs.Reading.{LineSeen, line_of};

    ghost Value = { LineSeen };

    ghost view = { λ l. (l.name, parts_from start l.behind.now) };

    ghost invariant = { λ l.
        line_of ((form_of l.name).name ∷ l.behind.now) ≡ Some (l.name, parts_from start l.behind.now) };
}

// A line in which nothing is wrong.
#[derive(Drop)]
struct RightLine<'a> {
    name: CommandName,
    behind: &'a [Text],
}

impl<'a> Model for RightLine<'a> {
    ghost use Rattle.perkeep_words.specs.Parts.{start, parts_from};
    ghost use Rattle.perkeep_words.specs.Reading.{LineSeen, IsRight};

    ghost Value = { LineSeen };

    ghost view = { λ l. (l.name, parts_from start l.behind.now) };

    ghost invariant = { λ l. IsRight (l.name, parts_from start l.behind.now) };
}

impl<'a> Line<'a> {
    /// The line that the words are, whatever its texts say. None exactly where they are none.
    pub fn read(words: &'a [Text]) -> Option<Line<'a>>
        ensures { result ≡ line_of words.now }
    {
        let (word, behind) = words.split_first()?;
        let name = CommandName::of(word.as_str())?;
        if !name.form().has_line(behind) {
            return None;
        }
        Some(Line { name, behind })
    }

    /// Whether its command may change the store.
    pub fn writes(&self) -> bool
        ensures { result ≡ writes_of self.now.0 }
    {
        self.name.form().writes
    }

    /// The search words of a line of `words`, where no text before them is wrong. So where they are none, that is the
    /// first thing that is wrong in the line.
    pub fn search_words(&self) -> Option<&'a str>
        ensures { option_copied result ≡ search_words_in self.now }
    {
        if self.name != CommandName::Words {
            return None;
        }
        self.name.form().right_position(self.behind, 1)
    }

    /// The command of the line. An error where a text of it is wrong: of several, the one that stands first in the
    /// words.
    pub fn command(&self) -> Result<Command<'a>, TextFault>
        ensures { result ≡ command_in self.now }
    {
        match self.name.form().first_fault(self.behind) {
            Some(fault) => Err(fault),
            None => Ok(command_at(&RightLine {
                name: self.name,
                behind: self.behind,
            })),
        }
    }
}

// The command of a line in which nothing is wrong.
fn command_at<'a>(line: &RightLine<'a>) -> Command<'a>
    ensures { result ≡ command_at line.now.0 line.now.1 }
{
    match line.name() {
        CommandName::Put => Command::Put { dir: line.dir() },
        CommandName::Get => Command::Get {
            dir: line.dir(),
            r: line.blobref(1),
        },
        CommandName::Stat => Command::Stat {
            dir: line.dir(),
            r: line.blobref(1),
        },
        CommandName::List => Command::List {
            dir: line.dir(),
            after: line.ref_option("after"),
            limit: line.number_option("limit", 1, MAX_LIMIT, DEFAULT_LIMIT),
        },
        CommandName::Search => Command::Search {
            dir: line.dir(),
            attr: line.filled_option("attr"),
            value: line.word_option("value"),
            at: line.when("at"),
        },
        CommandName::Words => Command::Words {
            dir: line.dir(),
            text: line.word(1),
            at: line.when("at"),
        },
        CommandName::Query => Command::Query { dir: line.dir() },
        CommandName::Salvage => Command::Salvage { dir: line.dir() },
        CommandName::SearchPack => Command::SearchPack {
            attr: line.filled(0),
            value: line.word(1),
        },
        CommandName::Permanode => Command::Permanode {
            dir: line.dir(),
            key: line.key_option("key"),
        },
        CommandName::Claim => Command::Claim {
            dir: line.dir(),
            kind: line.change(1),
            r: line.blobref(2),
            attr: line.filled(3),
            value: line.word(4),
            key: line.key_option("key"),
        },
        CommandName::Multi => Command::Multi {
            dir: line.dir(),
            key: line.key_option("key"),
        },
        CommandName::Delete => Command::Delete {
            dir: line.dir(),
            r: line.blobref(1),
            key: line.key_option("key"),
        },
        CommandName::PutFile => Command::PutFile {
            dir: line.dir(),
            name: line.word(1),
        },
        CommandName::GetFile => Command::GetFile {
            dir: line.dir(),
            r: line.blobref(1),
        },
        CommandName::Push => Command::Push {
            dir: line.dir(),
            addr: line.word(1),
        },
        CommandName::Pull => Command::Pull {
            dir: line.dir(),
            addr: line.word(1),
        },
        CommandName::Load => Command::Load {
            count: BlobCount::of(line.number(0, 1, MAX_COUNT)),
            start: line.number(1, 0, MAX_START),
        },
    }
}

impl<'a> RightLine<'a> {
    fn name(&self) -> CommandName
        ensures { result ≡ self.now.0 }
    {
        self.name
    }

    // DIR, of a line that has it.
    fn dir(&self) -> Word<'a>
        ensures { result ≡ position_at 0 self.now.1 }
    {
        self.word(0)
    }

    // The position at a place, and the empty text where it is left out.
    fn word(&self, place: usize) -> Word<'a>
        ensures { result ≡ position_at place self.now.1 }
    {
        Word::of(position(self.behind, place))
    }

    // A position that is a blobref.
    fn blobref(&self, place: usize) -> Ref
        requires { NeedsAt self.now place Blobref }
        ensures { result ≡ position_at place self.now.1 }
    {
        blobref(position(self.behind, place))
    }

    // A position that isn't empty.
    fn filled(&self, place: usize) -> NonEmptyWord<'a>
        requires { NeedsAt self.now place Name }
        ensures { result ≡ position_at place self.now.1 }
    {
        NonEmptyWord::of(position(self.behind, place))
    }

    // The number that a position is.
    fn number(&self, place: usize, least: u64, most: u64) -> u64
        requires { NeedsAt self.now place (Number least most) }
        ensures value { result ≡ number (position_at place self.now.1) }
        ensures most { result ≤ most }
    {
        number(least, most, position(self.behind, place))
    }

    // The change that a position names.
    fn change(&self, place: usize) -> Change
        ensures { result ≡ change_at place self.now.1 }
    {
        Change::read(position(self.behind, place)).unwrap_or(Change::Del)
    }

    // The value of an option that has to be given.
    fn word_option(&self, option: &str) -> Word<'a>
        ensures { result ≡ text_of option.now self.now.1 }
    {
        Word::of(value(self.behind, option))
    }

    // The value of an option that has to be given, and isn't empty.
    fn filled_option(&self, option: &str) -> NonEmptyWord<'a>
        requires { NeedsOption self.now option.now Name }
        ensures { result ≡ text_of option.now self.now.1 }
    {
        NonEmptyWord::of(value(self.behind, option))
    }

    // The value of an option that has to be given, and is the name of a key.
    fn key_option(&self, option: &str) -> KeyName
        requires { NeedsOption self.now option.now Key }
        ensures { result ≡ text_of option.now self.now.1 }
    {
        key_name(value(self.behind, option))
    }

    fn ref_option(&self, option: &str) -> Option<Ref>
        ensures { result ≡ ref_of option.now self.now.1 }
    {
        Ref::read(nth(self.behind, Some(option), 0)?.as_bytes())
    }

    // The number that an option gives.
    fn number_option(&self, option: &str, least: u64, most: u64, default: u64) -> u64
        ensures { result ≡ number_of option.now least most default self.now.1 }
    {
        number_option(self.behind, option, least, most, default)
    }

    // The date that an option gives.
    fn when(&self, option: &str) -> When
        ensures { result ≡ when_of option.now self.now.1 }
    {
        match nth(self.behind, Some(option), 0) {
            Some(text) => match Date::read(text.as_bytes()) {
                Some(date) => When::At(date),
                None => When::Always,
            },
            None => When::Always,
        }
    }
}

// The value of an option that has to be given.
fn value<'a>(words: &'a [Text], option: &str) -> &'a str
    ensures { result.now ≡ text_of option.now (parts_from start words.now) }
{
    nth(words, Some(option), 0).unwrap_or("")
}

/// The number that an option gives, and the default where it gives none.
pub fn number_option(words: &[Text], option: &str, least: u64, most: u64, default: u64) -> u64
    ensures value { result ≡ number_of option.now least most default (parts_from start words.now) }
    ensures least { least ≤ default → least ≤ result }
    ensures most { default ≤ most → result ≤ most }
{
    match nth(words, Some(option), 0) {
        Some(text) => number_within(least, most, text).unwrap_or(default),
        None => default,
    }
}

// A text that is a blobref.
fn blobref(text: &str) -> Ref
    requires { is_blobref text.now ≡ true }
    ensures { result ≡ text.now }
{
    match Ref::read(text.as_bytes()) {
        Some(r) => r,
        None => unreachable!(),
    }
}

// A text that is a number within bounds.
fn number(least: u64, most: u64, text: &str) -> u64
    requires { is_some (number_within least most text.now) ≡ true }
    ensures value { result ≡ number text.now }
    ensures most { result ≤ most }
{
    match number_within(least, most, text) {
        Some(n) => n,
        None => unreachable!(),
    }
}

// A text that is the name of a key.
fn key_name(text: &str) -> KeyName
    requires { is_key_name text.now ≡ true }
    ensures { result ≡ text.now }
{
    match KeyName::read(text.as_bytes()) {
        Some(name) => name,
        None => unreachable!(),
    }
}

/// The words are a line, by the rules of its command, exactly where `Line::read` gives it: so they are one line at
/// most.
pub fn readings_agree()
    ensures { ReadingsAgree }
{}
