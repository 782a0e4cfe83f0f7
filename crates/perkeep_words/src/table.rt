//! The commands, and the form of each one's lines.
ghost use Rattle.std.specs.Prelude.{◌≡◌, ◌∷◌, [], true, false, length, None, codes};
ghost use Rattle.perkeep_words.specs.Table.{row, must, form_of, named_in, name_of};
ghost use Rattle.perkeep_words.specs.Seen.{options_seen};
ghost use Rattle.perkeep_words.specs.declared.kinds.TextKind.TheVariants.{Dir, Key};

use crate::forms::{Form, OptionForm};
use crate::kinds::TextKind;

/// A command.
#[derive(Clone, Copy, PartialEq, Eq)]
pub enum CommandName {
    Put,
    Get,
    Stat,
    List,
    Search,
    Words,
    Query,
    Salvage,
    SearchPack,
    Permanode,
    Claim,
    Multi,
    Delete,
    PutFile,
    GetFile,
    Push,
    Pull,
    Load,
}

const COMMANDS: [CommandName; 18] = [
    CommandName::Put,
    CommandName::Get,
    CommandName::Stat,
    CommandName::List,
    CommandName::Search,
    CommandName::Words,
    CommandName::Query,
    CommandName::Salvage,
    CommandName::SearchPack,
    CommandName::Permanode,
    CommandName::Claim,
    CommandName::Multi,
    CommandName::Delete,
    CommandName::PutFile,
    CommandName::GetFile,
    CommandName::Push,
    CommandName::Pull,
    CommandName::Load,
];

/// The greatest number of refs that a line of `list` asks for.
pub const MAX_LIMIT: u64 = 4_194_304;

/// The greatest number of blobs that a line of `load` asks for.
pub const MAX_COUNT: u64 = 100_000;

/// The greatest start that a line of `load` names.
pub const MAX_START: u64 = u64::MAX;

const LIST_OPTIONS: &[OptionForm] = &[
    OptionForm {
        name: "after",
        kind: TextKind::Blobref,
        needed: false,
    },
    OptionForm {
        name: "limit",
        kind: TextKind::Number(1, MAX_LIMIT),
        needed: false,
    },
];

const SEARCH_OPTIONS: &[OptionForm] = &[
    OptionForm {
        name: "attr",
        kind: TextKind::Name,
        needed: true,
    },
    OptionForm {
        name: "value",
        kind: TextKind::Any,
        needed: true,
    },
    OptionForm {
        name: "at",
        kind: TextKind::Date,
        needed: false,
    },
];

const WORDS_OPTIONS: &[OptionForm] = &[OptionForm {
    name: "at",
    kind: TextKind::Date,
    needed: false,
}];

const KEY_OPTION: &[OptionForm] = &[OptionForm {
    name: "key",
    kind: TextKind::Key,
    needed: true,
}];

impl CommandName {
    /// The command that a word names.
    pub fn of(word: &str) -> Option<CommandName>
        ensures { result ≡ name_of word.now }
    {
        named_in(&COMMANDS, word)
    }

    /// The form of its lines.
    pub fn form(self) -> Form
        ensures { result ≡ form_of self }
    {
        match self {
            CommandName::Put => writing("put", &[TextKind::Dir]),
            CommandName::Get => plain("get", &[TextKind::Dir, TextKind::Blobref]),
            CommandName::Stat => plain("stat", &[TextKind::Dir, TextKind::Blobref]),
            CommandName::List => with_options("list", LIST_OPTIONS),
            CommandName::Search => with_options("search", SEARCH_OPTIONS),
            CommandName::Words => Form {
                options: WORDS_OPTIONS,
                ..plain("words", &[TextKind::Dir, TextKind::Any])
            },
            CommandName::Query => plain("query", &[TextKind::Dir]),
            CommandName::Salvage => plain("salvage", &[TextKind::Dir]),
            CommandName::SearchPack => plain("search-pack", &[TextKind::Name, TextKind::Any]),
            CommandName::Permanode => signed("permanode", &[TextKind::Dir]),
            CommandName::Claim => Form {
                needed: 4,
                optional_after: Some((1, "del")),
                ..signed(
                    "claim",
                    &[
                        TextKind::Dir,
                        TextKind::Change,
                        TextKind::Blobref,
                        TextKind::Name,
                        TextKind::Any,
                    ],
                )
            },
            CommandName::Multi => signed("multi", &[TextKind::Dir]),
            CommandName::Delete => signed("delete", &[TextKind::Dir, TextKind::Blobref]),
            CommandName::PutFile => writing("put-file", &[TextKind::Dir, TextKind::Any]),
            CommandName::GetFile => plain("get-file", &[TextKind::Dir, TextKind::Blobref]),
            CommandName::Push => plain("push", &[TextKind::Dir, TextKind::Addr]),
            CommandName::Pull => writing("pull", &[TextKind::Dir, TextKind::Addr]),
            CommandName::Load => plain(
                "load",
                &[
                    TextKind::Number(1, MAX_COUNT),
                    TextKind::Number(0, MAX_START),
                ],
            ),
        }
    }
}

// Positions alone, all of them needed, of a command that leaves the store as it is.
fn plain(name: &'static str, positions: &'static [TextKind]) -> Form
    ensures { result ≡ row name.now false positions.now (length positions.now) None [] }
{
    Form {
        name,
        writes: false,
        positions,
        needed: positions.len(),
        optional_after: None,
        options: &[],
    }
}

// Positions alone, all of them needed, of a command that may change the store.
fn writing(name: &'static str, positions: &'static [TextKind]) -> Form
    ensures { result ≡ row name.now true positions.now (length positions.now) None [] }
{
    Form {
        writes: true,
        ..plain(name, positions)
    }
}

// Positions, all of them needed, and the key, of a command that may change the store.
fn signed(name: &'static str, positions: &'static [TextKind]) -> Form
    ensures { result
        ≡ row name.now true positions.now (length positions.now) None (must (codes "key") Key ∷ []) }
{
    Form {
        options: KEY_OPTION,
        ..writing(name, positions)
    }
}

// DIR and options, of a command that leaves the store as it is.
fn with_options(name: &'static str, options: &'static [OptionForm]) -> Form
    ensures { result ≡ row name.now false (Dir ∷ []) 1 None (options_seen options.now) }
{
    Form {
        options,
        ..plain(name, &[TextKind::Dir])
    }
}

fn named_in(names: &[CommandName], word: &str) -> Option<CommandName>
    ensures { result ≡ named_in names.now word.now }
{
    for name in names {
        if name.form().name == word {
            return Some(*name);
        }
    }
    None
}
