//! The line of each command, as a person types it.

/// The commands, in the order of docs/commands.md.
pub(crate) const COMMANDS: &str =
    "put, get, stat, list, search, words, query, salvage, search-pack, \
    permanode, claim, multi, delete, get-file, put-file, push, pull, mirror, load, serve and serve-shares";

// Each command with its line, and with `< FILE` where it reads standard input.
const LINES: &[(&str, &str)] = &[
    ("put", "put DIR < FILE"),
    ("get", "get DIR REF"),
    ("stat", "stat DIR REF"),
    ("list", "list DIR [--after REF] [--limit N]"),
    ("search", "search DIR --attr A --value V [--at DATE]"),
    ("words", "words DIR TEXT [--at DATE]"),
    ("query", "query DIR < FILE"),
    ("salvage", "salvage DIR"),
    ("search-pack", "search-pack A V < FILE"),
    ("permanode", "permanode DIR --key NAME"),
    (
        "claim",
        "claim DIR KIND REF ATTR [VALUE] --key NAME, where KIND is set, add or del",
    ),
    ("multi", "multi DIR --key NAME < FILE"),
    ("delete", "delete DIR REF --key NAME"),
    ("get-file", "get-file DIR REF"),
    ("put-file", "put-file DIR NAME < FILE"),
    ("push", "push DIR ADDR"),
    ("pull", "pull DIR ADDR"),
    ("mirror", "mirror DIR ADDR.."),
    ("load", "load COUNT START"),
    (
        "serve",
        "serve DIR --port N [--workers N] [--indexers N] [--connections N]",
    ),
    (
        "serve-shares",
        "serve-shares DIR --port N [--connections N]",
    ),
];

/// The line of a command; the command itself where there is none of that name.
pub(crate) fn line_of(command: &str) -> &str {
    for (name, line) in LINES {
        if *name == command {
            return *line;
        }
    }
    command
}
