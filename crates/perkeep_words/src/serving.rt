//! The words that start a server.
ghost use Rattle.std.specs.Prelude.{◌≡◌, IfSome};
ghost use Rattle.perkeep_words.specs.Parts.{start, parts_from};
ghost use Rattle.perkeep_words.specs.Kinds.{number_within};
ghost use Rattle.perkeep_words.specs.Serving.{serve_form, plan_in, is_serve_line, serve_of, IsInRange};

use crate::forms::{Form, OptionForm, nth};
use crate::kinds::{TextKind, number_within};
use crate::reading::number_option;
use blobref::Text;

/// The greatest port.
pub(crate) const MAX_PORT: u64 = 65_535;

const MAX_THREADS: u64 = 64;

const DEFAULT_WORKERS: u64 = 8;

const DEFAULT_INDEXERS: u64 = 2;

const OPTIONS: &[OptionForm] = &[
    OptionForm {
        name: "port",
        kind: TextKind::Number(1, MAX_PORT),
        needed: true,
    },
    OptionForm {
        name: "workers",
        kind: TextKind::Number(1, MAX_THREADS),
        needed: false,
    },
    OptionForm {
        name: "indexers",
        kind: TextKind::Number(1, MAX_THREADS),
        needed: false,
    },
    OptionForm {
        name: "connections",
        kind: TextKind::Number(1, u64::MAX),
        needed: false,
    },
];

/// What a line of `serve` asks for (`docs/commands.md`). Where its DIR stands `places` tells.
#[derive(Clone, Copy, Debug, PartialEq, Eq)]
pub struct ServePlan {
    /// The port on the loopback address.
    pub port: u16,
    /// How many connections are served at once.
    pub workers: usize,
    /// How many threads index what arrives.
    pub indexers: usize,
    /// How many connections are accepted before the server ends: `u64::MAX` where the line has no such number.
    pub connections: u64,
}

/// What the words ask for, where they are a line of `serve`. `None` exactly where they are none: a port, or a number
/// of workers, indexers or connections, that may not stand there makes them no line.
pub fn serve_words(words: &[Text]) -> Option<ServePlan>
    ensures plan { result ≡ serve_of words.now }
    ensures range { IfSome result IsInRange }
{
    let (word, behind) = words.split_first()?;
    if word.as_str() != "serve" || !is_serve_line(behind) {
        return None;
    }
    plan_in(behind)
}

fn serve_form() -> Form
    ensures { result ≡ serve_form }
{
    Form {
        name: "serve",
        writes: true,
        positions: &[TextKind::Dir],
        needed: 1,
        optional_after: None,
        options: OPTIONS,
    }
}

// Whether the words behind `serve` are a line in which nothing is wrong.
fn is_serve_line(behind: &[Text]) -> bool
    ensures { result ≡ is_serve_line behind.now }
{
    let form = serve_form();
    form.has_line(behind) && form.first_fault(behind).is_none()
}

// What a line asks for.
fn plan_in(behind: &[Text]) -> Option<ServePlan>
    ensures plan { result ≡ plan_in (parts_from start behind.now) }
    ensures range { IfSome result IsInRange }
{
    let port = number_within(1, MAX_PORT, nth(behind, Some("port"), 0)?)?;
    Some(ServePlan {
        port: port as u16,
        workers: number_option(behind, "workers", 1, MAX_THREADS, DEFAULT_WORKERS) as usize,
        indexers: number_option(behind, "indexers", 1, MAX_THREADS, DEFAULT_INDEXERS) as usize,
        connections: number_option(behind, "connections", 1, u64::MAX, u64::MAX),
    })
}
