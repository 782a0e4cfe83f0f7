//! The words that start a server of shares.
ghost use Rattle.std.specs.Prelude.{◌≡◌, IfSome};
ghost use Rattle.perkeep_words.specs.Parts.{start, parts_from};
ghost use Rattle.perkeep_words.specs.Kinds.{number_within};
ghost use Rattle.perkeep_words.specs.Sharing.{share_form, share_plan_in, is_share_line, share_of, IsSharePlan};

use crate::forms::{Form, OptionForm, nth};
use crate::kinds::{TextKind, number_within};
use crate::reading::number_option;
use crate::serving::MAX_PORT;
use blobref::Text;

const OPTIONS: &[OptionForm] = &[
    OptionForm {
        name: "port",
        kind: TextKind::Number(1, MAX_PORT),
        needed: true,
    },
    OptionForm {
        name: "connections",
        kind: TextKind::Number(1, u64::MAX),
        needed: false,
    },
];

/// What a line of `serve-shares` asks for (`docs/commands.md`). Where its DIR stands `places` tells.
#[derive(Clone, Copy, Debug, PartialEq, Eq)]
pub struct SharePlan {
    /// The port on the loopback address.
    pub port: u16,
    /// How many connections are accepted before the server ends: `u64::MAX` where the line has no such number.
    pub connections: u64,
}

/// What the words ask for, where they are a line of `serve-shares`. `None` exactly where they are none: a port, or a
/// number of connections, that may not stand there makes them no line.
pub fn share_words(words: &[Text]) -> Option<SharePlan>
    ensures plan { result ≡ share_of words.now }
    ensures range { IfSome result IsSharePlan }
{
    let (word, behind) = words.split_first()?;
    if word.as_str() != "serve-shares" || !is_share_line(behind) {
        return None;
    }
    share_plan_in(behind)
}

fn share_form() -> Form
    ensures { result ≡ share_form }
{
    Form {
        name: "serve-shares",
        writes: false,
        positions: &[TextKind::Dir],
        needed: 1,
        optional_after: None,
        options: OPTIONS,
    }
}

// Whether the words behind `serve-shares` are a line in which nothing is wrong.
fn is_share_line(behind: &[Text]) -> bool
    ensures { result ≡ is_share_line behind.now }
{
    let form = share_form();
    form.has_line(behind) && form.first_fault(behind).is_none()
}

// What a line asks for.
fn share_plan_in(behind: &[Text]) -> Option<SharePlan>
    ensures plan { result ≡ share_plan_in (parts_from start behind.now) }
    ensures range { IfSome result IsSharePlan }
{
    let port = number_within(1, MAX_PORT, nth(behind, Some("port"), 0)?)?;
    Some(SharePlan {
        port: port as u16,
        connections: number_option(behind, "connections", 1, u64::MAX, u64::MAX),
    })
}
