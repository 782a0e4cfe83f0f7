//! The words that bring a store and servers to one state.
ghost use Rattle.std.specs.Prelude.{◌≡◌, ◌≤◌, length, is_some, IfOk, IfSome, option_map};
ghost use Rattle.perkeep_words.specs.Parts.{start, parts_from};
ghost use Rattle.perkeep_words.specs.Mirroring.{mirror_form, is_mirror_line, addresses_in, mirror_of};

use crate::forms::{Form, count, position};
use crate::kinds::TextKind;
use blobref::{NoMemory, Text, TextList};
use std::alloc::Global;

const POSITIONS: &[TextKind] = &[
    TextKind::Dir,
    TextKind::Addr,
    TextKind::Addr,
    TextKind::Addr,
    TextKind::Addr,
    TextKind::Addr,
    TextKind::Addr,
    TextKind::Addr,
    TextKind::Addr,
    TextKind::Addr,
    TextKind::Addr,
    TextKind::Addr,
    TextKind::Addr,
    TextKind::Addr,
    TextKind::Addr,
    TextKind::Addr,
    TextKind::Addr,
];

/// How many addresses of servers the words name, where they are a line of `mirror` (`docs/commands.md`): 1 to 16.
/// `None` exactly where they are none. It takes no memory.
pub fn mirror_count(words: &[Text]) -> Option<usize>
    ensures count { result ≡ option_map length (mirror_of words.now) }
    ensures few { IfSome result (λ n. n ≤ 16) }
{
    let (word, behind) = words.split_first()?;
    if word.as_str() != "mirror" || !is_mirror_line(behind) {
        return None;
    }
    Some(count(behind, None) - 1)
}

/// The addresses that the words name, in their order, where they are a line of `mirror` (`docs/commands.md`). `None`
/// exactly where they are none. Where DIR stands `places` says.
pub fn mirror_words(alloc: Global, words: &[Text]) -> Result<Option<TextList>, NoMemory>
    ensures { IfOk result (λ found. found ≡ mirror_of words.now) }
{
    let Some((word, behind)) = words.split_first() else {
        return Ok(None);
    };
    if word.as_str() != "mirror" || !is_mirror_line(behind) {
        return Ok(None);
    }
    let addresses = addresses_in(alloc, behind)?;
    Ok(Some(addresses))
}

/// Whether the words are a line of `mirror`.
pub(crate) fn is_mirror(words: &[Text]) -> bool
    ensures { result ≡ is_some (mirror_of words.now) }
{
    match words.split_first() {
        Some((word, behind)) => word.as_str() == "mirror" && is_mirror_line(behind),
        None => false,
    }
}

fn mirror_form() -> Form
    ensures { result ≡ mirror_form }
{
    Form {
        name: "mirror",
        writes: true,
        positions: POSITIONS,
        needed: 2,
        optional_after: None,
        options: &[],
    }
}

// Whether the words behind `mirror` are a line.
fn is_mirror_line(behind: &[Text]) -> bool
    ensures { result ≡ is_mirror_line behind.now }
{
    mirror_form().knows_all(behind) && 2 <= count(behind, None)
}

// The positions behind the first one.
fn addresses_in(alloc: Global, behind: &[Text]) -> Result<TextList, NoMemory>
    ensures { IfOk result (λ addresses. addresses ≡ addresses_in (parts_from start behind.now)) }
{
    let mut addresses = TextList::empty(alloc);
    'addresses: for place in 1..count(behind, None) {
        addresses.push(Text::copy(alloc, position(behind, place))?)?;
    }
    Ok(addresses)
}
