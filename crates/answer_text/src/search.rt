//! The text of a search answer.
ghost use Rattle.std.specs.Prelude.{◌≡◌, IfOk};
ghost use Rattle.answer_text.specs.Search.{search_text};

use crate::entries::push_entries;
use blobref::{NoMemory, Octets, RefList};
use std::alloc::Global;

/// The JSON text of a search that found these refs, in their order (`docs/formats/answers.md`).
pub fn search_text(alloc: Global, refs: &RefList) -> Result<Octets, NoMemory>
    ensures { IfOk result (λ octets. octets ≡ search_text refs.now) }
{
    let mut text = Vec::new(alloc);
    text.extend_from_slice(b"{\"blobs\":[")?;
    push_entries(&mut text, refs.as_slice())?;
    text.extend_from_slice(b"]}")?;
    Ok(Octets::from_vec(text))
}
