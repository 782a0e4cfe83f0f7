//! Pages, and what was received, read from the texts of answers.
ghost use Rattle.std.specs.Prelude.{◌≡◌, IfOk, codes};
ghost use Rattle.serde_json.specs.View.{view};
ghost use Rattle.serde_json.specs.Find.{get};
ghost use Rattle.answer_text.specs.Reading.{more_in, page_of, page_in, received_in, Tells};

use crate::listed::{ascends, entries_at};
use blobref::{Listing, NoMemory, Ref};
use json_laws::json_in;
use serde_json::Value;
use std::alloc::Global;
use thiserror::Error;

/// Why the text of an answer wasn't read.
#[derive(Clone, Copy, Debug, PartialEq, Eq, Error)]
pub enum AnswerFault {
    /// It doesn't say what was to be read.
    #[error("the reply is not the text of such an answer")]
    BadReply,
    /// No memory was left.
    #[error("no memory was left for the reply")]
    NoMemory,
}

impl From<NoMemory> for AnswerFault {
    ghost use Rattle.answer_text.specs.declared.reading.AnswerFault.TheVariants.{NoMemory as OutOfMemory};

    ghost from_gives = { λ _ fault. fault ≡ OutOfMemory };

    fn from(_error: NoMemory) -> AnswerFault {
        AnswerFault::NoMemory
    }
}

/// The blobs of a page with their sizes, ascending by ref, and the ref after which it goes on, where it names one
/// (`docs/formats/answers.md#reading`). `BadReply` comes exactly where the text is no page. It takes memory in
/// proportion to the text.
pub fn read_page(alloc: Global, text: &[u8]) -> Result<(Listing, Option<Ref>), AnswerFault>
    ensures { Tells (page_in text.now) result }
{
    let Some(value) = json_in(alloc, text)? else {
        return Err(AnswerFault::BadReply);
    };
    let Some(page) = page_of(alloc, &value)? else {
        return Err(AnswerFault::BadReply);
    };
    Ok(page)
}

/// The blobs with their sizes that a text says were received, in its order (`docs/formats/answers.md#reading`).
/// `BadReply` comes exactly where the text doesn't say so. It takes memory in proportion to the text.
pub fn read_received(alloc: Global, text: &[u8]) -> Result<Listing, AnswerFault>
    ensures { Tells (received_in text.now) result }
{
    let Some(value) = json_in(alloc, text)? else {
        return Err(AnswerFault::BadReply);
    };
    let Some(entries) = entries_at(alloc, &value, "received")? else {
        return Err(AnswerFault::BadReply);
    };
    Ok(entries)
}

// The page that a value is.
fn page_of(alloc: Global, value: &Value) -> Result<Option<(Listing, Option<Ref>)>, NoMemory>
    ensures { IfOk result (λ page. page ≡ page_of (view value.now)) }
{
    let Some(entries) = entries_at(alloc, value, "blobs")? else {
        return Ok(None);
    };
    if !ascends(entries.as_slice()) {
        return Ok(None);
    }
    match more_at(value) {
        Some(more) => Ok(Some((entries, more))),
        None => Ok(None),
    }
}

// The ref after which a page goes on. A text that is no ref names none, and anything but a text makes it no page.
fn more_at(object: &Value) -> Option<Option<Ref>>
    ensures { result ≡ more_in (get (codes "continueAfter") (view object.now)) }
{
    match object.get("continueAfter") {
        None => Some(None),
        Some(value) => {
            let text = value.as_str()?;
            Some(Ref::read(text.as_bytes()))
        }
    }
}
