//! The question of a request, by its head.
ghost use Rattle.std.specs.Prelude.{◌≡◌, IfOk, map};
ghost use Rattle.std.specs.List.{slice_split};
ghost use Rattle.http_exchange.specs.HeadPlaces.{HasPieces};
ghost use Rattle.share_http.specs.Asking.{share_ref, routed_ref, routed_of, is_comma, refs_of, via_in, via_of};
ghost use Rattle.share_http.specs.Asking.{question_by};

use answer_text::Refusal;
use blobref::{NoMemory, Ref, RefList};
use http_exchange::first_value;
use http_wire::{Head, Wire};
use std::alloc::{AllocError, Global};

/// The question of a request, or why it is refused.
#[derive(Drop)]
pub enum Question {
    /// The request is refused.
    Refused { refusal: Refusal },
    /// The blob of the ref at the end of a path, which has the refs of `via` before it.
    Path { r: Ref, via: RefList },
}

/// The ref that a request asks for by its method and its path, or why it is refused.
pub(crate) fn ref_of_head(wire: &Wire, head: &Head) -> Result<Ref, Refusal>
    requires { HasPieces wire.now.head head.now }
    ensures { result ≡ routed_of wire.now.head head.now }
{
    routed_ref(wire.piece(&head.method), share_ref(wire.piece(&head.path)))
}

// The ref that a path names.
fn share_ref(path: &[u8]) -> Option<Ref>
    ensures { result ≡ share_ref path.now }
{
    Ref::read(path.strip_prefix(b"/share/")?)
}

fn routed_ref(method: &[u8], r: Option<Ref>) -> Result<Ref, Refusal>
    ensures { result ≡ routed_ref method.now r }
{
    let Some(r) = r else {
        return Err(Refusal::NoRoute);
    };
    if method != b"GET".as_slice() {
        return Err(Refusal::Method);
    }
    Ok(r)
}

/// The question about a ref with the query of its path.
pub(crate) fn question_of(alloc: Global, r: &Ref, query: &[u8]) -> Result<Question, NoMemory>
    ensures { IfOk result (λ question. question ≡ question_by r.now (via_in query.now)) }
{
    match via_in(alloc, query)? {
        Some(via) => Ok(Question::Path { r: *r, via }),
        None => Ok(Question::Refused {
            refusal: Refusal::BadRef,
        }),
    }
}

// The refs of the first `via`; `None` if a piece of it isn't a ref.
fn via_in(alloc: Global, query: &[u8]) -> Result<Option<RefList>, NoMemory>
    ensures { IfOk result (λ via. via ≡ via_in query.now) }
{
    match first_value(alloc, query, b"via")? {
        Some(text) => via_of(alloc, text.as_bytes()),
        None => Ok(Some(RefList::empty(alloc))),
    }
}

fn via_of(alloc: Global, text: &[u8]) -> Result<Option<RefList>, NoMemory>
    ensures { IfOk result (λ via. via ≡ via_of text.now) }
{
    if text.is_empty() {
        return Ok(Some(RefList::empty(alloc)));
    }
    refs_of(alloc, pieces(alloc, text)?.as_slice())
}

// The pieces of a string between commas.
fn pieces(alloc: Global, text: &[u8]) -> Result<Vec<&[u8]>, AllocError>
    ensures { IfOk result (λ found. map (λ x. x.now) found.items ≡ slice_split is_comma text.now) }
{
    text.split(|byte| *byte == b',').collect(alloc)
}

// The refs that these strings spell; `None` if one isn't a ref.
fn refs_of(alloc: Global, pieces: &[&[u8]]) -> Result<Option<RefList>, NoMemory>
    ensures { IfOk result (λ refs. refs ≡ refs_of (map (λ x. x.now) pieces.now)) }
{
    let mut refs = RefList::empty(alloc);
    for piece in pieces {
        match Ref::read(piece) {
            Some(r) => refs.push(r)?,
            None => return Ok(None),
        }
    }
    Ok(Some(refs))
}
