//! What replies say.
ghost use Rattle.std.specs.Prelude.{◌≡◌, ◌≤◌, ◌<◌, ℕ, Some, None, length, IfOk, IfSome, OnErr, option_copied};
ghost use Rattle.std.specs.List.{list_all};
ghost use Rattle.blobref.specs.Blobref.{IsOwnRef, is_after};
ghost use Rattle.peer_base.specs.Blobs.{IsPage};
ghost use Rattle.peer_base.specs.Causes.{ListCause, FetchCause};
ghost use Rattle.answer_text.specs.Reading.{page_in, received_in};
ghost use Rattle.peer_http.specs.Answers.{IsAnswer, is_page, page_answer, list_answer, blob_answer, fetch_answer, has_entry, received_answer, put_answer};

use crate::replies::Reply;
use answer_text::{AnswerFault, read_page, read_received};
use blob_checks::ref_like;
use blobref::{Listing, Octets, Ref};
use peer_base::PeerFault;
use std::alloc::Global;

/// The page that a reply to `list` gives. `BadReply` comes exactly where the status is 200 and the body no page, or one
/// that wasn't asked for, and `Refused` exactly where the status is another one.
pub(crate) fn list_answer(
    alloc: Global,
    after: Option<&Ref>,
    limit: usize,
    reply: &Reply,
) -> Result<Listing, PeerFault>
    ensures says { IsAnswer (list_answer (option_copied after.entry) limit reply.now) result }
    ensures page { IfOk result (IsPage (option_copied after.entry) limit) }
    ensures cause { (before now : ℕ) → ListCause None before now result }
{
    if reply.status != 200 {
        return Err(PeerFault::Refused {
            status: reply.status,
        });
    }
    page_answer(alloc, after, limit, reply.body.as_slice())
}

fn page_answer(
    alloc: Global,
    after: Option<&Ref>,
    limit: usize,
    text: &[u8],
) -> Result<Listing, PeerFault>
    ensures says { IsAnswer (page_answer (option_copied after.entry) limit (page_in text.now)) result }
    ensures page { IfOk result (IsPage (option_copied after.entry) limit) }
    ensures cause { (before now : ℕ) → ListCause None before now result }
{
    let read = match read_page(alloc, text) {
        Ok(read) => read,
        Err(AnswerFault::BadReply) => return Err(PeerFault::BadReply),
        Err(AnswerFault::NoMemory) => return Err(PeerFault::NoMemory),
    };
    if !is_page(read.0.as_slice(), after, limit) {
        return Err(PeerFault::BadReply);
    }
    Ok(read.0)
}

// Whether there are at most so many refs, all greater.
fn is_page(page: &[(Ref, u64)], after: Option<&Ref>, limit: usize) -> bool
    ensures { result ≡ is_page (option_copied after.entry) limit page.now }
{
    if page.len() > limit {
        return false;
    }
    match after {
        Some(after) => are_after(page, after),
        None => true,
    }
}

fn are_after(page: &[(Ref, u64)], after: &Ref) -> bool
    ensures { result ≡ list_all (λ entry. is_after (Some after.now) entry.0) page.now }
{
    page.iter().all(|entry| after.cmp(&entry.0).is_lt())
}

/// The bytes that a reply to `fetch` gives, which have the ref. `None` comes exactly where the status is 404, `Refused`
/// exactly where it is another one than 200, and `Damaged` exactly where it is 200 and the bytes have another ref.
pub(crate) fn fetch_answer(r: &Ref, reply: Reply) -> Result<Option<Octets>, PeerFault>
    ensures says { result ≡ fetch_answer r.now reply }
    ensures cause { (before now : ℕ) → FetchCause None before now r.now result }
    ensures named { IfOk result (λ found. IfSome found (λ bytes. IsOwnRef r.now bytes)) }
    ensures bytes { IfOk result (λ found. IfSome found (λ bytes. bytes ≡ reply.body)) }
{
    if reply.status == 404 {
        return Ok(None);
    }
    if reply.status != 200 {
        return Err(PeerFault::Refused {
            status: reply.status,
        });
    }
    blob_answer(r, reply.body)
}

fn blob_answer(r: &Ref, bytes: Octets) -> Result<Option<Octets>, PeerFault>
    ensures says { result ≡ blob_answer r.now bytes }
    ensures cause { (before now : ℕ) → FetchCause None before now r.now result }
    ensures named { IfOk result (λ found. IfSome found (λ bytes. IsOwnRef r.now bytes)) }
    ensures bytes { IfOk result (λ found. IfSome found (λ same. same ≡ bytes)) }
{
    let is = ref_like(r, bytes.as_slice());
    if is != *r {
        return Err(PeerFault::Damaged { want: *r, is });
    }
    Ok(Some(bytes))
}

/// Whether a reply to `put` says that the blob of this ref and size was received. `BadReply` comes exactly where the
/// status is 200 and the body doesn't say so, and `Refused` exactly where the status is another one.
pub(crate) fn put_answer(alloc: Global, r: &Ref, size: u64, reply: &Reply) -> Result<(), PeerFault>
    ensures says { IsAnswer (put_answer r.now size reply.now) result }
    ensures cause { (before now : ℕ) → ListCause None before now result }
{
    if reply.status != 200 {
        return Err(PeerFault::Refused {
            status: reply.status,
        });
    }
    received_answer(alloc, r, size, reply.body.as_slice())
}

fn received_answer(alloc: Global, r: &Ref, size: u64, text: &[u8]) -> Result<(), PeerFault>
    ensures says { IsAnswer (received_answer r.now size (received_in text.now)) result }
    ensures cause { (before now : ℕ) → ListCause None before now result }
{
    let entries = match read_received(alloc, text) {
        Ok(entries) => entries,
        Err(AnswerFault::BadReply) => return Err(PeerFault::BadReply),
        Err(AnswerFault::NoMemory) => return Err(PeerFault::NoMemory),
    };
    if !has_entry(entries.as_slice(), r, size) {
        return Err(PeerFault::BadReply);
    }
    Ok(())
}

fn has_entry(entries: &[(Ref, u64)], r: &Ref, size: u64) -> bool
    ensures { result ≡ has_entry r.now size entries.now }
{
    entries.iter().any(|entry| entry.0 == *r && entry.1 == size)
}
