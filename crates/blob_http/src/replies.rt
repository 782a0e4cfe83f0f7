//! The texts of replies.
ghost use Rattle.std.specs.Prelude.{◌≡◌, [], IsSome, IfOk, OnOk, option_copied};
ghost use Rattle.http.specs.StatusCode.{IsStatusCode, reason_phrase};
ghost use Rattle.edge_base.specs.Edge.{SinkTook, SinkTookFront, HasCause};
ghost use Rattle.answer_text.specs.Search.{search_text};
ghost use Rattle.answer_text.specs.Listings.{stat_text};
ghost use Rattle.http_exchange.specs.Replies.{reply_text, json_reply, refused_reply};
ghost use Rattle.blob_http.specs.Answers.{allow_text, text_of, IsTold, FaultMade, BlobMade, TextMade, cut_page};
ghost use Rattle.blob_http.specs.Answers.{last_ref};

use crate::entries::Outcome;
use answer_text::{Refusal, page_text, search_text, stat_text};
use blob_routes::Allowed;
use blobref::{Listing, NoMemory, Octets, Ref, RefList};
use edge_base::{Failed, GetFault, Sink};
use http_exchange::{Kind, Reply, make_refusal, make_reply, write_memory_reply, write_reply};
use std::alloc::Global;

/// A reply that was made, or none where there was no memory for it.
#[derive(Drop)]
pub enum ReplyText {
    Told { outcome: Outcome, reply: Reply },
    Memory,
}

fn allow_text(allow: Option<Allowed>) -> &'static str
    ensures { result.now ≡ allow_text allow }
{
    match allow {
        Some(allow) => allow.text(),
        None => "",
    }
}

/// The reply with this body.
pub(crate) fn reply_with(
    alloc: Global,
    outcome: Outcome,
    code: u16,
    kind: Kind,
    closes: bool,
    body: Octets,
) -> ReplyText
    requires code { IsStatusCode code }
    requires phrase { IsSome (reason_phrase code) }
    ensures { IsTold outcome (reply_text code kind closes [] body) result }
{
    match make_reply(alloc, code, kind, closes, "", body) {
        Ok(reply) => ReplyText::Told { outcome, reply },
        Err(_) => ReplyText::Memory,
    }
}

/// The reply to what is refused.
pub(crate) fn refused(
    alloc: Global,
    outcome: Outcome,
    closes: bool,
    allow: Option<Allowed>,
    refusal: &Refusal,
) -> ReplyText
    ensures { IsTold outcome (refused_reply closes (allow_text allow) refusal.now) result }
{
    match make_refusal(alloc, closes, allow_text(allow), refusal) {
        Ok(reply) => ReplyText::Told { outcome, reply },
        Err(_) => ReplyText::Memory,
    }
}

/// The reply to what a fetch gave.
pub(crate) fn blob_reply(
    alloc: Global,
    closes: bool,
    r: &Ref,
    fetched: Result<Option<Octets>, GetFault>,
) -> ReplyText
    ensures { BlobMade closes r.now fetched result }
{
    match fetched {
        Ok(Some(bytes)) => reply_with(alloc, Outcome::Defined, 200, Kind::Bytes, closes, bytes),
        Ok(None) => refused(
            alloc,
            Outcome::Defined,
            closes,
            None,
            &Refusal::Absent { r: *r },
        ),
        Err(fault) => fault_reply(alloc, closes, fault),
    }
}

/// The reply where a blob can't be read.
pub(crate) fn fault_reply(alloc: Global, closes: bool, fault: GetFault) -> ReplyText
    ensures { FaultMade closes fault result }
{
    match fault {
        GetFault::Disk => refused(alloc, Outcome::Disk, closes, None, &Refusal::Disk),
        GetFault::Damaged { want, is } => refused(
            alloc,
            Outcome::Damaged { want, is },
            closes,
            None,
            &Refusal::Damaged { want, is },
        ),
        GetFault::NoMemory => ReplyText::Memory,
    }
}

/// The reply with this text.
pub(crate) fn json(alloc: Global, closes: bool, text: Octets) -> ReplyText
    ensures { IsTold Outcome.Defined (json_reply closes text) result }
{
    reply_with(alloc, Outcome::Defined, 200, Kind::Json, closes, text)
}

/// The reply to what a search gave.
pub(crate) fn search_reply(
    alloc: Global,
    closes: bool,
    found: Result<RefList, NoMemory>,
) -> ReplyText
    ensures { TextMade closes search_text found result }
{
    let Ok(refs) = found else {
        return ReplyText::Memory;
    };
    let Ok(text) = search_text(alloc, &refs) else {
        return ReplyText::Memory;
    };
    json(alloc, closes, text)
}

/// The reply to what stands of the refs that are asked after.
pub(crate) fn stat_reply(alloc: Global, closes: bool, found: Result<Listing, NoMemory>) -> ReplyText
    ensures { TextMade closes stat_text found result }
{
    let Ok(listing) = found else {
        return ReplyText::Memory;
    };
    let Ok(text) = stat_text(alloc, &listing) else {
        return ReplyText::Memory;
    };
    json(alloc, closes, text)
}

/// The reply to a page of this limit, of what was found for one that is longer by one.
pub(crate) fn page_reply(
    alloc: Global,
    closes: bool,
    limit: usize,
    found: Result<Listing, NoMemory>,
) -> ReplyText
    ensures { TextMade closes (cut_page limit) found result }
{
    let Ok(listing) = found else {
        return ReplyText::Memory;
    };
    let Ok(text) = cut_page(alloc, limit, &listing) else {
        return ReplyText::Memory;
    };
    json(alloc, closes, text)
}

fn cut_page(alloc: Global, limit: usize, further: &Listing) -> Result<Octets, NoMemory>
    ensures { IfOk result (λ text. text ≡ cut_page limit further.now) }
{
    if further.len() <= limit {
        return page_text(alloc, further, None);
    }
    let shown = front_of(alloc, &further.as_slice()[..limit])?;
    page_text(alloc, &shown, last_ref(shown.as_slice()))
}

fn front_of(alloc: Global, entries: &[(Ref, u64)]) -> Result<Listing, NoMemory>
    ensures { IfOk result (λ listing. listing ≡ entries.now) }
{
    let mut listing = Listing::empty(alloc);
    for entry in entries {
        listing.push((entry.0, entry.1))?;
    }
    Ok(listing)
}

fn last_ref(shown: &[(Ref, u64)]) -> Option<&Ref>
    ensures { option_copied result ≡ last_ref shown.now }
{
    let entry = shown.last()?;
    Some(&entry.0)
}

/// Writes the reply.
pub(crate) fn write_reply_text<K: Sink>(
    alloc: Global,
    sink: &mut K,
    reply: &ReplyText,
) -> Result<(), Failed>
    ensures whole { OnOk result (SinkTook (K.written sink.old) (K.written sink.new) (text_of reply.now)) }
    ensures front { SinkTookFront (K.written sink.old) (K.written sink.new) (text_of reply.now) }
    ensures cause { HasCause (K.faults sink.old) (K.faults sink.new) result }
{
    match reply {
        ReplyText::Told { reply, .. } => write_reply(alloc, sink, reply),
        ReplyText::Memory => write_memory_reply(sink),
    }
}
