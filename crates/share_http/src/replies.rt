//! Makes replies.
ghost use Rattle.std.specs.Prelude.{◌≡◌, [], IsSome, OnOk};
ghost use Rattle.http.specs.StatusCode.{IsStatusCode, reason_phrase};
ghost use Rattle.edge_base.specs.Edge.{SinkTook, SinkTookFront, HasCause};
ghost use Rattle.http_exchange.specs.Replies.{reply_text};
ghost use Rattle.share_http.specs.Answers.{allow_of, share_refusal, denied_reply, entry_of, text_of, IsTold};
ghost use Rattle.share_http.specs.Answers.{FaultMade, FetchMade};

use crate::denials::denied_text;
use crate::entries::ShareTold;
use answer_text::Refusal;
use blobref::{Octets, Ref};
use edge_base::{Failed, GetFault, Sink};
use http_exchange::{Kind, Reply, make_refusal, make_reply, write_memory_reply, write_reply};
use share_gate::Rule;
use std::alloc::Global;

/// A reply that was made, or none if there was no memory for it.
#[derive(Drop)]
pub enum ReplyText {
    Told { entry: ShareTold, reply: Reply },
    Memory,
}

/// The entry of a reply.
pub(crate) fn entry_of(made: &ReplyText) -> ShareTold
    ensures { result ≡ entry_of made.now }
{
    match made {
        ReplyText::Told { entry, .. } => *entry,
        ReplyText::Memory => ShareTold::Memory,
    }
}

// The methods that a refusal lists as allowed.
fn allow_of(refusal: &Refusal) -> &'static str
    ensures { result.now ≡ allow_of refusal.now }
{
    match refusal {
        Refusal::Method => "GET",
        _ => "",
    }
}

/// The reply to a request that is refused.
pub(crate) fn refused(alloc: Global, entry: ShareTold, closes: bool, refusal: &Refusal) -> ReplyText
    ensures { IsTold entry (share_refusal closes refusal.now) result }
{
    match make_refusal(alloc, closes, allow_of(refusal), refusal) {
        Ok(reply) => ReplyText::Told { entry, reply },
        Err(_) => ReplyText::Memory,
    }
}

/// The reply to a path that a rule denies.
pub(crate) fn denied(alloc: Global, closes: bool, rule: &Rule) -> ReplyText
    ensures { IsTold ShareTold.Defined (denied_reply closes rule.now) result }
{
    let Ok(text) = denied_text(alloc, rule) else {
        return ReplyText::Memory;
    };
    reply_with(alloc, 403, Kind::Json, closes, text)
}

// The reply with this body, as it is defined.
fn reply_with(alloc: Global, code: u16, kind: Kind, closes: bool, body: Octets) -> ReplyText
    requires code { IsStatusCode code }
    requires phrase { IsSome (reason_phrase code) }
    ensures { IsTold ShareTold.Defined (reply_text code kind closes [] body) result }
{
    match make_reply(alloc, code, kind, closes, "", body) {
        Ok(reply) => ReplyText::Told {
            entry: ShareTold::Defined,
            reply,
        },
        Err(_) => ReplyText::Memory,
    }
}

/// The reply to the result of a fetch.
pub(crate) fn fetched_reply(
    alloc: Global,
    closes: bool,
    r: &Ref,
    fetched: Result<Option<Octets>, GetFault>,
) -> ReplyText
    ensures { FetchMade closes r.now fetched result }
{
    match fetched {
        Ok(Some(bytes)) => reply_with(alloc, 200, Kind::Bytes, closes, bytes),
        Ok(None) => absent(alloc, closes, r),
        Err(fault) => fault_reply(alloc, closes, fault),
    }
}

// The reply if a blob can't be read.
fn fault_reply(alloc: Global, closes: bool, fault: GetFault) -> ReplyText
    ensures { FaultMade closes fault result }
{
    match fault {
        GetFault::Disk => refused(alloc, ShareTold::Disk, closes, &Refusal::Disk),
        GetFault::Damaged { want, is } => refused(
            alloc,
            ShareTold::Damaged { want, is },
            closes,
            &Refusal::Damaged { want, is },
        ),
        GetFault::NoMemory => ReplyText::Memory,
    }
}

/// The reply if the blob of a ref isn't there.
pub(crate) fn absent(alloc: Global, closes: bool, r: &Ref) -> ReplyText
    ensures { IsTold ShareTold.Defined (share_refusal closes (Refusal.Absent r.now)) result }
{
    refused(
        alloc,
        ShareTold::Defined,
        closes,
        &Refusal::Absent { r: *r },
    )
}

/// Writes the reply.
pub(crate) fn write_made<K: Sink>(
    alloc: Global,
    sink: &mut K,
    made: &ReplyText,
) -> Result<(), Failed>
    ensures whole { OnOk result (SinkTook (K.written sink.old) (K.written sink.new) (text_of made.now)) }
    ensures front { SinkTookFront (K.written sink.old) (K.written sink.new) (text_of made.now) }
    ensures cause { HasCause (K.faults sink.old) (K.faults sink.new) result }
{
    match made {
        ReplyText::Told { reply, .. } => write_reply(alloc, sink, reply),
        ReplyText::Memory => write_memory_reply(sink),
    }
}
