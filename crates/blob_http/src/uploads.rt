//! Uploads, over any home.
ghost use Rattle.std.specs.Prelude.{◌≡◌, ◌≤◌, ◌||◌, not, Bool, Some, None, Ok, Err, IfOk, IfErr, IsErrOf, length};
ghost use Rattle.edge_base.specs.Edge.{FaultsRose};
ghost use Rattle.answer_text.specs.Listings.{upload_text};
ghost use Rattle.http_wire.specs.Heads.{HeadSpec};
ghost use Rattle.http_exchange.specs.Replies.{json_reply};
ghost use Rattle.blob_http.specs.Operations.{routed_of};
ghost use Rattle.blob_http.specs.Answers.{IsTold};
ghost use Rattle.blob_http.specs.Keeping.{upload_reply, UploadMade, is_whole};
ghost use Rattle.blob_http.specs.Handling.{ComesOf, IsUploadEntry, is_memory};

use crate::entries::Outcome;
use crate::handling::entry;
use crate::operations::refused;
use crate::replies::{ReplyText, json, reply_with};
use crate::requests::{Response, is_memory, out_of_memory, reply_early};
use answer_text::{Refusal, upload_text};
use blob_routes::{Route, boundary_of_upload};
use blob_upload::{Service, UploadEnd, take_parts};
use blobref::Listing;
use edge_base::Source;
use home_places::Home;
use http_exchange::{Ended, Kind, content_type};
use http_wire::{Head, Wire, WireEnd};
use multipart_read::Parts;
use std::alloc::Global;
use std::sync::Wait;

/// The reply to an upload, whose body is put part by part as it is read. Behind one that isn't whole the connection
/// closes.
pub(crate) fn reply_to_upload<H: Home, S: Source, R: Wait>(
    service: &Service<H, R>,
    pass: &mut H::Pass,
    wire: &mut Wire,
    source: &mut S,
    head: &Head,
) -> Result<Response, Ended>
    requires belongs { H.belongs service.now.home.now pass.old }
    requires read { HeadSpec wire.old.head (Ok head.now) }
    requires upload { routed_of wire.old.head head.now ≡ Ok Route.Upload }
    ensures own { H.belongs service.now.home.now pass.new }
    ensures comes { ComesOf (S.left source.old) (S.left source.new) wire.old wire.new head.now
        (H.tells service.now.home.now) (H.sight pass.old) (H.sight pass.new) result }
    ensures fault { IsErrOf result Ended.ReadFault → FaultsRose (S.faults source.old) (S.faults source.new) }
    ensures later { S.faults source.old ≤ S.faults source.new }
{
    let boundary = match boundary_of_upload(&head.framing, content_type(wire, head)) {
        Ok(boundary) => boundary,
        Err(refusal) => return Ok(reply_early(service, pass, head, refused(refusal))),
    };
    let Ok(parts) = Parts::with_boundary(service.alloc, boundary) else {
        return Ok(out_of_memory(service.home, pass));
    };
    let mut kept = Listing::empty(service.alloc);
    let end = take_parts(service, pass, wire, source, parts, &mut kept);
    reply_to_end(service, pass, &end, &kept, head.closes)
}

// The reply to what an upload came to.
fn reply_to_end<H: Home, R: Wait>(
    service: &Service<H, R>,
    pass: &H::Pass,
    end: &UploadEnd,
    kept: &Listing,
    closes: bool,
) -> Result<Response, Ended>
    ensures reply { IfOk result (λ response. UploadMade closes kept.now end.now (Ok response.reply)) }
    ensures entry { IfOk result
        (λ response. IsUploadEntry (H.sight pass.now) (length kept.now) response.reply response.entry) }
    ensures closes { IfOk result
        (λ response. response.closes ≡ ((closes || not (is_whole end.now)) || is_memory response.reply)) }
    ensures ends { IfErr result (λ ended. UploadMade closes kept.now end.now (Err ended)) }
{
    let reply = match reply_of_end(service.alloc, closes, end, kept) {
        Ok(reply) => reply,
        Err(ended) => return Err(ended),
    };
    let counts = service.home.seen(pass);
    let entry = entry(counts.0, counts.1, kept.len() as u64, &reply);
    let closes = closes_behind(closes, end, &reply);
    Ok(Response {
        entry,
        reply,
        closes,
    })
}

fn closes_behind(closes: bool, end: &UploadEnd, reply: &ReplyText) -> bool
    ensures { result ≡ ((closes || not (is_whole end.now)) || is_memory reply.now) }
{
    closes || !is_whole(end) || is_memory(reply)
}

fn is_whole(end: &UploadEnd) -> bool
    ensures { result ≡ is_whole end.now }
{
    matches!(end, UploadEnd::Whole)
}

// The text of the reply, or how the connection ends in the upload.
fn reply_of_end(
    alloc: Global,
    closes: bool,
    end: &UploadEnd,
    kept: &Listing,
) -> Result<ReplyText, Ended>
    ensures { UploadMade closes kept.now end.now result }
{
    match end {
        UploadEnd::Whole => Ok(whole(alloc, closes, kept)),
        UploadEnd::Refused(refusal) => Ok(part_kept(alloc, Outcome::Defined, refusal, kept)),
        UploadEnd::Full { blobs, pack } => Ok(full(alloc, *blobs, *pack, kept)),
        UploadEnd::Disk => Ok(part_kept(alloc, Outcome::Disk, &Refusal::Disk, kept)),
        UploadEnd::Memory => Ok(ReplyText::Memory),
        UploadEnd::Ended(end) => ended(alloc, *end, kept),
    }
}

fn full(alloc: Global, blobs: u64, pack: u32, kept: &Listing) -> ReplyText
    ensures { IsTold (Outcome.Full blobs pack) (upload_reply kept.now (Refusal.Full blobs pack)) result }
{
    part_kept(
        alloc,
        Outcome::Full { blobs, pack },
        &Refusal::Full { blobs, pack },
        kept,
    )
}

// How the connection ends in an upload. A break of the chunks has been told as a refusal.
fn ended(alloc: Global, end: WireEnd, kept: &Listing) -> Result<ReplyText, Ended>
    ensures { (closes : Bool) → UploadMade closes kept.now (UploadEnd.Ended end) result }
{
    match end {
        WireEnd::Cut { at } => Err(Ended::Cut { at }),
        WireEnd::ReadFault => Err(Ended::ReadFault),
        _ => Ok(part_kept(alloc, Outcome::Defined, &Refusal::BadLength, kept)),
    }
}

fn whole(alloc: Global, closes: bool, kept: &Listing) -> ReplyText
    ensures { IsTold Outcome.Defined (json_reply closes (upload_text kept.now None)) result }
{
    let Ok(text) = upload_text(alloc, kept, None) else {
        return ReplyText::Memory;
    };
    json(alloc, closes, text)
}

// The reply to an upload that isn't whole.
fn part_kept(alloc: Global, outcome: Outcome, refusal: &Refusal, kept: &Listing) -> ReplyText
    ensures { IsTold outcome (upload_reply kept.now refusal.now) result }
{
    let Ok(text) = upload_text(alloc, kept, Some(refusal)) else {
        return ReplyText::Memory;
    };
    reply_with(alloc, outcome, refusal.code(), Kind::Json, true, text)
}
