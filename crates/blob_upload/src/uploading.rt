//! A whole upload.
ghost use Rattle.std.specs.Prelude.{◌≡◌, ◌+◌, ◌<◌, ◌≤◌, ℕ, List, length, IfOk, OnOk};
ghost use Rattle.edge_base.specs.Edge.{FaultsRose};
ghost use Rattle.multipart_read.specs.Reader.{fresh};
ghost use Rattle.multipart_read.specs.Limits.{most_bytes};
ghost use Rattle.blob_upload.specs.Uploads.{Uploads};
ghost use Rattle.blob_upload.specs.Taking.{TakesPiece, Finishes};

use crate::feeding::feed;
use crate::opened::Opened;
use crate::service::Service;
use crate::upload_end::{UploadEnd, end_of_part, end_of_wire};
use answer_text::Refusal;
use blobref::Listing;
use edge_base::Source;
use home_places::Home;
use http_wire::{Body, Wire, WireEnd};
use multipart_read::{MAX_BYTES, Parts};
use std::alloc::{AllocError, Global};
use std::sync::Wait;

// What was read of a body: its parts, the one that is open, and how many bytes came.
#[derive(Drop)]
struct Reading {
    parts: Parts,
    opened: Option<Opened>,
    taken: u64,
}

// Room for a piece of a body of which so much is to come: for all of a short one.
fn room(alloc: Global, rest: Body) -> Result<Vec<u8>, AllocError>
    ensures some { IfOk result (λ room. 0 < length room.items) }
    ensures most { IfOk result (λ room. length room.items ≤ 65536) }
{
    let size = match rest {
        Body::Exactly(left) => left.max(1).min(65_536) as usize,
        _ => 65_536,
    };
    Vec::from_elem(alloc, 0, size)
}

// Takes a piece, as far as the limit allows.
fn take_piece<H: Home, R: Wait>(
    service: &Service<H, R>,
    pass: &mut H::Pass,
    piece: &[u8],
    reading: &mut Reading,
    kept: &mut Listing,
) -> Result<(), UploadEnd>
    requires own { H.belongs service.now.home.now pass.old }
    requires counted { reading.old.parts.fed ≡ reading.old.taken }
    requires short { reading.old.taken ≤ most_bytes }
    ensures own { H.belongs service.now.home.now pass.new }
    ensures takes { TakesPiece piece.now reading.old reading.new kept.old kept.new
        (H.sight pass.old) (H.sight pass.new) result }
    ensures counted { OnOk result (reading.new.parts.fed ≡ reading.new.taken) }
    ensures short { OnOk result (reading.new.taken ≤ most_bytes) }
    ensures taken { OnOk result (reading.new.taken ≡ reading.old.taken + length piece.now) }
{
    let within = piece.len().min((MAX_BYTES - reading.taken) as usize);
    match feed(
        service,
        pass,
        &piece[..within],
        &mut reading.parts,
        &mut reading.opened,
        kept,
    ) {
        Ok(()) => {}
        Err(end) => return Err(end),
    }
    if within < piece.len() {
        return Err(UploadEnd::Refused(Refusal::TooLong { limit: MAX_BYTES }));
    }
    reading.taken += within as u64;
    Ok(())
}

// What the end of the body says.
fn finish(reading: Reading) -> UploadEnd
    ensures { Finishes reading.parts result }
{
    match reading.parts.end() {
        Ok(()) => UploadEnd::Whole,
        Err(fault) => end_of_part(fault),
    }
}

/// Reads the present body of a connection, which is multipart with the boundary of a reader that was fed nothing, and
/// puts each of its parts as soon as its content has ended, under the ref that its name is. `docs/http.md` has the
/// rules, and what ends an upload.
///
/// Each part that was put is listed in `kept`, behind what stood there, with its size, also where its blob stood
/// before. However the upload ends, these stay, and no further piece of the body is read; a piece has at most 64 KiB.
/// With `Memory` one part more may be put than is listed. `uploads_come` and `uploads_add` say what follows from the
/// clause `uploads` for each way to end.
///
/// In memory are the content of one part, a piece with its events, and `kept`, to which an upload adds at most 1,000
/// entries. The time is linear in the body, beside that of the puts.
pub fn take_parts<H: Home, S: Source, R: Wait>(
    service: &Service<H, R>,
    pass: &mut H::Pass,
    wire: &mut Wire,
    source: &mut S,
    parts: Parts,
    kept: &mut Listing,
) -> UploadEnd
    requires own { H.belongs service.now.home.now pass.old }
    requires fresh { (boundary : List ℕ) × (parts ≡ fresh boundary) }
    ensures own { H.belongs service.now.home.now pass.new }
    ensures uploads { (boundary : List ℕ) → parts ≡ fresh boundary
        → Uploads boundary (S.left source.old) (S.left source.new) wire.old wire.new
        (H.sight pass.old) (H.sight pass.new) kept.old kept.new result }
    ensures head { (wire.new.head ≡ wire.old.head) × (wire.new.begun ≡ wire.old.begun) }
    ensures fault { result ≡ UploadEnd.Ended WireEnd.ReadFault
        → FaultsRose (S.faults source.old) (S.faults source.new) }
    ensures later { S.faults source.old ≤ S.faults source.new }
{
    let mut reading = Reading {
        parts,
        opened: None,
        taken: 0,
    };
    let Ok(mut space) = room(service.alloc, wire.rest()) else {
        return UploadEnd::Memory;
    };
    let space = space.as_mut_slice();
    'pieces: loop {
        let n = match wire.body(source, space) {
            Ok(n) => n,
            Err(end) => return end_of_wire(end),
        };
        if n == 0 {
            return finish(reading);
        }
        match take_piece(service, pass, &space[..n], &mut reading, kept) {
            Ok(()) => {}
            Err(end) => return end,
        }
    }
}
