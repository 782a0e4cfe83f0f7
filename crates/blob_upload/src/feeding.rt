//! The bytes of a body, piece by piece.
ghost use Rattle.std.specs.Prelude.{◌≡◌, ◌+◌, ◌<◌, ◌^◌, length};
ghost use Rattle.blob_upload.specs.Ends.{IsSound};
ghost use Rattle.blob_upload.specs.Taking.{Feeds, SoundAtLast};

use crate::opened::Opened;
use crate::parts::take_events;
use crate::service::Service;
use crate::upload_end::{UploadEnd, end_of_part};
use blobref::Listing;
use home_places::Home;
use multipart_read::Parts;
use std::sync::Wait;

// Reads a piece and takes what it tells. It says whether it told anything: then a fault may wait behind it.
fn feed_once<H: Home, R: Wait>(
    service: &Service<H, R>,
    pass: &mut H::Pass,
    piece: &[u8],
    parts: &mut Parts,
    opened: &mut Option<Opened>,
    kept: &mut Listing,
) -> Result<bool, UploadEnd>
    requires own { H.belongs service.now.home.now pass.old }
    requires few { parts.old.fed + length piece.now < 2 ^ 64 }
    ensures own { H.belongs service.now.home.now pass.new }
    ensures feeds { Feeds SoundAtLast piece.now parts.old parts.new opened.old opened.new kept.old kept.new
        (H.sight pass.old) (H.sight pass.new) result }
    ensures fed { parts.new.fed ≡ parts.old.fed + length piece.now }
{
    match parts.feed(piece) {
        Ok(events) => {
            match take_events(service, pass, events.as_slice(), opened, kept) {
                Ok(()) => Ok(events.len() > 0),
                Err(end) => Err(end),
            }
        }
        Err(fault) => Err(end_of_part(fault)),
    }
}

/// Reads a piece and takes all that it tells, a fault behind that too.
pub fn feed<H: Home, R: Wait>(
    service: &Service<H, R>,
    pass: &mut H::Pass,
    piece: &[u8],
    parts: &mut Parts,
    opened: &mut Option<Opened>,
    kept: &mut Listing,
) -> Result<(), UploadEnd>
    requires own { H.belongs service.now.home.now pass.old }
    requires few { parts.old.fed + length piece.now < 2 ^ 64 }
    ensures own { H.belongs service.now.home.now pass.new }
    ensures feeds { Feeds (λ done. IsSound) piece.now parts.old parts.new opened.old opened.new kept.old kept.new
        (H.sight pass.old) (H.sight pass.new) result }
    ensures fed { parts.new.fed ≡ parts.old.fed + length piece.now }
{
    let mut rest = piece;
    'asking: for _ in service.rt.forever() {
        match feed_once(service, pass, rest, parts, opened, kept) {
            Ok(true) => rest = &piece[piece.len()..],
            Ok(false) => return Ok(()),
            Err(end) => return Err(end),
        }
    }
    unreachable!()
}
