//! What is told of a body, each part put when its content has ended.
ghost use Rattle.std.specs.Prelude.{◌≡◌, ◌++◌, ◌∷◌, [], OnOk, IfErr};
ghost use Rattle.multipart_read.specs.Tokens.{tokens_in, tokens_of};
ghost use Rattle.multipart_read.specs.PartLists.{between};
ghost use Rattle.blob_upload.specs.Taking.{cut_of, PutsPart, PutsOpen, Takes};

use crate::opened::{Opened, extend, open};
use crate::service::Service;
use crate::upload_end::{UploadEnd, end_of_put};
use blobref::{Listing, NoMemory, Ref};
use home_places::Home;
use multipart_read::PartEvent;
use std::sync::Wait;

// Lists a blob behind those that were kept.
fn keep(kept: &mut Listing, r: &Ref, size: u64) -> Result<(), UploadEnd>
    ensures ok { OnOk result (kept.new ≡ kept.old ++ (r.now, size) ∷ []) }
    ensures err { IfErr result (λ end. (end ≡ UploadEnd.Memory) × (kept.new ≡ kept.old)) }
{
    match kept.push((*r, size)) {
        Ok(()) => Ok(()),
        Err(NoMemory) => Err(UploadEnd::Memory),
    }
}

// Puts a part and lists it.
fn put<H: Home, R: Wait>(
    service: &Service<H, R>,
    pass: &mut H::Pass,
    part: &Opened,
    kept: &mut Listing,
) -> Result<(), UploadEnd>
    requires { H.belongs service.now.home.now pass.old }
    ensures own { H.belongs service.now.home.now pass.new }
    ensures puts { PutsPart part.now.r part.now.content.items kept.old kept.new
        (H.sight pass.old) (H.sight pass.new) result }
{
    match service
        .home
        .upload(service.rt, pass, &part.r, part.content.as_slice())
    {
        Ok(_) => keep(kept, &part.r, part.content.len() as u64),
        Err(fault) => Err(end_of_put(fault)),
    }
}

// Puts the open part, if one is open.
fn close<H: Home, R: Wait>(
    service: &Service<H, R>,
    pass: &mut H::Pass,
    opened: &mut Option<Opened>,
    kept: &mut Listing,
) -> Result<(), UploadEnd>
    requires { H.belongs service.now.home.now pass.old }
    ensures own { H.belongs service.now.home.now pass.new }
    ensures closed { cut_of opened.new ≡ between }
    ensures puts { PutsOpen (cut_of opened.old) kept.old kept.new (H.sight pass.old) (H.sight pass.new) result }
{
    let Some(part) = opened.take() else {
        return Ok(());
    };
    put(service, pass, &part, kept)
}

// Takes one event.
fn take_event<H: Home, R: Wait>(
    service: &Service<H, R>,
    pass: &mut H::Pass,
    event: &PartEvent,
    opened: &mut Option<Opened>,
    kept: &mut Listing,
) -> Result<(), UploadEnd>
    requires { H.belongs service.now.home.now pass.old }
    ensures own { H.belongs service.now.home.now pass.new }
    ensures takes { Takes (tokens_in event.now) opened.old opened.new kept.old kept.new
        (H.sight pass.old) (H.sight pass.new) result }
{
    match event {
        PartEvent::Name(name) => open(service.alloc, name.as_slice(), opened),
        PartEvent::Content(bytes) => extend(bytes.as_slice(), opened),
        PartEvent::PartEnd => close(service, pass, opened, kept),
    }
}

/// Takes events in their order: a name opens a part, contents are gathered, and at its end a part is put and listed.
pub fn take_events<H: Home, R: Wait>(
    service: &Service<H, R>,
    pass: &mut H::Pass,
    events: &[PartEvent],
    opened: &mut Option<Opened>,
    kept: &mut Listing,
) -> Result<(), UploadEnd>
    requires { H.belongs service.now.home.now pass.old }
    ensures own { H.belongs service.now.home.now pass.new }
    ensures takes { Takes (tokens_of events.now) opened.old opened.new kept.old kept.new
        (H.sight pass.old) (H.sight pass.new) result }
{
    'events: for event in events {
        match take_event(service, pass, event, opened, kept) {
            Ok(()) => {}
            Err(end) => return Err(end),
        }
    }
    Ok(())
}
