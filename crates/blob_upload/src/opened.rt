//! The part whose content comes.
ghost use Rattle.std.specs.Prelude.{◌≡◌, true, false, [], OnOk, IfErr};
ghost use Rattle.blobref.specs.Blobref.{is_blobref};
ghost use Rattle.multipart_read.specs.PartLists.{inside};
ghost use Rattle.blob_upload.specs.Taking.{cut_of, with_bytes};

use crate::upload_end::UploadEnd;
use answer_text::Refusal;
use blobref::Ref;
use std::alloc::Global;

/// A part whose head was read: the ref that is its name, and what has come of its content.
#[derive(Drop)]
pub struct Opened {
    pub r: Ref,
    pub content: Vec<u8>,
}

/// Opens the part of this name, which has to be a blobref.
pub fn open(alloc: Global, name: &[u8], opened: &mut Option<Opened>) -> Result<(), UploadEnd>
    ensures ok { OnOk result ((is_blobref name.now ≡ true) × (cut_of opened.new ≡ inside name.now [])) }
    ensures err { IfErr result (λ end. (end ≡ UploadEnd.Refused Refusal.BadRef) × (is_blobref name.now ≡ false)) }
{
    let Some(r) = Ref::read(name) else {
        return Err(UploadEnd::Refused(Refusal::BadRef));
    };
    *opened = Some(Opened {
        r,
        content: Vec::new(alloc),
    });
    Ok(())
}

/// Puts bytes behind the content of the open part, if one is open.
pub fn extend(bytes: &[u8], opened: &mut Option<Opened>) -> Result<(), UploadEnd>
    ensures ok { OnOk result (cut_of opened.new ≡ with_bytes bytes.now (cut_of opened.old)) }
    ensures err { IfErr result (λ end. end ≡ UploadEnd.Memory) }
{
    let Some(mut part) = opened.take() else {
        return Ok(());
    };
    if part.content.extend_from_slice(bytes).is_err() {
        return Err(UploadEnd::Memory);
    }
    *opened = Some(part);
    Ok(())
}
