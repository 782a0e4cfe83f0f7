//! How an upload ends.
ghost use Rattle.std.specs.Prelude.{◌≡◌};
ghost use Rattle.blob_upload.specs.Faults.{end_of_put, end_of_part, end_of_wire};

use answer_text::Refusal;
use edge_base::PutFault;
use http_wire::WireEnd;
use multipart_read::PartFault;

/// How an upload ended (`docs/http.md`).
#[derive(Drop)]
pub enum UploadEnd {
    /// The body was read to its end, and every part was put.
    Whole,
    /// The body was refused: `BadRef`, `BadDigest`, `BadMultipart`, `TooLong` or `BadLength`.
    Refused(Refusal),
    /// The store had no room for a part: it holds so many blobs, and its last pack has this number.
    Full { blobs: u64, pack: u32 },
    /// The disk failed at a part.
    Disk,
    /// No memory was left.
    Memory,
    /// The source ended inside the body, or a read failed.
    Ended(WireEnd),
}

/// What an upload ends with where a part isn't put. No part that is told of a body is too big.
pub(crate) fn end_of_put(fault: PutFault) -> UploadEnd
    ensures { result ≡ end_of_put fault }
{
    match fault {
        PutFault::TooBig { .. } => UploadEnd::Refused(Refusal::TooLong { limit: 16_777_216 }),
        PutFault::BadDigest { said, is } => UploadEnd::Refused(Refusal::BadDigest { said, is }),
        PutFault::Full { blobs, pack } => UploadEnd::Full { blobs, pack },
        PutFault::Disk => UploadEnd::Disk,
        PutFault::NoMemory => UploadEnd::Memory,
    }
}

/// What an upload ends with at a fault of the multipart body. A body's fault is never its boundary's.
pub(crate) fn end_of_part(fault: PartFault) -> UploadEnd
    ensures { result ≡ end_of_part fault }
{
    match fault {
        PartFault::BadBoundary => UploadEnd::Refused(Refusal::BadMultipart { at: 0 }),
        PartFault::Bad { at } => UploadEnd::Refused(Refusal::BadMultipart { at }),
        PartFault::TooLong { limit } => UploadEnd::Refused(Refusal::TooLong { limit }),
        PartFault::NoMemory => UploadEnd::Memory,
    }
}

/// What an upload ends with where no more of the body is read.
pub(crate) fn end_of_wire(end: WireEnd) -> UploadEnd
    ensures { result ≡ end_of_wire end }
{
    match end {
        WireEnd::BadLength { .. } => UploadEnd::Refused(Refusal::BadLength),
        other => UploadEnd::Ended(other),
    }
}
