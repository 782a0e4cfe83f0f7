//! Laws of uploads.
ghost use Rattle.blob_upload.specs.Adds.{UploadsAdd};
ghost use Rattle.blob_upload.specs.UploadOutcome.{PartsAreFew, UploadsCome};
ghost use Rattle.blob_upload.specs.Laws.{ContentsFit, SoundSoFar, ToldFirst};

/// However an upload ends, the store's history only grows. Of the turns drawn there is one for each part that was kept,
/// and one for a part that was tried at the end. Under them stand arrivals of parts, and the entry that shows that the
/// store is full or that the disk failed, where the upload ended so. Each ref that was kept is among the arrivals. The
/// index is as it was.
pub fn uploads_add()
    ensures { UploadsAdd }
{}

/// What an upload came to, said of the bytes that came of its body alone: behind the parts that were kept, what ended
/// it. A refusal is the first fault in these bytes. Where a read failed, what was read ahead ends inside the body. No
/// upload keeps more than 1,000 parts.
pub fn uploads_come()
    ensures come { UploadsCome }
    ensures few { PartsAreFew }
{}

/// What the front of a body tells, the whole body tells first, however it goes on. No part that is told has more bytes
/// than a blob may have.
pub fn fronts_of_bodies()
    ensures first { ToldFirst }
    ensures fit { ContentsFit }
{}

/// Where an upload hasn't ended, no whole part of the bytes that came has a fault, and none of their limits was passed.
pub fn uploads_so_far()
    ensures { SoundSoFar }
{}
