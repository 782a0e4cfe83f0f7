//! What a reader of parts tells, and its faults.
use blobref::{ListOf, NoMemory, Octets};

/// A fault of a multipart body, or of its boundary (`docs/formats/multipart.md`).
#[derive(Clone, Copy, PartialEq, Eq)]
pub enum PartFault {
    /// The text isn't a boundary.
    BadBoundary,
    /// The preamble, head or content that begins at this place can't be completed: a number of bytes of the body.
    Bad { at: u64 },
    /// A part has more bytes than this limit, or the body more parts.
    TooLong { limit: u64 },
    /// No memory was left.
    NoMemory,
}

impl From<NoMemory> for PartFault {
    ghost use Rattle.std.specs.Prelude.{◌≡◌};
    ghost use Rattle.multipart_read.specs.declared.events.PartFault.TheVariants.{NoMemory as OutOfMemory};

    ghost from_gives = { λ _ fault. fault ≡ OutOfMemory };

    fn from(_error: NoMemory) -> PartFault {
        PartFault::NoMemory
    }
}

/// What was read. Each part is told by its name, its content in one or more pieces, or none where it is empty, and its
/// end.
#[derive(Drop)]
pub enum PartEvent {
    /// The head of a part, which gives this name.
    Name(Octets),
    /// Bytes of the part's content, which follow those before them.
    Content(Octets),
    /// The part's content has ended.
    PartEnd,
}

/// What was read, in its order.
pub type PartEvents = ListOf<PartEvent>;
