//! Why a request is refused.
ghost use Rattle.std.specs.Prelude.{◌≡◌};
ghost use Rattle.answer_text.specs.Refusals.{code_of, name_of, kind_text};

use blobref::{Ref, Text};

/// Which rule a query breaks (`docs/search.md`).
#[derive(Clone, Copy, PartialEq, Eq)]
pub enum BadKind {
    NotJson,
    BadKey,
    BadValue,
    TooDeep,
}

/// Why a request is refused (`docs/formats/answers.md`).
#[derive(Drop)]
pub enum Refusal {
    /// Its lines are no head of a request.
    BadHead,
    /// It doesn't say how long its body is, or its chunks are broken.
    BadLength,
    /// `camliversion` isn't 1.
    BadVersion,
    /// A text where a blobref has to stand isn't one.
    BadRef,
    /// A text where a number has to stand isn't one.
    BadNumber,
    /// The body isn't multipart, from this place on.
    BadMultipart { at: u64 },
    /// A blob is said to have a ref that isn't that of its bytes.
    BadDigest { said: Ref, is: Ref },
    /// The query breaks a rule at this place, which is empty where it is no JSON text.
    BadQuery { kind: BadKind, at: Text },
    /// The path is no route.
    NoRoute,
    /// No blob has arrived under the ref.
    Absent { r: Ref },
    /// The route isn't asked by this method.
    Method,
    /// Something is longer than this limit.
    TooLong { limit: u64 },
    /// The bytes of a blob have another ref than it.
    Damaged { want: Ref, is: Ref },
    /// No memory was left.
    Memory,
    /// The disk failed.
    Disk,
    /// The store has no room: it holds so many blobs, and its last pack has this number.
    Full { blobs: u64, pack: u32 },
}

impl Refusal {
    /// The code of the reply's status.
    pub fn code(&self) -> u16
        ensures { result ≡ code_of self.now }
    {
        match self {
            Refusal::NoRoute | Refusal::Absent { .. } => 404,
            Refusal::Method => 405,
            Refusal::TooLong { .. } => 413,
            Refusal::Damaged { .. } => 500,
            Refusal::Memory | Refusal::Disk => 503,
            Refusal::Full { .. } => 507,
            _ => 400,
        }
    }

    // What its text calls it.
    pub(crate) fn name(&self) -> &'static [u8]
        ensures { result.now ≡ name_of self.now }
    {
        match self {
            Refusal::BadHead => b"bad head",
            Refusal::BadLength => b"bad length",
            Refusal::BadVersion => b"bad version",
            Refusal::BadRef => b"bad ref",
            Refusal::BadNumber => b"bad number",
            Refusal::BadMultipart { .. } => b"bad multipart",
            Refusal::BadDigest { .. } => b"bad digest",
            Refusal::BadQuery { .. } => b"bad query",
            Refusal::NoRoute => b"no route",
            Refusal::Absent { .. } => b"absent",
            Refusal::Method => b"method",
            Refusal::TooLong { .. } => b"too long",
            Refusal::Damaged { .. } => b"damaged",
            Refusal::Memory => b"memory",
            Refusal::Disk => b"disk",
            Refusal::Full { .. } => b"full",
        }
    }
}

impl BadKind {
    // What a text calls it.
    pub(crate) fn name(self) -> &'static [u8]
        ensures { result.now ≡ kind_text self }
    {
        match self {
            BadKind::NotJson => b"NotJson",
            BadKind::BadKey => b"BadKey",
            BadKind::BadValue => b"BadValue",
            BadKind::TooDeep => b"TooDeep",
        }
    }
}
