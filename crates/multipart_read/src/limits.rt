//! The limits of a body and of its parts (`docs/formats/multipart.md`).

/// The most bytes that a body may have. `Parts` doesn't look at it: whoever feeds it does.
pub const MAX_BYTES: u64 = 17_000_000_000;

/// The most bytes of a preamble, with the CR LF that is thought before the body.
pub(crate) const MAX_BEFORE: u64 = 4_098;

/// The most parts of a body.
pub(crate) const MAX_PARTS: u32 = 1_000;

/// The most bytes of a part's head.
pub(crate) const MAX_HEAD: usize = 4_096;

/// The most fields of a part's head.
pub(crate) const MAX_FIELDS: usize = 16;

/// The most bytes of a part's content.
pub(crate) const MAX_PART: u64 = 16_777_216;

/// The most bytes of pad behind a boundary.
pub(crate) const MAX_PAD: u8 = 16;
