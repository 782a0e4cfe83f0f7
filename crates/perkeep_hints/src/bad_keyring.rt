//! Why a keyring can't be used.

/// Why a keyring can't be used.
#[derive(Clone, Copy)]
pub enum BadKeyring {
    /// It can't be read.
    Unreadable,
    /// It is longer than it may be.
    TooLong,
    /// This line isn't that of a key.
    NoKey { line: u64 },
    /// This line has the name of an earlier line.
    Twice { line: u64 },
}
