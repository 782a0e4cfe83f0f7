//! Why a text isn't read as search words.
use blobref::NoMemory;

/// Why a text isn't read as a line of search words, in the order in which these are found.
#[derive(Clone, Copy, Debug, PartialEq, Eq)]
pub enum WordsFault {
    /// It has more than 1,024 bytes: so many.
    TooLong { len: u64 },
    /// It is no line: the number of bytes of its longest front, in whole characters, with which some line of any length
    /// begins.
    Bad { at: u64 },
    /// The constraint that it asks nests more than 32 deep.
    TooDeep,
    /// No memory was left.
    NoMemory,
}

impl From<NoMemory> for WordsFault {
    ghost use Rattle.std.specs.Prelude.{◌≡◌};
    ghost use Rattle.search_words.specs.declared.fault.WordsFault.TheVariants.{NoMemory as OutOfMemory};

    ghost from_gives = { λ _ fault. fault ≡ OutOfMemory };

    fn from(_: NoMemory) -> WordsFault {
        WordsFault::NoMemory
    }
}
