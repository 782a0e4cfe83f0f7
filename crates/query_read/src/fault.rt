//! Why a text is no query.
ghost use Rattle.std.specs.Prelude.{◌≡◌};

use blobref::{NoMemory, Text};

/// Why a text is no query (`docs/formats/queries.md`). A place is the keys that lead to it, joined by `/`; that of the
/// query itself is empty.
#[derive(Drop)]
pub enum QueryFault {
    /// It isn't one JSON text.
    NotJson,
    /// The object before the last key of this place has no such key.
    BadKey { at: Text },
    /// The value at this place isn't one that may stand there.
    BadValue { at: Text },
    /// The constraint at this place stands within more than 31 others.
    TooDeep { at: Text },
    /// No memory was left.
    NoMemory,
}

impl From<NoMemory> for QueryFault {
    ghost use Rattle.query_read.specs.declared.fault.QueryFault.TheVariants.{NoMemory as OutOfMemory};

    ghost from_gives = { λ _ fault. fault ≡ OutOfMemory };

    fn from(_error: NoMemory) -> QueryFault {
        QueryFault::NoMemory
    }
}
