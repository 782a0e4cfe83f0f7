//! A fact to insert.
ghost use Rattle.schema_fact.specs.Validity.{IsValid};

use blobref::NoMemory;
use edge_base::Inserted;
use schema_fact::{Fact, Kind};

/// The fact of three bytes that say nothing.
pub(crate) fn plain() -> Fact
    ensures { IsValid result }
{
    Fact {
        size: 3,
        kind: Kind::Plain,
    }
}

/// Whether a fact was inserted, and its number wasn't before.
pub(crate) fn is_new(inserted: Result<Inserted, NoMemory>) -> bool {
    matches!(inserted, Ok(Inserted::New))
}
