//! The work that is left while an index takes up facts.
ghost use Rattle.std.specs.Prelude.{◌≡◌, []};

use blobref::RefList;
use std::alloc::Global;

// The work that is left for refs that were judged.
#[derive(Drop)]
pub(crate) struct Work {
    // Genuine delete claims that have no row yet, in the order in which they became ready.
    pub deletes: RefList,
    // Permanodes whose rows of holders may be wrong. One may be there several times.
    pub concerned: RefList,
}

impl Work {
    // No work.
    pub fn none(alloc: Global) -> Work
        ensures deletes { result.deletes ≡ [] }
        ensures concerned { result.concerned ≡ [] }
    {
        Work {
            deletes: RefList::empty(alloc),
            concerned: RefList::empty(alloc),
        }
    }
}
