//! Who serves.
ghost use Rattle.std.specs.Prelude.{◌≡◌, ◌≤◌, vec_len, IfOk};
ghost use Rattle.blob_server.specs.Desks.{desks_of};

use blobref::NoMemory;
use std::alloc::Global;

/// A worker, which serves the connections of its listener, or without one an indexer.
#[derive(Drop)]
pub struct Desk<P, L> {
    /// The pass with which it asks the home.
    pub pass: P,
    /// Where a worker's connections come from.
    pub listener: Option<L>,
    /// Whether an accept failed when it last served.
    pub failed: bool,
}

/// A desk for each pass, in their order, with the listener of its place, where there is one. None has failed.
pub fn desks<P: Drop, L: Drop>(
    alloc: Global,
    passes: Vec<P>,
    listeners: Vec<L>,
) -> Result<Vec<Desk<P, L>>, NoMemory>
    requires { vec_len listeners ≤ vec_len passes }
    ensures { IfOk result (λ desks. desks.items ≡ desks_of passes.items listeners.items) }
{
    let mut desks = Vec::new(alloc);
    let mut rest = listeners.into_iter();
    'passes: for pass in passes {
        desks.push(Desk {
            pass,
            listener: rest.next(),
            failed: false,
        })?;
    }
    Ok(desks)
}
