//! A home that is served, and what all its passes together have seen.
ghost use Rattle.std.specs.Prelude.{All, ◌≤◌, ◌^◌};
ghost use Rattle.std.specs.Vec.{vec_len};
ghost use Rattle.pack_disk.specs.Disk.{last_number};

use blob_server::{Desk, Status, desks, serve_all};
use blobref::NoMemory;
use claim_verify::{Keyring, Verifier};
use edge_listen::Listener;
use home_places::{Home, IndexPlace, StorePlace};
use index_worker::Gate;
use live_home::{LiveHome, LivePass};
use pack_disk::MemDisk;
use pack_store::Limits;
use server_home::home_within;
use std::alloc::Global;
use std::sync::Wait;
use std::thread::Threads;

/// How serving ended, at which desks an accept failed, and how many blobs arrived and how many are inserted in what all
/// passes together have seen.
#[derive(Drop)]
pub(crate) struct Ending {
    pub(crate) served: Status,
    pub(crate) failed: Vec<bool>,
    pub(crate) seen: (u64, u64),
}

/// What is served: a disk, how many blobs its store may have, and keys.
#[derive(Drop)]
pub(crate) struct Archive {
    pub(crate) disk: MemDisk,
    pub(crate) blobs: u64,
    pub(crate) keys: Keyring,
}

/// Serves so many connections by a desk for each listener, and so many indexers behind them. The home keeps `handle`.
pub(crate) fn served<
    L: Listener + Drop + Send,
    G: Gate + Copy + Sync,
    R: Threads + Wait + Sync,
    H: Wait + Drop + Send,
>(
    rt: &R,
    handle: H,
    alloc: Global,
    archive: Archive,
    listeners: Vec<L>,
    indexers: usize,
    connections: u64,
    gate: &G,
) -> Result<Ending, NoMemory>
where
    L::In: Send,
    L::Out: Send,
{
    let Archive { disk, blobs, keys } = archive;
    let limits = Limits {
        blobs,
        pack_bytes: 1_000_000,
        last_pack: 9,
    };
    let count = listeners.len().saturating_add(indexers);
    let made_of = MadeOf {
        handle,
        disk,
        limits,
        keys: &keys,
        passes: count,
    };
    served_by(rt, alloc, made_of, listeners, connections, gate)
}

// What a home is made of, with so many passes.
#[derive(Drop)]
struct MadeOf<V, H> {
    handle: H,
    disk: MemDisk,
    limits: Limits,
    keys: V,
    passes: usize,
}

fn served_by<
    V: Verifier + Copy + Drop + Send + Sync,
    H: Wait + Drop + Send,
    L: Listener + Drop + Send,
    G: Gate + Copy + Sync,
    R: Threads + Wait + Sync,
>(
    rt: &R,
    alloc: Global,
    made_of: MadeOf<V, H>,
    listeners: Vec<L>,
    connections: u64,
    gate: &G,
) -> Result<Ending, NoMemory>
where
    L::In: Send,
    L::Out: Send,
    requires enough { vec_len listeners ≤ made_of.passes }
    requires last_pack { made_of.limits.last_pack ≤ last_number }
    requires pack_bytes { made_of.limits.pack_bytes ≤ 2 ^ 63 }
{
    let MadeOf {
        handle,
        disk,
        limits,
        keys,
        passes,
    } = made_of;
    match home_within(handle, alloc, disk, limits, keys, passes) {
        Ok((home, passes)) => {
            let desks = desks(alloc, passes, listeners)?;
            served_over(rt, alloc, &home, desks, connections, gate)
        }
        Err(_) => Err(NoMemory),
    }
}

// Serves so many connections over a home.
fn served_over<
    S: StorePlace + Sync,
    I: IndexPlace + Sync,
    L: Listener + Drop + Send,
    G: Gate + Copy + Sync,
    R: Threads + Wait + Sync,
>(
    rt: &R,
    alloc: Global,
    home: &LiveHome<S, I>,
    desks: Vec<Desk<LivePass<S::Seat, I::Seat>, L>>,
    connections: u64,
    gate: &G,
) -> Result<Ending, NoMemory>
where
    S::Seat: Drop + Send,
    I::Seat: Drop + Send,
    L::In: Send,
    L::Out: Send,
    requires { All (λ d. S.belongs home.now.store d.pass.store × I.belongs home.now.index d.pass.index) desks.items }
{
    let mut desks = desks;
    let served = serve_all(rt, alloc, home, &mut desks, connections, gate);
    let failed = desks.iter().map(|desk| desk.failed).collect(alloc)?;
    let seen = joined(rt, home, desks);
    Ok(Ending {
        served,
        failed,
        seen,
    })
}

// What the passes of all desks together have seen.
fn joined<S: StorePlace, I: IndexPlace, L: Drop, R: Wait>(
    rt: &R,
    home: &LiveHome<S, I>,
    desks: Vec<Desk<LivePass<S::Seat, I::Seat>, L>>,
) -> (u64, u64)
where
    S::Seat: Drop,
    I::Seat: Drop,
    requires { All (λ d. S.belongs home.now.store d.pass.store × I.belongs home.now.index d.pass.index) desks.items }
{
    let mut rest = desks.into_iter();
    let Some(first) = rest.next() else {
        return (0, 0);
    };
    let mut pass = first.pass;
    'desks: for desk in rest {
        home.join(rt, &mut pass, desk.pass);
    }
    home.seen(&pass)
}
