//! Workers of a server, each with a listener and a home of one actor of its own.

use crate::connection::{add_listing, pass_over};
use crate::failing::{Failing, NONE, Object};
use crate::hand::{sink_of, source_of};
use crate::told::{add_number, add_ref, add_written};
use crate::world::blob_at;
use blob_server::{Desk, serve_all};
use blobref::{NoMemory, Octets};
use claim_verify::Keyring;
use core_home::{CoreHome, CorePass};
use edge_base::{CallList, MemSink, MemSource};
use edge_listen::{Listener, MemListener};
use index_worker::{Gate, GatePlace};
use salvage_scan::scan;
use std::alloc::Global;
use std::collections::VecDeque;
use std::mem::forget;
use std::sync::Wait;
use std::thread::Threads;

type Connections = MemListener<MemSource, MemSink>;

type Worker = Desk<CorePass<Keyring>, Connections>;

// A gate at which nobody waits. No indexer asks it here.
#[derive(Clone, Copy)]
struct Open;

impl Gate for Open {
    ghost tells = { λ gate asked. Unit {0} };

    fn wait_at<R: Wait>(&mut self, _rt: &R, _place: GatePlace) {}
}

/// Serves connections by a worker for each pack, which has an empty home, and to which each of the pack's blobs comes
/// as the stream of a connection; and then once more, over what there is, without a call that fails. A worker ends by a
/// failed call in any case, once no connection is left to it. Answers whether the first one ended before. The workers
/// are given up as they are, and their memory with the process.
pub(crate) fn tell_workers<R: Threads + Wait + Sync>(
    alloc: Global,
    rt: &R,
    packs: &[Octets],
    failing: Failing,
    line: &mut Vec<u8>,
) -> Result<bool, NoMemory> {
    let mut workers = Vec::new(alloc);
    let told = tell_twice(alloc, rt, packs, failing, &mut workers, line);
    forget(workers);
    told
}

// The same, by workers that are added to none.
fn tell_twice<R: Threads + Wait + Sync>(
    alloc: Global,
    rt: &R,
    packs: &[Octets],
    failing: Failing,
    workers: &mut Vec<Worker>,
    line: &mut Vec<u8>,
) -> Result<bool, NoMemory> {
    add_workers(alloc, packs.len(), workers)?;
    listen(alloc, packs, failing, workers)?;
    tell_served(alloc, rt, workers, line)?;
    let has_failed = leaves_some(alloc, packs, workers)?;
    listen(alloc, packs, NONE, workers)?;
    tell_served(alloc, rt, workers, line)?;
    Ok(has_failed)
}

// Adds so many workers, to which no connections come.
fn add_workers(alloc: Global, count: usize, workers: &mut Vec<Worker>) -> Result<(), NoMemory> {
    for _ in 0..count {
        workers.push(worker_of(pass_over(alloc)?))?;
    }
    Ok(())
}

fn worker_of(pass: CorePass<Keyring>) -> Worker {
    Desk {
        pass,
        listener: None,
        failed: false,
    }
}

// Gives each worker a listener of a connection for each blob of its pack, a call of the first of which fails so.
fn listen(
    alloc: Global,
    packs: &[Octets],
    failing: Failing,
    workers: &mut [Worker],
) -> Result<(), NoMemory> {
    let mut failing = failing;
    for (worker, pack) in workers.iter_mut().zip(packs) {
        let calls = failing.calls(alloc, Object::Listener, 0)?;
        worker.listener = Some(listener_of(alloc, pack.as_slice(), calls)?);
        failing = NONE;
    }
    Ok(())
}

// A listener of a connection for each blob of a pack.
fn listener_of(alloc: Global, pack: &[u8], calls: CallList) -> Result<Connections, NoMemory> {
    let mut waiting = VecDeque::new(alloc);
    add_connections(alloc, pack, &mut waiting)?;
    Ok(MemListener::of(waiting, calls))
}

fn add_connections(
    alloc: Global,
    pack: &[u8],
    waiting: &mut VecDeque<(MemSource, MemSink)>,
) -> Result<(), NoMemory> {
    let (found, _) = scan(alloc, pack)?;
    for place in found.as_slice() {
        add_connection(alloc, blob_at(pack, place), waiting)?;
    }
    Ok(())
}

// Adds a connection on which this stream comes.
fn add_connection(
    alloc: Global,
    stream: &[u8],
    waiting: &mut VecDeque<(MemSource, MemSink)>,
) -> Result<(), NoMemory> {
    let source = source_of(alloc, stream, NONE)?;
    let sink = sink_of(alloc, NONE)?;
    waiting.push_back((source, sink))?;
    Ok(())
}

// Whether the first worker has left some of its connections.
fn leaves_some(alloc: Global, packs: &[Octets], workers: &[Worker]) -> Result<bool, NoMemory> {
    match (packs.first(), workers.first()) {
        (Some(pack), Some(worker)) => {
            let (found, _) = scan(alloc, pack.as_slice())?;
            Ok(accepted(&worker.listener) < found.len() as u64)
        }
        _ => Ok(false),
    }
}

fn accepted(listener: &Option<Connections>) -> u64 {
    match listener {
        Some(listener) => listener.accepted(),
        None => 0,
    }
}

// Serves all connections, and tells how that ended, of each worker whether an accept failed, and what there is then.
fn tell_served<R: Threads + Wait + Sync>(
    alloc: Global,
    rt: &R,
    workers: &mut [Worker],
    line: &mut Vec<u8>,
) -> Result<(), NoMemory> {
    let home = CoreHome::make();
    let status = serve_all(rt, alloc, &home, workers, u64::MAX, &Open);
    line.push(b' ')?;
    add_number(alloc, line, u64::from(status.code()))?;
    let failed = workers
        .iter()
        .map(|worker| u8::from(worker.failed))
        .collect::<Vec<u8>>(alloc)?;
    add_written(alloc, line, &failed)?;
    add_all_listed(alloc, rt, workers, line)
}

fn add_all_listed<R: Wait>(
    alloc: Global,
    rt: &R,
    workers: &mut [Worker],
    line: &mut Vec<u8>,
) -> Result<(), NoMemory> {
    let mut listed = Vec::new(alloc);
    for worker in workers {
        add_listing(alloc, rt, &mut worker.pass, &mut listed)?;
    }
    add_ref(line, &listed)
}
