//! The server.
ghost use Rattle.std.specs.Prelude.{◌≡◌, ◌<◌, All, Err, length, map};
ghost use Rattle.std.specs.List.{list_any};
ghost use Rattle.blob_server.specs.Ends.{Ends, SettlesFirst, Serves};
ghost use Rattle.blob_server.specs.Stands.{stand_of};

use crate::attending::Server;
use crate::counting::{Connections, ConnectionsLeft};
use crate::desk_list::Desk;
use crate::sharing::attend_all;
use edge_base::GetFault;
use edge_listen::Listener;
use home_places::Home;
use index_worker::Gate;
use std::alloc::Global;
use std::marker::Brand;
use std::sync::atomic::AtomicU64;
use std::sync::ledger::Blank;
use std::sync::{Mutex, Wait};
use std::thread::Threads;
use top_frame::Status;

/// Serves so many connections over a home, and indexes what arrives meanwhile. First the first desk's pass is settled;
/// where that is refused nothing else is done. Then the desks serve, each in a thread of its own. Those with a listener
/// are workers: each takes one of the connections that are left, accepts it and serves it (`docs/http.md`), until none
/// is left or an accept fails. The others are indexers, and go on until every worker has ended. Each of them asks a
/// copy of the gate.
///
/// At `Disk`, `Damaged` and `NoMemory` that first settling was refused, `NoMemory` also since the pass has no turn
/// left. At `ListenerFault` an accept failed; the desks say of which listeners. It ends with no other status.
///
/// At `Done` the listeners gave so many connections together, unless the count of one stands at the last value of its
/// type. A failed accept ends its own worker alone, and takes one connection with it; where another worker goes on, all
/// others are accepted. Without a worker none is accepted, and the indexers end at once; without desks nothing is done.
///
/// It may wait for as long as the listeners, the connections and the gate do. Where no thread can be made the desks
/// follow one another in their order, so workers should stand ahead of indexers, as in `desks`. It takes a thread for
/// each desk but one, and memory as each connection does.
pub fn serve_all<
    L: Listener + Drop + Send,
    H: Home + Sync,
    G: Gate + Copy + Sync,
    R: Threads + Wait + Sync,
>(
    rt: &R,
    alloc: Global,
    home: &H,
    desks: &mut [Desk<H::Pass, L>],
    connections: u64,
    gate: &G,
) -> Status
where
    H::Pass: Drop + Send,
    L::In: Send,
    L::Out: Send,
    requires { All (λ d. H.belongs home.now d.pass) desks.old }
    ensures own { All (λ d. H.belongs home.now d.pass) desks.new }
    ensures ends { Ends connections (map (stand_of H.sight L.accepted L.faults) desks.old)
        (map (stand_of H.sight L.accepted L.faults) desks.new) result }
{
    if desks.is_empty() {
        return Status::Done;
    }
    match settle_first(rt, home, desks) {
        Ok(()) => {
            let parts = desks.len() as u64;
            let (taken, dry) = (Blank::new(parts), Blank::new(parts));
            serve_settled::<Brand, L, H, G, R>(
                rt,
                alloc,
                home,
                desks,
                connections,
                gate,
                taken,
                dry,
            )
        }
        Err(fault) => Status::from(fault),
    }
}

// Settles the first pass.
fn settle_first<L: Listener, H: Home, R: Wait>(
    rt: &R,
    home: &H,
    desks: &mut [Desk<H::Pass, L>],
) -> Result<(), GetFault>
    requires some { 0 < length desks.old }
    requires own { All (λ d. H.belongs home.now d.pass) desks.old }
    ensures own { All (λ d. H.belongs home.now d.pass) desks.new }
    ensures len { length desks.new ≡ length desks.old }
    ensures settles { SettlesFirst result (map (stand_of H.sight L.accepted L.faults) desks.old)
        (map (stand_of H.sight L.accepted L.faults) desks.new) }
{
    home.settle(rt, &mut desks[0].pass)
}

// Serves the connections. The ledgers are new ones, of a part for each desk.
fn serve_settled<
    J: Connections + Send + Sync,
    L: Listener + Drop + Send,
    H: Home + Sync,
    G: Gate + Copy + Sync,
    R: Threads + Wait + Sync,
>(
    rt: &R,
    alloc: Global,
    home: &H,
    desks: &mut [Desk<H::Pass, L>],
    connections: u64,
    gate: &G,
    taken: Blank,
    dry: Blank,
) -> Status
where
    H::Pass: Drop + Send,
    L::In: Send,
    L::Out: Send,
    requires some { 0 < length desks.old }
    requires own { All (λ d. H.belongs home.now d.pass) desks.old }
    requires names { (taken.name ≡ J.name) × (dry.name ≡ J.dry_name) }
    requires parts { (taken.parts ≡ J.parts) × (dry.parts ≡ J.parts) }
    requires each { (taken.parts ≡ length desks.old) × (dry.parts ≡ length desks.old) }
    requires all { connections ≡ J.all }
    ensures own { All (λ d. H.belongs home.now d.pass) desks.new }
    ensures serves { Serves connections (map (stand_of H.sight L.accepted L.faults) desks.old)
        (map (stand_of H.sight L.accepted L.faults) desks.new) result }
{
    let workers = desks.iter().filter(|d| d.listener.is_some()).count();
    let (left, mut hand) = ConnectionsLeft::<J>::open(connections, taken, dry);
    let server = Server {
        alloc,
        home,
        gate,
        left: Mutex::new(left),
        workers: AtomicU64::new(workers as u64),
    };
    attend_all(rt, &server, &mut hand, desks);
    server.left.lock(rt).audit(&mut hand);
    if has_failed(desks) {
        Status::ListenerFault
    } else {
        Status::Done
    }
}

fn has_failed<P, L>(desks: &[Desk<P, L>]) -> bool
    ensures { result ≡ list_any (λ d. d.failed) desks.now }
{
    desks.iter().any(|d| d.failed)
}
