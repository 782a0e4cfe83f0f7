//! What workers and indexers do.
ghost use Rattle.std.specs.Prelude.{◌≡◌, ◌<◌, ◌≤◌, true, false};
ghost use Rattle.edge_base.specs.Edge.{FaultsRose, one_more};
ghost use Rattle.blob_http.specs.Serving.{Longer};
ghost use Rattle.blob_server.specs.Counting.{Adds, HasParts};
ghost use Rattle.blob_server.specs.Stands.{Attends, Gives, counts_of, stand_of};

use crate::counting::{Connections, ConnectionsLeft, TakenShare};
use crate::desk_list::Desk;
use crate::sharing::DeskWork;
use blob_http::{NoLog, serve_connection};
use edge_listen::Listener;
use home_places::Home;
use index_worker::{Gate, index_worker};
use std::alloc::Global;
use std::sync::atomic::{AtomicU64, Ordering};
use std::sync::{Mutex, Wait};

/// How many steps an indexer makes before it looks whether a worker is left.
const STEPS: u64 = 8;

/// What all desks share.
#[derive(Drop)]
pub struct Server<'a, H, G, J: Connections> {
    pub alloc: Global,
    pub home: &'a H,
    pub gate: &'a G,
    /// The connections that are still to be taken.
    pub left: Mutex<ConnectionsLeft<J>>,
    /// How many workers haven't ended.
    pub workers: AtomicU64,
}

impl<'a, H: Home, G, L: Listener, J: Connections, R: Wait> DeskWork<Desk<H::Pass, L>, J, R>
    for Server<'a, H, G, J>
where
    G: Gate + Copy,
{
    ghost use Rattle.blob_server.specs.Stands.{Attends, stand_of};

    ghost may = { λ s d. H.belongs s.home.now d.pass };

    ghost does = { λ s d e taken dry. H.belongs s.home.now e.pass
        × Attends (stand_of H.sight L.accepted L.faults d) (stand_of H.sight L.accepted L.faults e) taken dry };

    fn attend(&self, rt: &R, hand: &mut TakenShare<J>, desk: &mut Desk<H::Pass, L>) {
        let Desk {
            pass,
            listener,
            failed,
        } = desk;
        match listener {
            Some(listener) => {
                *failed = work(rt, self.alloc, self.home, &self.left, hand, pass, listener);
                self.workers.fetch_sub(1, Ordering::SeqCst);
            }
            None => {
                index_on(rt, self.home, pass, *self.gate, &self.workers);
                *failed = false;
            }
        }
    }
}

// Serves connections until none is left to take, or an accept fails. It says whether one did.
fn work<H: Home, L: Listener, J: Connections, R: Wait>(
    rt: &R,
    alloc: Global,
    home: &H,
    left: &Mutex<ConnectionsLeft<J>>,
    hand: &mut TakenShare<J>,
    pass: &mut H::Pass,
    listener: &mut L,
) -> bool
    requires own { H.belongs home.now pass.old }
    requires parts { (0 < hand.old.taken.parts) × (0 < hand.old.dry.parts) }
    ensures own { H.belongs home.now pass.new }
    ensures longer { Longer (H.sight pass.old) (H.sight pass.new) }
    ensures gives { Adds (Gives (counts_of L.accepted L.faults listener.old)
        (counts_of L.accepted L.faults listener.new) result)
        hand.old.taken.amount hand.new.taken.amount hand.old.dry.amount hand.new.dry.amount }
    ensures parts { (hand.new.taken.parts ≡ hand.old.taken.parts) × (hand.new.dry.parts ≡ hand.old.dry.parts) }
{
    'connections: for _ in rt.forever() {
        if !left.lock(rt).take(hand) {
            return false;
        }
        if !serve_next(rt, alloc, home, pass, listener) {
            return true;
        }
    }
    unreachable!()
}

// Accepts a connection and serves it. It says whether there was one.
fn serve_next<H: Home, L: Listener, R: Wait>(
    rt: &R,
    alloc: Global,
    home: &H,
    pass: &mut H::Pass,
    listener: &mut L,
) -> bool
    requires { H.belongs home.now pass.old }
    ensures own { H.belongs home.now pass.new }
    ensures longer { Longer (H.sight pass.old) (H.sight pass.new) }
    ensures later { L.faults listener.old ≤ L.faults listener.new }
    ensures some { result ≡ true → L.accepted listener.new ≡ one_more (L.accepted listener.old) }
    ensures none { result ≡ false → L.accepted listener.new ≡ L.accepted listener.old }
    ensures failed { result ≡ false → FaultsRose (L.faults listener.old) (L.faults listener.new) }
{
    let Ok((mut source, mut sink)) = listener.accept(rt) else {
        return false;
    };
    serve_connection(rt, alloc, home, pass, &mut source, &mut sink, &mut NoLog);
    true
}

// Indexes until no worker is left, and asks a gate of its own.
fn index_on<H: Home, G: Gate + Copy, R: Wait>(
    rt: &R,
    home: &H,
    pass: &mut H::Pass,
    gate: G,
    workers: &AtomicU64,
)
    requires { H.belongs home.now pass.old }
    ensures own { H.belongs home.now pass.new }
    ensures longer { Longer (H.sight pass.old) (H.sight pass.new) }
{
    let mut gate = gate;
    'rounds: for _ in rt.forever() {
        if workers.load(Ordering::SeqCst) == 0 {
            return;
        }
        index_worker(rt, home, pass, &mut gate, STEPS);
    }
    unreachable!()
}
