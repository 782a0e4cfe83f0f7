//! Serves connections one by one.
ghost use Rattle.std.specs.Prelude.{◌≡◌, ◌≤◌, ◌<◌, ◌+◌, true, false};
ghost use Rattle.edge_base.specs.Edge.{FaultsRose, one_more};
ghost use Rattle.share_gate.specs.Building.{IsOnlyRead};
ghost use Rattle.share_server.specs.Serving.{IsAccepted};

use edge_base::Shelf;
use edge_listen::Listener;
use share_gate::ShareGate;
use share_http::{NoLog, share_session};
use std::alloc::Global;
use std::sync::Wait;

/// Accepts so many connections, one after the other, and serves each until it ends. It stops at an accept that fails,
/// and returns whether none did.
pub(crate) fn accept_all<B: Shelf, L: Listener, R: Wait>(
    rt: &R,
    alloc: Global,
    gate: &ShareGate,
    shelf: &mut B,
    listener: &mut L,
    connections: u64,
) -> bool
    ensures most { L.accepted listener.new ≤ L.accepted listener.old + connections }
    ensures all { result ≡ true → IsAccepted connections (L.accepted listener.old) (L.accepted listener.new) }
    ensures failed { result ≡ false → FaultsRose (L.faults listener.old) (L.faults listener.new) }
    ensures later { L.faults listener.old ≤ L.faults listener.new }
    ensures read { IsOnlyRead B.Shelf shelf.old shelf.new }
{
    let mut served = 0;
    'connections: while served < connections {
        if !serve_next(rt, alloc, gate, shelf, listener) {
            return false;
        }
        served += 1;
    }
    true
}

// Accepts a connection and serves it. Returns whether there was one.
fn serve_next<B: Shelf, L: Listener, R: Wait>(
    rt: &R,
    alloc: Global,
    gate: &ShareGate,
    shelf: &mut B,
    listener: &mut L,
) -> bool
    ensures some { result ≡ true → L.accepted listener.new ≡ one_more (L.accepted listener.old) }
    ensures none { result ≡ false → L.accepted listener.new ≡ L.accepted listener.old }
    ensures failed { result ≡ false → FaultsRose (L.faults listener.old) (L.faults listener.new) }
    ensures later { L.faults listener.old ≤ L.faults listener.new }
    ensures read { IsOnlyRead B.Shelf shelf.old shelf.new }
{
    let Ok((mut source, mut sink)) = listener.accept(rt) else {
        return false;
    };
    share_session(rt, alloc, gate, shelf, &mut source, &mut sink, &mut NoLog);
    true
}
