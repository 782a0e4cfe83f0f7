//! The server of shares.
ghost use Rattle.std.specs.Prelude.{◌≡◌, ◌≤◌, ◌<◌, ◌+◌};
ghost use Rattle.std.specs.Option.{ForSome};
ghost use Rattle.claim_model.specs.Facts.{AreValid};
ghost use Rattle.pack_disk.specs.Runs.{Stays};
ghost use Rattle.pack_store.specs.StoreShelf.{content_of};
ghost use Rattle.share_gate.specs.Building.{IsOnlyRead};
ghost use Rattle.share_server.specs.Serving.{IsListing, Ends};

use crate::accepting::accept_all;
use crate::gating::gate_of;
use claim_index::FactList;
use claim_verify::Verifier;
use edge_base::Shelf;
use edge_listen::Listener;
use fact_lines::store_facts;
use pack_disk::Disk;
use pack_store::Store;
use std::alloc::Global;
use std::marker::Brand;
use std::sync::Wait;
use std::sync::ledger::{Blank, Ledger};
use top_frame::{LIMITS, Status};

/// Serves the shares of the store of a disk, as they are at the start (`docs/shares.md`): so many connections, one
/// after the other, each by `share_session`. The store is opened and its gate is made. All memory for this, except the
/// gate, is freed before the first connection is accepted. Returns the disk, on which nothing was changed, and the
/// status.
///
/// At `Done` the listener gave so many connections, unless its count is at the maximum of its type. At `ListenerFault`
/// an accept failed; the connections before it were served. At `Disk`, `Damaged` and `NoMemory` no connection was
/// accepted: the disk failed, the bytes of a blob have another ref, or there was no memory to open the store and to
/// make its gate. It ends with no other status: the end of a connection, for whatever reason, ends nothing else.
///
/// It may wait for as long as the listener and the connections do. The memory of the gate is that of `ShareGate`; while
/// it is made, an index of the whole store is there too.
pub fn serve_shares<D: Disk, V: Verifier, L: Listener, R: Wait>(
    rt: &R,
    alloc: Global,
    disk: D,
    keys: &V,
    listener: &mut L,
    connections: u64,
) -> (D, Status)
    ensures ends { Ends connections (L.accepted listener.old) (L.accepted listener.new)
        (L.faults listener.old) (L.faults listener.new) (D.packs disk) (D.faults disk) (D.faults result.0) result.1 }
    ensures most { L.accepted listener.new ≤ L.accepted listener.old + connections }
    ensures stays { Stays D.Disk disk result.0 }
    ensures later { D.faults disk ≤ D.faults result.0 }
{
    match store_facts(alloc, disk, LIMITS) {
        Ok(opened) => {
            let (store, facts) = opened;
            serve_opened(rt, alloc, store, facts, keys, listener, connections)
        }
        Err(end) => {
            let (disk, fault) = end;
            (disk, Status::from(fault))
        }
    }
}

// The same over an opened store with these facts.
fn serve_opened<D: Disk, V: Verifier, L: Listener, R: Wait>(
    rt: &R,
    alloc: Global,
    store: Store<D>,
    facts: FactList,
    keys: &V,
    listener: &mut L,
    connections: u64,
) -> (D, Status)
    requires facts { ForSome (content_of D.Disk store) (IsListing facts) }
    requires valid { AreValid facts }
    ensures ends { Ends connections (L.accepted listener.old) (L.accepted listener.new)
        (L.faults listener.old) (L.faults listener.new) (D.packs store.disk) (D.faults store.disk)
        (D.faults result.0) result.1 }
    ensures most { L.accepted listener.new ≤ L.accepted listener.old + connections }
    ensures stays { Stays D.Disk store.disk result.0 }
    ensures later { D.faults store.disk ≤ D.faults result.0 }
{
    let mut store = store;
    let status = serve_shelf::<_, _, _, _, Brand>(
        rt,
        alloc,
        &mut store,
        facts,
        keys,
        listener,
        connections,
        Blank::new(1),
    );
    (store.give_back(), status)
}

// The same over any shelf. The steps of making its gate are counted in the blank ledger.
fn serve_shelf<B: Shelf, V: Verifier, L: Listener, R: Wait, J: Ledger>(
    rt: &R,
    alloc: Global,
    shelf: &mut B,
    facts: FactList,
    keys: &V,
    listener: &mut L,
    connections: u64,
    blank: Blank,
) -> Status
    requires facts { ForSome (B.content shelf.old) (IsListing facts) }
    requires valid { AreValid facts }
    requires name { blank.name ≡ J.name }
    requires parts { blank.parts ≡ J.parts }
    requires some { 0 < blank.parts }
    ensures ends { Ends connections (L.accepted listener.old) (L.accepted listener.new)
        (L.faults listener.old) (L.faults listener.new) (B.content shelf.old) (B.faults shelf.old)
        (B.faults shelf.new) result }
    ensures most { L.accepted listener.new ≤ L.accepted listener.old + connections }
    ensures read { IsOnlyRead B.Shelf shelf.old shelf.new }
{
    let gate = match gate_of::<_, _, J>(alloc, shelf, facts, keys, blank) {
        Ok(gate) => gate,
        Err(fault) => return Status::from(fault),
    };
    if accept_all(rt, alloc, &gate, shelf, listener, connections) {
        Status::Done
    } else {
        Status::ListenerFault
    }
}
