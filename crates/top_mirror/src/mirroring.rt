//! `mirror DIR ADDR..`
ghost use Rattle.std.specs.Prelude.{◌≡◌, ◌↔◌, ◌≤◌, true, length, IfOk};
ghost use Rattle.top_mirror.specs.Mirrors.{objects, stores_line, round_status, Names, Always, EndsBy, MirrorEnds};

use blobref::{NoMemory, Octets, Text};
use edge_base::Sink;
use pack_disk::Disk;
use pack_store::content_stands;
use peer_base::Peer;
use perkeep_words::mirror_count;
use ring_rounds::{RingFault, ring_round};
use std::alloc::Global;
use store_peer::StorePeer;
use top_frame::{Status, opened, written};
use top_sync::{pull_status, push_decimal, push_status};

/// Brings the store of the disk and the peers to one state, by a round with the store as the hub, and writes how many
/// stores these are and how many blobs the hub then has. `BadWords` comes exactly where the words aren't a line of
/// `mirror` with as many addresses as there are peers; then all is left as it is.
///
/// A failure of the store is `Disk`, and one of a peer is `Peer`. After each refusal the store and the peers hold what
/// they held and further blobs of all of them, and nothing was written; a round after it copies what is still lacking.
pub fn mirror_run<D: Disk, P: Peer, K: Sink>(
    alloc: Global,
    words: &[Text],
    disk: D,
    peers: &mut [P],
    sink: &mut K,
) -> (D, Status)
    ensures { MirrorEnds D.Disk P.Peer K.Sink (objects disk peers.old sink.old) (objects result.0 peers.new sink.new)
        words.now result.1 }
{
    if !is_line_of(words, peers.len()) {
        return (disk, Status::BadWords);
    }
    mirrored(alloc, disk, peers, sink)
}

// Whether the words are a line of `mirror` with so many addresses.
fn is_line_of(words: &[Text], peers: usize) -> bool
    ensures line { (result ≡ true) ↔ Names words.now peers }
    ensures few { result ≡ true → peers ≤ 16 }
{
    match mirror_count(words) {
        Some(count) => count == peers,
        None => false,
    }
}

// Makes the round.
fn mirrored<D: Disk, P: Peer, K: Sink>(
    alloc: Global,
    disk: D,
    peers: &mut [P],
    sink: &mut K,
) -> (D, Status)
    requires { length peers.old ≤ 16 }
    ensures always { Always D.Disk P.Peer K.Sink (objects disk peers.old sink.old)
        (objects result.0 peers.new sink.new) }
    ensures ends { EndsBy D.Disk P.Peer K.Sink (objects disk peers.old sink.old) (objects result.0 peers.new sink.new)
        result.1 }
{
    let store = match opened(alloc, disk) {
        Ok(store) => store,
        Err(end) => return end,
    };
    content_stands::<D>();
    let count = peers.len();
    let mut hub = StorePeer::over(store);
    match ring_round(alloc, &mut hub, peers) {
        Ok(_) => {
            let store = hub.back();
            match stores_line(alloc, count, store.count()) {
                Ok(line) => {
                    let status = written(line.as_slice(), sink);
                    (store.give_back(), status)
                }
                Err(NoMemory) => (store.give_back(), Status::NoMemory),
            }
        }
        Err(fault) => (hub.back().give_back(), round_status(fault)),
    }
}

/// The status of a round that stopped at this fault: that of a pull from the peer at that place, or of a push to it.
pub fn round_status(fault: RingFault) -> Status
    ensures { result ≡ round_status fault }
{
    match fault {
        RingFault::Gather { peer: _, fault } => pull_status(fault),
        RingFault::Scatter { peer: _, fault } => push_status(fault),
    }
}

// How many stores there are, with the hub, and how many blobs that has.
fn stores_line(alloc: Global, peers: usize, blobs: u64) -> Result<Octets, NoMemory>
    requires { peers ≤ 16 }
    ensures { IfOk result (λ line. line ≡ stores_line peers blobs) }
{
    let mut line = Vec::new(alloc);
    line.extend_from_slice(b"stores ")?;
    push_decimal(&mut line, peers as u64 + 1)?;
    line.extend_from_slice(b" blobs ")?;
    push_decimal(&mut line, blobs)?;
    line.push(b'\n')?;
    Ok(Octets::from_vec(line))
}
