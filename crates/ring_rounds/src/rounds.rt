//! A round over a hub and its peers.
ghost use Rattle.std.specs.Prelude.{◌≡◌, ◌≤◌, [], map, IfOk, IfErr};
ghost use Rattle.std.specs.List.{AllZip};
ghost use Rattle.ring_rounds.specs.Joins.{JoinsAll, StaysBetween};
ghost use Rattle.ring_rounds.specs.Peers.{IsOnlyRead, IsRunOf};
ghost use Rattle.ring_rounds.specs.Rounds.{Gathers, GatherEnds, Scatters, ScatterEnds, IsRound, RoundStops};

use peer_base::Peer;
use std::alloc::Global;
use sync_core::{SyncFault, sync};

/// Why a round wasn't made to its end.
#[derive(Clone, Copy, PartialEq, Eq)]
pub enum RingFault {
    /// The blobs of the peer at this place weren't copied to the hub.
    Gather { peer: usize, fault: SyncFault },
    /// The hub's blobs weren't copied to the peer at this place.
    Scatter { peer: usize, fault: SyncFault },
}

/// Copies from each peer to the hub what that lacks, and then from the hub to each peer what that lacks, one peer after
/// the other, each time as `sync` does. The answer is how many blobs were copied, or the last value of its type where
/// that is less.
///
/// At `Ok`, whether or not they tell what they hold, each of these copies did what `sync` says at `Ok`, each with the
/// hub as the one before left it. Where all tell, the hub then has the join of all: what it had, and for each other ref
/// the bytes of the first peer that had it. Each peer has what it had and what it lacked of that. So all have the same
/// refs.
///
/// After an error the copies before it were whole, and the one with the peer of that place ended as `sync` says of that
/// error; peers after that place are as they were before this half of the round. While it gathers, nothing is put to a
/// peer. What `sync` says of an error's cause holds of the hub and that peer from the start of the round on: `Failed`
/// comes only where that one's count of faults rose. Where all tell, each has what it had, and further blobs of the
/// join of all.
///
/// It lists the hub twice for each peer. Where all tell, no blob is fetched twice while it gathers; then a blob is
/// fetched from the hub once for each peer that lacks it. It takes the memory that `sync` takes.
pub fn ring_round<A: Peer, P: Peer>(
    alloc: Global,
    hub: &mut A,
    peers: &mut [P],
) -> Result<u64, RingFault>
    ensures ok { IfOk result (IsRound A.Peer P.Peer hub.old hub.new peers.old peers.new) }
    ensures err { IfErr result (RoundStops A.Peer P.Peer hub.old hub.new peers.old peers.new) }
    ensures joined { IfOk result (λ n. JoinsAll (A.content hub.old) (A.content hub.new) (map P.content peers.old)
        (map P.content peers.new)) }
    ensures between { StaysBetween (A.content hub.old) (A.content hub.new) (map P.content peers.old) (map P.content peers.new) }
    ensures run { A.follows hub.old hub.new }
    ensures later { A.faults hub.old ≤ A.faults hub.new }
    ensures each { AllZip (IsRunOf P.Peer) peers.old peers.new }
{
    let gathered = match gather(alloc, hub, peers) {
        Ok(n) => n,
        Err(fault) => return Err(fault),
    };
    match scatter(alloc, hub, peers) {
        Ok(n) => Ok(gathered.saturating_add(n)),
        Err(fault) => Err(fault),
    }
}

// Copies from each peer to the hub.
fn gather<A: Peer, P: Peer>(alloc: Global, hub: &mut A, peers: &mut [P]) -> Result<u64, RingFault>
    ensures told { map P.content peers.new ≡ map P.content peers.old }
    ensures each { AllZip (IsOnlyRead P.Peer) peers.old peers.new }
    ensures ok { IfOk result (Gathers A.Peer P.Peer hub.old hub.new peers.old peers.new) }
    ensures err { IfErr result (GatherEnds A.Peer P.Peer hub.old hub.new peers.old peers.new) }
    ensures run { A.follows hub.old hub.new }
    ensures later { A.faults hub.old ≤ A.faults hub.new }
{
    let mut copied = 0u64;
    let mut i = 0usize;
    'peers: while i < peers.len() {
        match sync(alloc, &mut peers[i], hub) {
            Ok(synced) => copied = copied.saturating_add(synced.copied),
            Err(fault) => return Err(RingFault::Gather { peer: i, fault }),
        }
        i += 1;
    }
    Ok(copied)
}

// Copies from the hub to each peer.
fn scatter<A: Peer, P: Peer>(alloc: Global, hub: &mut A, peers: &mut [P]) -> Result<u64, RingFault>
    ensures told { A.content hub.new ≡ A.content hub.old }
    ensures nothing { A.puts hub.old [] hub.new }
    ensures ok { IfOk result (Scatters A.Peer P.Peer hub.old hub.new peers.old peers.new) }
    ensures err { IfErr result (ScatterEnds A.Peer P.Peer hub.old hub.new peers.old peers.new) }
    ensures later { A.faults hub.old ≤ A.faults hub.new }
    ensures each { AllZip (IsRunOf P.Peer) peers.old peers.new }
{
    let mut copied = 0u64;
    let mut i = 0usize;
    'peers: while i < peers.len() {
        match sync(alloc, hub, &mut peers[i]) {
            Ok(synced) => copied = copied.saturating_add(synced.copied),
            Err(fault) => return Err(RingFault::Scatter { peer: i, fault }),
        }
        i += 1;
    }
    Ok(copied)
}
