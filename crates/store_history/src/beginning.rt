//! The history of a store that is put into a lock.
ghost use Rattle.std.specs.Prelude.{map};
ghost use Rattle.histories.specs.History.{stamp};
ghost use Rattle.store_history.specs.Represents.{StoreRepresents};
ghost use Rattle.store_history.specs.Beginning.{begins};

use pack_disk::Disk;
use pack_store::Store;

/// A store represents the history in which its blobs arrived before the first turn, in their order. If its disk doesn't
/// tell them, the history has some bytes of their refs and sizes. The faults counted before are those of its disk now.
pub fn represents_beginning<D: Disk>(store: &Store<D>)
    ensures { StoreRepresents D.Disk (D.faults store.now.disk) store.now (map (stamp 0) (begins D.Disk store.now)) }
{
    store.arrivals_are_held();
}
