//! The store of a command that signs: the blobs of a note are put, and its line is written.
ghost use Rattle.std.specs.Prelude.{◌≤◌, IfErr, OnOk};
ghost use Rattle.pack_store.specs.Puts.{PutsBlobs};
ghost use Rattle.top_frame.specs.Limits.{limits};
ghost use Rattle.top_notes.specs.Storing.{blobs_in, CanBePut, StopsAt, StoreEnds};

use crate::notes::Note;
use edge_base::{PutFault, Sink};
use pack_disk::Disk;
use pack_store::Store;
use top_frame::{Status, put_blob, written};

/// Puts the blobs of a note into a store, writes its line, and hands the disk back.
pub(crate) fn store_note<D: Disk, K: Sink>(
    mut store: Store<D>,
    note: &Note,
    sink: &mut K,
) -> (D, Status)
    requires { CanBePut note.now }
    ensures { StoreEnds D.Disk K.Sink note.now store result.0 sink.old sink.new result.1 }
{
    match put_note(&mut store, note) {
        Ok(()) => (store.give_back(), written(note.line.as_slice(), sink)),
        Err(fault) => (store.give_back(), Status::from(fault)),
    }
}

// Puts the blobs of a note in turn, the key's first.
fn put_note<D: Disk>(store: &mut Store<D>, note: &Note) -> Result<(), PutFault>
    requires { CanBePut note.now }
    ensures put { OnOk result (PutsBlobs D.Disk limits store.old (blobs_in note.now) store.new) }
    ensures stopped { IfErr result (StopsAt D.Disk store.old (blobs_in note.now) store.new) }
    ensures later { D.faults store.old.disk ≤ D.faults store.new.disk }
{
    put_blob(store, &note.signer, note.key.as_slice())?;
    put_blob(store, &note.r, note.blob.as_slice())?;
    Ok(())
}
