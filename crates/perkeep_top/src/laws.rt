//! Laws of runs.
ghost use Rattle.top_notes.specs.Meanings.{keys_of};
ghost use Rattle.top_frame.specs.Outside.{outside};
ghost use Rattle.perkeep_top.specs.Stored.{StoredNotesCount};
ghost use Rattle.perkeep_top.specs.Valid.{ValidRunsEndWell};

use claim_verify::Signer;
use edge_base::{Clock, Dice, Sink, Source};
use pack_disk::Disk;
use peer_base::Peer;

/// The law that what `permanode`, `claim` and `delete` stored counts (`docs/claims.md`). Where `run` ended with `Done`,
/// the key's blob and the signed one were put; the latter's fact is the permanode, or the claim of that date which says
/// what was asked; and the keys accept its signature. So it is genuine among any blobs of which both are, a deletion
/// once its target is ready. It follows from the clause of `run`.
pub fn stored_notes_count<D: Disk, P: Peer, V: Signer, S: Source, K: Sink, C: Clock, R: Dice>(
    _keys: &V,
)
    ensures { StoredNotesCount (outside D.Disk P.Peer S.Source K.Sink C.Clock R.Dice)
        (keys_of (V.holds _keys.now) (V.seals _keys.now) (V.accepts _keys.now)) }
{}

/// The law that a valid command isn't refused (`docs/commands.md`). Where the disk tells its packs, no text of the
/// words and no input is wrong, what is asked for stands, there is room for what is put, a peer that is asked tells
/// what it holds and is never full, and no count of faults rose, `run` ended with `Done` or `NoMemory`. It follows from
/// the clause of `run`.
pub fn valid_runs_end_well<D: Disk, P: Peer, V: Signer, S: Source, K: Sink, C: Clock, R: Dice>(
    _keys: &V,
)
    ensures { ValidRunsEndWell (outside D.Disk P.Peer S.Source K.Sink C.Clock R.Dice)
        (keys_of (V.holds _keys.now) (V.seals _keys.now) (V.accepts _keys.now)) }
{}
