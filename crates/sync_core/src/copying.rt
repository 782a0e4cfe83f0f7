//! Blobs are copied one by one.
ghost use Rattle.std.specs.Prelude.{◌≡◌, ◌≤◌, [], ◌∷◌, IfErr, OnOk};
ghost use Rattle.sync_core.specs.Copying.{AreThere, CopiesRefs, CopiesFront};

use crate::syncing::SyncFault;
use blobref::Ref;
use peer_base::Peer;

/// Copies the blobs of these refs, in their order.
pub(crate) fn copy_all<A: Peer, B: Peer>(
    source: &mut A,
    target: &mut B,
    refs: &[Ref],
) -> Result<(), SyncFault>
    requires { AreThere (A.content source.old) refs.now }
    ensures told { A.content source.new ≡ A.content source.old }
    ensures ok { OnOk result (CopiesRefs A.Peer B.Peer source.old source.new target.old target.new refs.now) }
    ensures err { IfErr result (CopiesFront A.Peer B.Peer source.old source.new target.old target.new refs.now) }
    ensures source_later { A.faults source.old ≤ A.faults source.new }
    ensures target_later { B.faults target.old ≤ B.faults target.new }
    ensures nothing { A.puts source.old [] source.new }
    ensures run { B.follows target.old target.new }
{
    for r in refs {
        match copy_one(source, target, r) {
            Ok(()) => {}
            Err(fault) => return Err(fault),
        }
    }
    Ok(())
}

// Copies the blob of a ref.
fn copy_one<A: Peer, B: Peer>(source: &mut A, target: &mut B, r: &Ref) -> Result<(), SyncFault>
    requires { AreThere (A.content source.old) (r.now ∷ []) }
    ensures told { A.content source.new ≡ A.content source.old }
    ensures ok { OnOk result (CopiesRefs A.Peer B.Peer source.old source.new target.old target.new (r.now ∷ [])) }
    ensures err { IfErr result (CopiesFront A.Peer B.Peer source.old source.new target.old target.new (r.now ∷ [])) }
    ensures source_later { A.faults source.old ≤ A.faults source.new }
    ensures target_later { B.faults target.old ≤ B.faults target.new }
    ensures nothing { A.puts source.old [] source.new }
    ensures run { B.follows target.old target.new }
{
    let bytes = match source.fetch(r) {
        Ok(Some(bytes)) => bytes,
        Ok(None) => return Err(SyncFault::Gone { r: *r }),
        Err(fault) => return Err(SyncFault::Source(fault)),
    };
    match target.put(r, bytes.as_slice()) {
        Ok(()) => Ok(()),
        Err(fault) => Err(SyncFault::Target(fault)),
    }
}
