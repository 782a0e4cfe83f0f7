//! The gate of a store whose facts were gathered.
ghost use Rattle.std.specs.Prelude.{◌≡◌, ◌<◌, IfOk, IfErr};
ghost use Rattle.std.specs.Option.{ForSome};
ghost use Rattle.claim_model.specs.Facts.{AreValid};
ghost use Rattle.share_gate.specs.Building.{IsOnlyRead};
ghost use Rattle.share_gate.specs.Gates.{IsGateOf};
ghost use Rattle.share_server.specs.Serving.{IsListing, GateFault, refs_of};

use blobref::{NoMemory, Ref, RefList};
use claim_index::{FactList, Index};
use claim_verify::Verifier;
use edge_base::{GetFault, Shelf, Steps};
use schema_fact::Fact;
use share_gate::ShareGate;
use std::alloc::Global;
use std::sync::ledger::{Blank, Ledger};

/// The gate of the store with these facts. An index of them is made for this, and dropped with them. The steps are
/// counted in the blank ledger.
///
/// `Disk` comes only if the shelf's count of faults rose, and `Damaged` never if the shelf tells what it holds.
pub(crate) fn gate_of<B: Shelf, V: Verifier, L: Ledger>(
    alloc: Global,
    shelf: &mut B,
    facts: FactList,
    keys: &V,
    blank: Blank,
) -> Result<ShareGate, GetFault>
    requires facts { ForSome (B.content shelf.old) (IsListing facts) }
    requires valid { AreValid facts }
    requires name { blank.name ≡ L.name }
    requires parts { blank.parts ≡ L.parts }
    requires some { 0 < blank.parts }
    ensures gate { IfOk result (λ gate. ForSome (B.content shelf.old)
        (λ held. IsGateOf gate held (V.accepts keys.now))) }
    ensures err { IfErr result (GateFault (B.content shelf.old) (B.faults shelf.old) (B.faults shelf.new)) }
    ensures read { IsOnlyRead B.Shelf shelf.old shelf.new }
{
    let refs = refs_of(alloc, facts.as_slice())?;
    let mut steps = Steps::<L>::start(blank);
    let index = Index::of(alloc, facts, keys, &mut steps)?;
    ShareGate::build(alloc, shelf, &refs, &index, keys, &mut steps)
}

// The refs of facts, in their order.
fn refs_of(alloc: Global, facts: &[(Ref, Fact)]) -> Result<RefList, NoMemory>
    ensures { IfOk result (λ refs. refs ≡ refs_of facts.now) }
{
    let mut refs = RefList::empty(alloc);
    for entry in facts {
        refs.push(entry.0)?;
    }
    Ok(refs)
}
