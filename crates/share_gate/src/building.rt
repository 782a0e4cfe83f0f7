//! Builds the gate of a store.
ghost use Rattle.std.specs.Prelude.{◌≡◌, IfOk, IfErr};
ghost use Rattle.std.specs.Option.{ForSome};
ghost use Rattle.schema_json.specs.Facts.{fact_of};
ghost use Rattle.claim_model.specs.Facts.{facts_of};
ghost use Rattle.share_gate.specs.Building.{BuildFault, HasRefs, IsOnlyRead};
ghost use Rattle.share_gate.specs.Gates.{IsGateOf};

use crate::deletions::deleted_targets;
use crate::gate::ShareGate;
use crate::links::link_rows;
use crate::shares::share_rows;
use blobref::{RefList, RefSet};
use claim_verify::Verifier;
use edge_base::{GetFault, Shelf, Steps};
use index_look::Look;
use std::alloc::Global;
use std::sync::ledger::Ledger;

impl ShareGate {
    /// The gate of the store that has exactly these refs, each listed at least once. The index has the facts of its
    /// blobs, and its keys accept what `keys` do. It fetches only blobs that aren't ready, and claims of a kind that
    /// facts don't know. It keeps none of them.
    ///
    /// `Disk` comes only if the shelf's count of faults rose. `Damaged` is of one of these refs, and never comes if the
    /// shelf tells what it holds. Nothing is put, even after an error.
    pub fn build<B: Shelf, K: Look, V: Verifier, L: Ledger>(
        alloc: Global,
        shelf: &mut B,
        refs: &RefList,
        look: &K,
        keys: &V,
        steps: &mut Steps<L>,
    ) -> Result<ShareGate, GetFault>
        requires refs { ForSome (B.content shelf.old) (HasRefs refs.now) }
        requires facts { ForSome (B.content shelf.old) (λ held. K.facts look.now ≡ facts_of fact_of held) }
        requires keys { K.accepts look.now ≡ V.accepts keys.now }
        ensures gate { IfOk result (λ gate. ForSome (B.content shelf.old)
            (λ held. IsGateOf gate held (V.accepts keys.now))) }
        ensures err { IfErr result
            (BuildFault (B.content shelf.old) (B.faults shelf.old) (B.faults shelf.new) refs.now) }
        ensures read { IsOnlyRead B.Shelf shelf.old shelf.new }
    {
        let listed = refs.as_slice();
        let links = link_rows(alloc, shelf, listed, look, steps)?;
        let shares = share_rows(alloc, shelf, listed, look, keys, steps)?;
        let deleted = deleted_targets(alloc, listed, look, keys, steps)?;
        let refs = RefSet::of(refs.copy(alloc)?)?;
        Ok(ShareGate {
            refs,
            links,
            shares,
            deleted,
        })
    }
}
