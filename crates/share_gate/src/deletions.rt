//! The table of deleted refs.
ghost use Rattle.std.specs.Prelude.{◌≡◌, ◌++◌, ◌&&◌, not, IfOk, OnOk, option_to_list};
ghost use Rattle.std.specs.FinMap.{get};
ghost use Rattle.schema_date.specs.declared.date.When.TheVariants.{Always};
ghost use Rattle.claim_model.specs.Deleted.{is_deleted};
ghost use Rattle.claim_model.specs.Facts.{passes};
ghost use Rattle.claim_model.specs.Genuine.{key_accepts};
ghost use Rattle.share_gate.specs.Tables.{AreDeleted, delete_target, target_deleted_by};

use crate::keys::is_accepted;
use blobref::{NoMemory, Ref, RefList, RefSet};
use claim_verify::Verifier;
use edge_base::Steps;
use index_look::Look;
use index_look::claim::signature;
use schema_date::When;
use schema_fact::{Kind, Signed, What};
use std::alloc::Global;
use std::sync::ledger::Ledger;

/// The refs that the blobs of these refs delete: the targets of genuine delete claims that aren't deleted themselves.
/// The only error is `NoMemory`.
pub(crate) fn deleted_targets<K: Look, V: Verifier, L: Ledger>(
    alloc: Global,
    refs: &[Ref],
    look: &K,
    keys: &V,
    steps: &mut Steps<L>,
) -> Result<RefSet, NoMemory>
    requires keys { K.accepts look.now ≡ V.accepts keys.now }
    ensures { IfOk result (λ targets. AreDeleted (K.facts look.now) (V.accepts keys.now) refs.now targets) }
{
    let mut targets = RefList::empty(alloc);
    for r in refs {
        push_target(&mut targets, target_deleted_by(look, keys, r, steps))?;
    }
    RefSet::of(targets)
}

fn push_target(targets: &mut RefList, target: Option<Ref>) -> Result<(), NoMemory>
    ensures { OnOk result (targets.new ≡ targets.old ++ option_to_list target) }
{
    match target {
        Some(target) => targets.push(target),
        None => Ok(()),
    }
}

fn target_deleted_by<K: Look, V: Verifier, L: Ledger>(
    look: &K,
    keys: &V,
    r: &Ref,
    steps: &mut Steps<L>,
) -> Option<Ref>
    requires keys { K.accepts look.now ≡ V.accepts keys.now }
    ensures { result ≡ target_deleted_by (K.facts look.now) (V.accepts keys.now) r.now }
{
    let fact = look.fact_of(r, steps)?;
    let target = delete_target(&fact.kind)?;
    let signed = signature(&fact.kind)?;
    if is_counted(look, keys, r, signed, steps) {
        Some(target)
    } else {
        None
    }
}

// Whether the delete claim at a ref, with this signature, is signed as its key accepts, and isn't deleted itself.
fn is_counted<K: Look, V: Verifier, L: Ledger>(
    look: &K,
    keys: &V,
    r: &Ref,
    signed: &Signed,
    steps: &mut Steps<L>,
) -> bool
    requires { K.accepts look.now ≡ V.accepts keys.now }
    ensures { result ≡ (passes (λ key. key_accepts (V.accepts keys.now) signed.now key.kind)
        (get (K.facts look.now) signed.now.signer)
        && not (is_deleted (K.facts look.now) (V.accepts keys.now) Always r.now)) }
{
    is_accepted(look, keys, signed, steps) && !look.deleted(r, &When::Always, steps)
}

fn delete_target(kind: &Kind) -> Option<Ref>
    ensures { result ≡ delete_target kind.now }
{
    match kind {
        Kind::Claim {
            what: What::Delete { target },
            ..
        } => Some(*target),
        _ => None,
    }
}
