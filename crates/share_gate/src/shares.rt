//! The table of shares.
ghost use Rattle.std.specs.Prelude.{◌≡◌, IfOk, IfErr, OnOk, option_map};
ghost use Rattle.std.specs.Option.{ForSome};
ghost use Rattle.schema_json.specs.Facts.{fact_of};
ghost use Rattle.edge_base.specs.Shelf.{GetCause};
ghost use Rattle.claim_model.specs.Facts.{facts_of, passes};
ghost use Rattle.claim_model.specs.Ready.{ready_fact};
ghost use Rattle.share_model.specs.Shares.{share_in};
ghost use Rattle.share_gate.specs.Building.{BuildFault, IsOnlyRead};
ghost use Rattle.share_gate.specs.Gates.{row_of};
ghost use Rattle.share_gate.specs.Tables.{AreShares, PutsShare, is_unread_claim, row_at};

use crate::gate::ShareRow;
use crate::keys::is_accepted;
use crate::ref_map::RefMap;
use blobref::{NoMemory, Ref};
use claim_verify::Verifier;
use edge_base::{GetFault, Shelf, Steps};
use index_look::Look;
use schema_fact::Kind;
use share_model::share_in;
use std::alloc::Global;
use std::sync::ledger::Ledger;

/// The shares at these refs. Only claims of a kind that facts don't know are fetched.
pub(crate) fn share_rows<B: Shelf, K: Look, V: Verifier, L: Ledger>(
    alloc: Global,
    shelf: &mut B,
    refs: &[Ref],
    look: &K,
    keys: &V,
    steps: &mut Steps<L>,
) -> Result<RefMap<ShareRow>, GetFault>
    requires { ForSome (B.content shelf.old) (λ held. K.facts look.now ≡ facts_of fact_of held) }
    ensures ok { IfOk result (λ rows. ForSome (B.content shelf.old)
        (λ held. AreShares held (V.accepts keys.now) refs.now rows)) }
    ensures err { IfErr result (BuildFault (B.content shelf.old) (B.faults shelf.old) (B.faults shelf.new) refs.now) }
    ensures read { IsOnlyRead B.Shelf shelf.old shelf.new }
{
    let mut rows = RefMap::empty(alloc);
    for r in refs {
        let row = row_at(alloc, shelf, r, look, keys, steps)?;
        put_row(&mut rows, r, row)?;
    }
    Ok(rows)
}

fn put_row(rows: &mut RefMap<ShareRow>, r: &Ref, row: Option<ShareRow>) -> Result<(), NoMemory>
    ensures { OnOk result (PutsShare rows.old rows.new r.now row) }
{
    match row {
        Some(row) => rows.insert(r, row),
        None => Ok(()),
    }
}

fn row_at<B: Shelf, K: Look, V: Verifier, L: Ledger>(
    alloc: Global,
    shelf: &mut B,
    r: &Ref,
    look: &K,
    keys: &V,
    steps: &mut Steps<L>,
) -> Result<Option<ShareRow>, GetFault>
    requires { ForSome (B.content shelf.old) (λ held. K.facts look.now ≡ facts_of fact_of held) }
    ensures ok { IfOk result (λ row. ForSome (B.content shelf.old)
        (λ held. row ≡ row_at held (V.accepts keys.now) r.now)) }
    ensures cause { GetCause (B.content shelf.old) (B.faults shelf.old) (B.faults shelf.new) r.now result }
    ensures read { IsOnlyRead B.Shelf shelf.old shelf.new }
{
    if !may_be_share(look, r, steps) {
        return Ok(None);
    }
    match shelf.fetch(r)? {
        Some(bytes) => Ok(row_in(alloc, bytes.as_slice(), look, keys, steps)?),
        None => Ok(None),
    }
}

// Whether it is a claim of a kind that facts don't know. Each share is one. Such a claim depends on nothing and is
// ready.
fn may_be_share<K: Look, L: Ledger>(look: &K, r: &Ref, steps: &mut Steps<L>) -> bool
    ensures { result ≡ passes (λ fact. is_unread_claim fact.kind) (ready_fact (K.facts look.now) r.now) }
{
    match look.fact_of(r, steps) {
        Some(fact) => is_unread_claim(&fact.kind),
        None => false,
    }
}

fn is_unread_claim(kind: &Kind) -> bool
    ensures { result ≡ is_unread_claim kind.now }
{
    match kind {
        Kind::Unread(name) => name.as_str() == "claim",
        _ => false,
    }
}

// The row of the share with these bytes; `None` if they are no share.
fn row_in<K: Look, V: Verifier, L: Ledger>(
    alloc: Global,
    bytes: &[u8],
    look: &K,
    keys: &V,
    steps: &mut Steps<L>,
) -> Result<Option<ShareRow>, NoMemory>
    ensures { IfOk result (λ row. row
        ≡ option_map (row_of (K.facts look.now) (V.accepts keys.now)) (share_in bytes.now)) }
{
    match share_in(alloc, bytes)? {
        Some(share) => Ok(Some(ShareRow {
            target: share.target,
            transitive: share.transitive,
            genuine: is_accepted(look, keys, &share.signed, steps),
        })),
        None => Ok(None),
    }
}
