//! The table of links.
ghost use Rattle.std.specs.Prelude.{◌≡◌, IfOk, IfErr, OnOk};
ghost use Rattle.std.specs.Option.{ForSome};
ghost use Rattle.schema_json.specs.Facts.{fact_of};
ghost use Rattle.edge_base.specs.Shelf.{GetCause};
ghost use Rattle.claim_model.specs.Facts.{facts_of};
ghost use Rattle.share_model.specs.Links.{links_in};
ghost use Rattle.share_gate.specs.Building.{BuildFault, IsOnlyRead};
ghost use Rattle.share_gate.specs.Tables.{AreLinks, PutsLinks, links_at};

use crate::ref_map::RefMap;
use blobref::{NoMemory, Ref, RefList, RefSet};
use edge_base::{GetFault, Shelf, Steps};
use index_look::Look;
use schema_json::fact;
use share_model::links_of;
use std::alloc::Global;
use std::sync::ledger::Ledger;

/// The links of the blobs of these refs, a row for each blob that has some. A blob that isn't ready is fetched. The
/// links of all others come from the index.
pub(crate) fn link_rows<B: Shelf, K: Look, L: Ledger>(
    alloc: Global,
    shelf: &mut B,
    refs: &[Ref],
    look: &K,
    steps: &mut Steps<L>,
) -> Result<RefMap<RefSet>, GetFault>
    requires { ForSome (B.content shelf.old) (λ held. K.facts look.now ≡ facts_of fact_of held) }
    ensures ok { IfOk result (λ rows. ForSome (B.content shelf.old) (λ held. AreLinks held refs.now rows)) }
    ensures err { IfErr result (BuildFault (B.content shelf.old) (B.faults shelf.old) (B.faults shelf.new) refs.now) }
    ensures read { IsOnlyRead B.Shelf shelf.old shelf.new }
{
    let mut rows = RefMap::empty(alloc);
    for r in refs {
        put_links(alloc, &mut rows, shelf, r, look, steps)?;
    }
    Ok(rows)
}

// Puts the row of a ref.
fn put_links<B: Shelf, K: Look, L: Ledger>(
    alloc: Global,
    rows: &mut RefMap<RefSet>,
    shelf: &mut B,
    r: &Ref,
    look: &K,
    steps: &mut Steps<L>,
) -> Result<(), GetFault>
    requires { ForSome (B.content shelf.old) (λ held. K.facts look.now ≡ facts_of fact_of held) }
    ensures ok { OnOk result (ForSome (B.content shelf.old)
        (λ held. PutsLinks rows.old rows.new r.now (links_at held r.now))) }
    ensures cause { GetCause (B.content shelf.old) (B.faults shelf.old) (B.faults shelf.new) r.now result }
    ensures read { IsOnlyRead B.Shelf shelf.old shelf.new }
{
    let links = links_at(alloc, shelf, r, look, steps)?;
    put_row(rows, r, links)?;
    Ok(())
}

fn put_row(rows: &mut RefMap<RefSet>, r: &Ref, links: RefList) -> Result<(), NoMemory>
    ensures { OnOk result (PutsLinks rows.old rows.new r.now links) }
{
    if links.len() == 0 {
        return Ok(());
    }
    rows.insert(r, RefSet::of(links)?)
}

fn links_at<B: Shelf, K: Look, L: Ledger>(
    alloc: Global,
    shelf: &mut B,
    r: &Ref,
    look: &K,
    steps: &mut Steps<L>,
) -> Result<RefList, GetFault>
    requires { ForSome (B.content shelf.old) (λ held. K.facts look.now ≡ facts_of fact_of held) }
    ensures ok { IfOk result (λ links. ForSome (B.content shelf.old) (λ held. links ≡ links_at held r.now)) }
    ensures cause { GetCause (B.content shelf.old) (B.faults shelf.old) (B.faults shelf.new) r.now result }
    ensures read { IsOnlyRead B.Shelf shelf.old shelf.new }
{
    match look.fact_of(r, steps) {
        Some(fact) => Ok(links_of(alloc, &fact.kind)?),
        None => fetched_links(alloc, shelf, r),
    }
}

// The same by the bytes of the blob.
fn fetched_links<B: Shelf>(alloc: Global, shelf: &mut B, r: &Ref) -> Result<RefList, GetFault>
    ensures ok { IfOk result (λ links. ForSome (B.content shelf.old) (λ held. links ≡ links_at held r.now)) }
    ensures cause { GetCause (B.content shelf.old) (B.faults shelf.old) (B.faults shelf.new) r.now result }
    ensures read { IsOnlyRead B.Shelf shelf.old shelf.new }
{
    match shelf.fetch(r)? {
        Some(bytes) => Ok(links_in(alloc, bytes.as_slice())?),
        None => Ok(RefList::empty(alloc)),
    }
}

fn links_in(alloc: Global, bytes: &[u8]) -> Result<RefList, NoMemory>
    ensures { IfOk result (λ links. links ≡ links_in bytes.now) }
{
    let fact = fact(alloc, bytes)?;
    links_of(alloc, &fact.kind)
}
