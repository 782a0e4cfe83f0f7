//! The facts of blobs, and of the blobs of a store.
ghost use Rattle.std.specs.Prelude.{◌≡◌, ◌≤◌, ◌^◌, [], ◌∷◌, ◌++◌, map, IfOk, IfErr, OnOk};
ghost use Rattle.std.specs.Option.{ForSome};
ghost use Rattle.claim_model.specs.Facts.{AreDistinct, AreValid};
ghost use Rattle.edge_base.specs.Edge.{FaultsRose};
ghost use Rattle.pack_disk.specs.Disk.{last_number};
ghost use Rattle.pack_disk.specs.Runs.{Stays};
ghost use Rattle.pack_store.specs.Opening.{IsOpened};
ghost use Rattle.pack_store.specs.Rows.{arrivals_in};
ghost use Rattle.fact_lines.specs.Blobs.{entry_of, named, with_blob, with_blobs, HasRefsOf};

use blobref::{NoMemory, Octets, Ref};
use claim_index::FactList;
use pack_disk::Disk;
use pack_store::{Limits, Onlooker, OpenFault, Store};
use schema_json::fact;
use std::alloc::Global;
use std::collections::BTreeSet;

// The most bytes that one read of a pack requests, if its records are long.
const PACK_PIECE: usize = 8_388_608;

/// The facts of these blobs, each ref at its first blob. `NoMemory` comes only if no memory is left.
pub(crate) fn facts_of(alloc: Global, blobs: &[Octets]) -> Result<FactList, NoMemory>
    ensures { IfOk result (λ facts. facts ≡ with_blobs [] (map named blobs.now)) }
{
    let mut seen = BTreeSet::new(alloc);
    let mut facts = FactList::empty(alloc);
    for blob in blobs {
        let bytes = blob.as_slice();
        add_blob(alloc, Ref::of(bytes), bytes, &mut seen, &mut facts)?;
    }
    Ok(facts)
}

/// Opens the store that a disk holds, and gathers the facts of its blobs as they arrive, in their order. Only the
/// opening reads bytes (`Store::open_watched`). No two arrivals have the same ref (`Store::arrivals_are_held`), so that
/// each ref comes once. For the rest, and for when each error comes, see `Store::open_on`.
pub fn store_facts<D: Disk>(
    alloc: Global,
    disk: D,
    limits: Limits,
) -> Result<(Store<D>, FactList), (D, OpenFault)>
    requires last_pack { limits.last_pack ≤ last_number }
    requires pack_bytes { limits.pack_bytes ≤ 2 ^ 63 }
    ensures facts { IfOk result (λ o. ForSome (D.packs disk)
        (λ held. o.1 ≡ map entry_of (arrivals_in held o.0.rows))) }
    ensures distinct { IfOk result (λ o. AreDistinct o.1) }
    ensures valid { IfOk result (λ o. AreValid o.1) }
    ensures opened { IfOk result (λ o. IsOpened D.Disk disk limits o.0) }
    ensures stays { IfOk result (λ o. Stays D.Disk disk o.0.disk) }
    ensures stays_err { IfErr result (λ e. Stays D.Disk disk e.0) }
    ensures failed { IfErr result (λ e. e.1 ≡ OpenFault.Disk → FaultsRose (D.faults disk) (D.faults e.0)) }
    ensures later { IfOk result (λ o. D.faults disk ≤ D.faults o.0.disk) }
    ensures later_err { IfErr result (λ e. D.faults disk ≤ D.faults e.0) }
{
    let gathering = Gathered {
        alloc,
        facts: FactList::empty(alloc),
    };
    match Store::open_watched(alloc, disk, limits, PACK_PIECE, gathering) {
        Ok(opened) => {
            let (store, gathered) = opened;
            store.arrivals_are_held();
            Ok((store, gathered.facts))
        }
        Err(fault) => Err(fault),
    }
}

// The facts of the blobs that were shown.
#[derive(Drop)]
struct Gathered {
    alloc: Global,
    facts: FactList,
}

impl Onlooker for Gathered {
    ghost use Rattle.std.specs.Prelude.{◌≡◌, map};
    ghost use Rattle.fact_lines.specs.Blobs.{entry_of};

    ghost saw = { λ gathered blobs. gathered.facts ≡ map entry_of blobs };

    fn see(&mut self, r: &Ref, bytes: &[u8]) -> Result<(), NoMemory> {
        push_fact(self.alloc, *r, bytes, &mut self.facts)
    }
}

// Adds the fact of a blob, unless its ref was seen.
pub(crate) fn add_blob(
    alloc: Global,
    r: Ref,
    bytes: &[u8],
    seen: &mut BTreeSet<Ref>,
    facts: &mut FactList,
) -> Result<(), NoMemory>
    requires seen { HasRefsOf seen.old facts.old }
    ensures facts { OnOk result (facts.new ≡ with_blob facts.old (r, bytes.now)) }
    ensures seen { OnOk result (HasRefsOf seen.new facts.new) }
{
    if seen.insert(r)? {
        push_fact(alloc, r, bytes, facts)?;
    }
    Ok(())
}

// Adds the fact of a blob.
fn push_fact(alloc: Global, r: Ref, bytes: &[u8], facts: &mut FactList) -> Result<(), NoMemory>
    ensures { OnOk result (facts.new ≡ facts.old ++ entry_of (r, bytes.now) ∷ []) }
{
    let said = fact(alloc, bytes)?;
    facts.push((r, said))?;
    Ok(())
}
