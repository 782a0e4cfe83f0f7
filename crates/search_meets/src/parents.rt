//! The parents of many refs, by one pass over all permanodes.
ghost use Rattle.std.specs.Prelude.{◌≡◌, ◌++◌, ◌∷◌, ℕ, List, [], Some, None, true, not, map, filter};
ghost use Rattle.std.specs.Prelude.{option_map, IfOk, IsSome, OnOk, if◌then◌else◌};
ghost use Rattle.std.specs.BTreeMap.{get};
ghost use Rattle.std.specs.List.{list_any};
ghost use Rattle.std.specs.List.Sorted.{IsStrictlySortedBy};
ghost use Rattle.std.specs.Str.{bytes_eq};
ghost use Rattle.blobref.specs.Blobref.{is_blobref, ref_cmp};
ghost use Rattle.claim_model.specs.Claims.{has_value, member_attribute, parents};
ghost use Rattle.claim_model.specs.Deleted.{is_deleted, live_permanodes};
ghost use Rattle.search_meets.specs.Computed.{is_last, with_last, with_parent, AreParents};

use blobref::{NoMemory, Ref, RefList, Text};
use edge_base::Steps;
use index_look::Look;
use schema_date::When;
use std::alloc::Global;
use std::collections::BTreeMap;
use std::sync::ledger::Ledger;

// The parents of each ref at that time. Each permanode is asked once for its members, and each of these is looked up
// among the refs. So the time is that of a walk over all permanodes and their changes, and of (members + refs) x
// log(refs); the memory is that of the permanodes' refs and twice that of the answer.
pub(crate) fn parent_links<K: Look, L: Ledger>(
    alloc: Global,
    look: &K,
    when: &When,
    refs: &[Ref],
    steps: &mut Steps<L>,
) -> Result<Vec<RefList>, NoMemory>
    ensures { IfOk result (λ l. l.items ≡ map (parents (K.facts look.now) (K.accepts look.now) when.now) refs.now) }
{
    if refs.is_empty() {
        return Ok(Vec::new(alloc));
    }
    let live = live_permanodes(alloc, look, when, steps)?;
    let mut found = no_parents(alloc, refs)?;
    enter_all(look, when, refs, &mut found, live.as_slice(), steps)?;
    let mut out = Vec::new(alloc);
    for r in refs {
        out.push(copy_at(alloc, &found, r)?)?;
    }
    Ok(out)
}

/// The genuine permanodes that aren't deleted at that time, ascending. It goes over all permanodes. `NoMemory` comes only
/// where no memory is left.
pub fn live_permanodes<K: Look, L: Ledger>(
    alloc: Global,
    look: &K,
    when: &When,
    steps: &mut Steps<L>,
) -> Result<RefList, NoMemory>
    ensures all { IfOk result (λ live. live ≡ live_permanodes (K.facts look.now) (K.accepts look.now) when.now) }
    ensures ascending { IfOk result (λ live. IsStrictlySortedBy ref_cmp live) }
{
    let mut live = RefList::empty(alloc);
    let mut after = None;
    'walk: while let Some(p) = look.permanode_after(after.as_ref(), steps) {
        keep_live(look, when, &mut live, &p, steps)?;
        after = Some(p);
    }
    Ok(live)
}

fn keep_live<K: Look, L: Ledger>(
    look: &K,
    when: &When,
    live: &mut RefList,
    p: &Ref,
    steps: &mut Steps<L>,
) -> Result<(), NoMemory>
    ensures { OnOk result (live.new ≡ live.old
        ++ filter (λ r. not (is_deleted (K.facts look.now) (K.accepts look.now) when.now r)) (p.now ∷ [])) }
{
    if !look.deleted(p, when, steps) {
        live.push(*p)?;
    }
    Ok(())
}

// Refs under each of which no parents stand yet.
fn no_parents(alloc: Global, refs: &[Ref]) -> Result<BTreeMap<Ref, RefList>, NoMemory>
    ensures { IfOk result (λ found. (q : List ℕ) → get ref_cmp found q
        ≡ (if list_any (bytes_eq q) refs.now then Some [] else None)) }
{
    let mut found = BTreeMap::new(alloc);
    for r in refs {
        found.insert(*r, RefList::empty(alloc))?;
    }
    Ok(found)
}

// Puts each of some permanodes under those of the refs that are its members.
fn enter_all<K: Look, L: Ledger>(
    look: &K,
    when: &When,
    refs: &[Ref],
    found: &mut BTreeMap<Ref, RefList>,
    live: &[Ref],
    steps: &mut Steps<L>,
) -> Result<(), NoMemory>
    requires ascending { IsStrictlySortedBy ref_cmp live.now }
    requires none { AreParents (K.facts look.now) (K.accepts look.now) when.now refs.now [] found.old }
    ensures { OnOk result (AreParents (K.facts look.now) (K.accepts look.now) when.now refs.now live.now found.new) }
{
    for p in live {
        enter(look, when, found, p, steps)?;
    }
    Ok(())
}

// Puts a permanode under those of the refs that are its members, once under each.
fn enter<K: Look, L: Ledger>(
    look: &K,
    when: &When,
    found: &mut BTreeMap<Ref, RefList>,
    p: &Ref,
    steps: &mut Steps<L>,
) -> Result<(), NoMemory>
    ensures { OnOk result ((q : List ℕ) → is_blobref q ≡ true → get ref_cmp found.new q
        ≡ option_map (with_parent (has_value (K.facts look.now) (K.accepts look.now) when.now member_attribute q p.now)
        p.now) (get ref_cmp found.old q)) }
{
    let members = look.values(p, "camliMember", when, steps)?;
    for member in members.as_slice() {
        enter_under(found, member, p)?;
    }
    Ok(())
}

// Puts a permanode under a member, if it is one of the refs and the permanode isn't the last one there.
fn enter_under(found: &mut BTreeMap<Ref, RefList>, member: &Text, p: &Ref) -> Result<(), NoMemory>
    ensures { OnOk result ((q : List ℕ) → is_blobref q ≡ true → get ref_cmp found.new q
        ≡ option_map (with_parent (bytes_eq q member.now) p.now) (get ref_cmp found.old q)) }
{
    let Some(child) = Ref::read(member.as_str().as_bytes()) else {
        return Ok(());
    };
    match found.get_mut(&child) {
        None => Ok(()),
        Some(parents) => push_once(parents, p),
    }
}

// Puts a permanode behind others, if it isn't the last of them.
fn push_once(parents: &mut RefList, p: &Ref) -> Result<(), NoMemory>
    ensures { OnOk result (parents.new ≡ with_last p.now parents.old) }
{
    if is_last(parents.as_slice(), p) {
        return Ok(());
    }
    parents.push(*p)
}

fn is_last(refs: &[Ref], p: &Ref) -> bool
    ensures { result ≡ is_last p.now refs.now }
{
    match refs.last() {
        None => false,
        Some(last) => p == last,
    }
}

// What stands under a ref.
fn copy_at(alloc: Global, found: &BTreeMap<Ref, RefList>, r: &Ref) -> Result<RefList, NoMemory>
    requires { is_blobref r.now ≡ true → IsSome (get ref_cmp found.now r.now) }
    ensures value { IfOk result (λ refs. get ref_cmp found.now r.now ≡ Some refs) }
    ensures form { is_blobref r.now ≡ true }
{
    r.is_from_least();
    found[r].copy(alloc)
}
