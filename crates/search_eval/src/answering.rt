//! The answer to a query.
ghost use Rattle.std.specs.Prelude.{◌≡◌, ◌≤◌, ◌+◌, ◌*◌, ◌++◌, ◌∷◌, [], ℕ, List, Some, true, IfOk, OnOk, filter, length};
ghost use Rattle.std.specs.Prelude.{not, take};
ghost use Rattle.claim_model.specs.Deleted.{is_deleted};
ghost use Rattle.claim_model.specs.Claims.{holders};
ghost use Rattle.search_query.specs.View.{view};
ghost use Rattle.search_eval.specs.Answer.{answer, found};
ghost use Rattle.search_eval.specs.Held.{AsksForValue, held_at, is_plain};
ghost use Rattle.search_eval.specs.Walk.{has_enough, up_to};
ghost use Rattle.search_eval.specs.Walk.{is_found};

use crate::held::{held_at, is_plain};
use crate::ordering::{falling, rising};
use blobref::{NoMemory, Ref, RefList};
use edge_base::Steps;
use index_look::Look;
use schema_date::When;
use search_meets::met;
use search_query::{Query, Sort};
use std::alloc::Global;
use std::sync::ledger::Ledger;

// How many permanodes are asked at first, before those that are found are counted.
const FIRST_ASKED: usize = 1_024;

/// The refs that the query asks for, in its order, at most its limit (`docs/search.md`). `NoMemory` comes only where
/// no memory is left. `steps` counts the steps of the index.
///
/// The time is at most that of (parts of the constraint) x (refs) x (values or parents of a ref), and of a walk over
/// all permanodes for each part that asks for parents at a date, however deep the constraint nests
/// (`search_meets::met`). In the order `Sort::Ref` the permanodes are asked by and by, each time twice as many, until
/// `limit` of them are found; so that time may come as often as their number can be halved.
///
/// The refs are all permanodes. Where the constraint asks for a value of an attribute, by itself or in what it joins by
/// `and`, and no date is asked, they are those alone that hold the value, in any order of the answer. A query for one
/// value and nothing else, at no date and in the order `Sort::Ref`, takes at most 8 (1 + n) steps where the index is
/// quick and n permanodes hold the value, whatever it answers.
pub fn answer<K: Look, L: Ledger>(
    alloc: Global,
    look: &K,
    query: &Query,
    steps: &mut Steps<L>,
) -> Result<RefList, NoMemory>
    ensures refs { IfOk result (λ refs. refs ≡ answer (K.facts look.now) (K.accepts look.now) query.now) }
    ensures ticks { (name value : List ℕ) → AsksForValue query.now name value → K.quick look.now
        → steps.new ≤ steps.old + 8 * (1 + length (holders (K.facts look.now) (K.accepts look.now) name value)) }
{
    match query.sort {
        Sort::Ref => found(alloc, look, query, Some(query.limit), steps),
        Sort::Mod => {
            let refs = found(alloc, look, query, None, steps)?;
            rising(alloc, look, &query.at, refs.as_slice(), query.limit, steps)
        }
        Sort::ModDown => {
            let refs = found(alloc, look, query, None, steps)?;
            falling(alloc, look, &query.at, refs.as_slice(), query.limit, steps)
        }
    }
}

// What was found, and the permanodes that are to be asked next, once there are so many.
#[derive(Drop)]
struct Walk {
    found: RefList,
    asked: Vec<Ref>,
    size: usize,
}

fn start(alloc: Global, stop: Option<u32>) -> Walk
    ensures found { result.found ≡ [] }
    ensures asked { result.asked.items ≡ [] }
{
    let size = match stop {
        None => usize::MAX,
        Some(_) => FIRST_ASKED,
    };
    Walk {
        found: RefList::empty(alloc),
        asked: Vec::new(alloc),
        size,
    }
}

// The permanodes that the query asks for, ascending, the first ones where so many are enough.
fn found<K: Look, L: Ledger>(
    alloc: Global,
    look: &K,
    query: &Query,
    stop: Option<u32>,
    steps: &mut Steps<L>,
) -> Result<RefList, NoMemory>
    ensures all { IfOk result (λ refs. refs ≡ up_to stop (found (K.facts look.now) (K.accepts look.now) query.now)) }
    ensures ticks { (name value : List ℕ) → AsksForValue query.now name value → K.quick look.now
        → steps.new ≤ steps.old + 8 * (1 + length (holders (K.facts look.now) (K.accepts look.now) name value)) }
{
    match held_at(look, &query.constraint, &query.at, steps)? {
        None => found_among_all(alloc, look, query, stop, steps),
        Some(refs) => found_among(alloc, look, query, stop, refs, steps),
    }
}

// The same among all permanodes.
fn found_among_all<K: Look, L: Ledger>(
    alloc: Global,
    look: &K,
    query: &Query,
    stop: Option<u32>,
    steps: &mut Steps<L>,
) -> Result<RefList, NoMemory>
    ensures { IfOk result (λ refs. refs ≡ up_to stop (found (K.facts look.now) (K.accepts look.now) query.now)) }
{
    let mut walk = start(alloc, stop);
    let mut after = None;
    'walk: while let Some(p) = look.permanode_after(after.as_ref(), steps) {
        come_to(alloc, look, query, stop, &mut walk, p, steps)?;
        if is_full(stop, &walk.found) {
            return Ok(walk.found);
        }
        after = Some(p);
    }
    ask(alloc, look, query, stop, &mut walk, steps)?;
    Ok(walk.found)
}

// The same among those that the constraint begins from.
fn found_among<K: Look, L: Ledger>(
    alloc: Global,
    look: &K,
    query: &Query,
    stop: Option<u32>,
    refs: RefList,
    steps: &mut Steps<L>,
) -> Result<RefList, NoMemory>
    requires { Some refs ≡ held_at (K.facts look.now) (K.accepts look.now) query.now.at (view query.now.constraint) }
    ensures all { IfOk result (λ refs. refs ≡ up_to stop (found (K.facts look.now) (K.accepts look.now) query.now)) }
    ensures ticks { is_plain (view query.now.constraint) ≡ true → steps.new ≡ steps.old }
{
    if is_plain(&query.constraint) {
        return cut(alloc, refs, stop);
    }
    asked_among(alloc, look, query, stop, refs.as_slice(), steps)
}

// Those of the refs that the query asks for, the first ones where so many are enough.
fn asked_among<K: Look, L: Ledger>(
    alloc: Global,
    look: &K,
    query: &Query,
    stop: Option<u32>,
    refs: &[Ref],
    steps: &mut Steps<L>,
) -> Result<RefList, NoMemory>
    ensures { IfOk result (λ found. found
        ≡ up_to stop (filter (is_found (K.facts look.now) (K.accepts look.now) query.now) refs.now)) }
{
    let mut walk = start(alloc, stop);
    for p in refs {
        come_to(alloc, look, query, stop, &mut walk, *p, steps)?;
        if is_full(stop, &walk.found) {
            return Ok(walk.found);
        }
    }
    ask(alloc, look, query, stop, &mut walk, steps)?;
    Ok(walk.found)
}

// The refs, or the first ones where so many are enough.
fn cut(alloc: Global, refs: RefList, stop: Option<u32>) -> Result<RefList, NoMemory>
    ensures { IfOk result (λ cut. cut ≡ up_to stop refs) }
{
    match stop {
        None => Ok(refs),
        Some(limit) => cut_at(alloc, refs, limit as usize),
    }
}

fn cut_at(alloc: Global, refs: RefList, limit: usize) -> Result<RefList, NoMemory>
    ensures { IfOk result (λ cut. cut ≡ take limit refs) }
{
    if refs.len() <= limit {
        Ok(refs)
    } else {
        copied(alloc, &refs.as_slice()[..limit])
    }
}

fn copied(alloc: Global, refs: &[Ref]) -> Result<RefList, NoMemory>
    ensures { IfOk result (λ copy. copy ≡ refs.now) }
{
    let mut copy = RefList::empty(alloc);
    for r in refs {
        copy.push(*r)?;
    }
    Ok(copy)
}

// Whether as many refs were found as are enough.
fn is_full(stop: Option<u32>, found: &RefList) -> bool
    ensures { result ≡ has_enough stop found.now }
{
    match stop {
        None => false,
        Some(limit) => found.len() == limit as usize,
    }
}

// Takes a permanode in, and asks those that were taken in once there are enough of them.
fn come_to<K: Look, L: Ledger>(
    alloc: Global,
    look: &K,
    query: &Query,
    stop: Option<u32>,
    walk: &mut Walk,
    p: Ref,
    steps: &mut Steps<L>,
) -> Result<(), NoMemory>
    requires { up_to stop walk.old.found ≡ walk.old.found }
    ensures short { OnOk result (up_to stop walk.new.found ≡ walk.new.found) }
    ensures all { OnOk result ((rest : List (List ℕ)) → up_to stop (walk.new.found
        ++ filter (is_found (K.facts look.now) (K.accepts look.now) query.now) (walk.new.asked.items ++ rest))
        ≡ up_to stop (walk.old.found
        ++ filter (is_found (K.facts look.now) (K.accepts look.now) query.now) (walk.old.asked.items ++ p ∷ rest))) }
{
    walk.asked.push(p)?;
    if walk.asked.len() < walk.size {
        return Ok(());
    }
    walk.size = walk.size.saturating_mul(2);
    ask(alloc, look, query, stop, walk, steps)
}

// Asks the permanodes that were taken in.
fn ask<K: Look, L: Ledger>(
    alloc: Global,
    look: &K,
    query: &Query,
    stop: Option<u32>,
    walk: &mut Walk,
    steps: &mut Steps<L>,
) -> Result<(), NoMemory>
    requires { up_to stop walk.old.found ≡ walk.old.found }
    ensures short { OnOk result (up_to stop walk.new.found ≡ walk.new.found) }
    ensures found { OnOk result (walk.new.found ≡ up_to stop (walk.old.found
        ++ filter (is_found (K.facts look.now) (K.accepts look.now) query.now) walk.old.asked.items)) }
    ensures asked { OnOk result (walk.new.asked.items ≡ []) }
{
    let met = met(
        alloc,
        look,
        &query.constraint,
        &query.at,
        &walk.asked,
        steps,
    )?;
    keep_live(look, &query.at, stop, &mut walk.found, &met, steps)?;
    walk.asked.clear();
    Ok(())
}

// Keeps those that aren't deleted, as long as there aren't enough.
fn keep_live<K: Look, L: Ledger>(
    look: &K,
    when: &When,
    stop: Option<u32>,
    kept: &mut RefList,
    refs: &[Ref],
    steps: &mut Steps<L>,
) -> Result<(), NoMemory>
    requires { up_to stop kept.old ≡ kept.old }
    ensures { OnOk result (kept.new ≡ up_to stop (kept.old
        ++ filter (λ r. not (is_deleted (K.facts look.now) (K.accepts look.now) when.now r)) refs.now)) }
{
    for r in refs {
        keep_if_live(look, when, stop, kept, r, steps)?;
    }
    Ok(())
}

fn keep_if_live<K: Look, L: Ledger>(
    look: &K,
    when: &When,
    stop: Option<u32>,
    kept: &mut RefList,
    r: &Ref,
    steps: &mut Steps<L>,
) -> Result<(), NoMemory>
    requires { up_to stop kept.old ≡ kept.old }
    ensures { OnOk result (kept.new ≡ up_to stop (kept.old
        ++ filter (λ r. not (is_deleted (K.facts look.now) (K.accepts look.now) when.now r)) (r.now ∷ []))) }
{
    if !is_full(stop, kept) && !look.deleted(r, when, steps) {
        kept.push(*r)?;
    }
    Ok(())
}
