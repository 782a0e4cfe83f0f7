//! An index that may become stale, and what it answers.
ghost use Rattle.std.specs.Prelude.{◌≡◌, true, not, IfOk, OnOk};
ghost use Rattle.std.specs.List.{list_all};
ghost use Rattle.std.specs.Str.{bytes_eq};
ghost use Rattle.claim_model.specs.Facts.{AreDistinct, AreValid};

use crate::answering::print_answer;
use crate::world::blob_at;
use crate::{Fault, input, print};
use blobref::{NoMemory, Ref};
use claim_index::{Index, Made};
use claim_verify::Keyring;
use edge_base::Steps;
use plain_index::{FactList, PlainIndex};
use salvage_scan::{Found, scan};
use schema_fact::Fact;
use schema_json::fact;
use std::alloc::Global;
use std::io::Read;
use std::mem::forget;
use std::sync::ledger::Ledger;

// So many blobs, the last ones, are placed once the test says so.
const LATE: usize = 2;

// More facts than that aren't placed.
const MAX_NUMBER: u64 = 1 << 32;

/// Places the blobs of a pack in an index, one by one, the last two of them each once a byte came on standard input;
/// then it answers the queries on the lines that follow there, and so does an index that keeps nothing but facts.
pub(crate) fn tell_placed<L: Ledger>(
    rt: &HostRuntime,
    index: &mut Index<&Keyring>,
    pack: &[u8],
    keys: &Keyring,
    steps: &mut Steps<L>,
) -> Result<(), Fault> {
    let (found, _) = scan(rt.alloc(), pack)?;
    let plain = plain_index(rt.alloc(), pack, found.as_slice(), keys)?;
    let told = tell_beside(rt, index, &plain, pack, found.as_slice(), steps);
    forget(plain);
    told
}

fn tell_beside<L: Ledger>(
    rt: &HostRuntime,
    index: &mut Index<&Keyring>,
    plain: &PlainIndex<&Keyring>,
    pack: &[u8],
    found: &[Found],
    steps: &mut Steps<L>,
) -> Result<(), Fault> {
    let (before, late) = found.split_at(found.len().saturating_sub(LATE));
    for place in before {
        place_now(rt.alloc(), index, pack, place, steps)?;
    }
    for place in late {
        place_late(rt, index, pack, place, steps)?;
    }
    answer_all(rt, index, plain)
}

// Places a blob, unless one stands under its ref.
fn place_now<L: Ledger>(
    alloc: Global,
    index: &mut Index<&Keyring>,
    pack: &[u8],
    place: &Found,
    steps: &mut Steps<L>,
) -> Result<(), NoMemory> {
    let number = index.len();
    if !index.stands(&place.r, steps) && number < MAX_NUMBER {
        let said = fact(alloc, blob_at(pack, place))?;
        let made = Made::make(alloc, number, &place.r, said)?;
        index.place(made, steps);
    }
    Ok(())
}

// Places a blob that has brought its memory, once a byte came, and tells whether the index is stale then.
fn place_late<L: Ledger>(
    rt: &HostRuntime,
    index: &mut Index<&Keyring>,
    pack: &[u8],
    place: &Found,
    steps: &mut Steps<L>,
) -> Result<(), Fault> {
    let number = index.len();
    if index.stands(&place.r, steps) || number >= MAX_NUMBER {
        return Err(Fault::Words);
    }
    let said = fact(rt.alloc(), blob_at(pack, place))?;
    let made = Made::make(rt.alloc(), number, &place.r, said)?;
    let awaited = await_byte(rt);
    index.place(made, steps);
    awaited?;
    print_state(rt, index)
}

// Says that the next blob is placed, and waits for a byte.
fn await_byte(rt: &HostRuntime) -> Result<(), Fault> {
    print(rt, b"placed\n")?;
    let mut byte = [0u8; 1];
    rt.stdin().read(&mut byte).map_err(|_| Fault::Read)?;
    Ok(())
}

fn print_state(rt: &HostRuntime, index: &Index<&Keyring>) -> Result<(), Fault> {
    if index.stale() {
        print(rt, b"stale\n")
    } else {
        print(rt, b"quick\n")
    }
}

// Answers the queries that standard input still has, each by both indexes.
fn answer_all(
    rt: &HostRuntime,
    index: &Index<&Keyring>,
    plain: &PlainIndex<&Keyring>,
) -> Result<(), Fault> {
    let queries = input(rt)?;
    for query in queries.as_slice().split(|byte| *byte == b'\n') {
        if !query.is_empty() {
            print_answer(rt, index, query)?;
            print_answer(rt, plain, query)?;
        }
    }
    Ok(())
}

// An index that keeps nothing but the facts of the blobs of a pack, none of which it has twice.
fn plain_index<'a>(
    alloc: Global,
    pack: &[u8],
    found: &[Found],
    keys: &'a Keyring,
) -> Result<PlainIndex<&'a Keyring>, Fault> {
    let facts = facts_of(alloc, pack, found)?;
    if !are_distinct(facts.as_slice()) {
        forget(facts);
        return Err(Fault::Words);
    }
    Ok(PlainIndex::build(alloc, facts, keys)?)
}

fn facts_of(alloc: Global, pack: &[u8], found: &[Found]) -> Result<FactList, NoMemory>
    ensures { IfOk result AreValid }
{
    let mut facts = FactList::empty(alloc);
    for place in found {
        add_fact(alloc, &mut facts, place.r, blob_at(pack, place))?;
    }
    Ok(facts)
}

fn add_fact(alloc: Global, facts: &mut FactList, r: Ref, blob: &[u8]) -> Result<(), NoMemory>
    ensures { OnOk result (AreValid facts.old → AreValid facts.new) }
{
    let said = fact(alloc, blob)?;
    facts.push((r, said))?;
    Ok(())
}

fn are_distinct(facts: &[(Ref, Fact)]) -> bool
    ensures { result ≡ true → AreDistinct facts.now }
{
    match facts.split_first() {
        None => true,
        Some((first, rest)) => all_apart(&first.0, rest) && are_distinct(rest),
    }
}

fn all_apart(r: &Ref, facts: &[(Ref, Fact)]) -> bool
    ensures { result ≡ list_all (λ e. not (bytes_eq r.now e.0)) facts.now }
{
    facts.iter().all(|entry| *r != entry.0)
}
