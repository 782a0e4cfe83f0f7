//! Indexes over the blobs of a pack.
ghost use Rattle.std.specs.Prelude.{◌≡◌, ◌<◌, IfOk, OnOk};
ghost use Rattle.claim_model.specs.Facts.{AreValid};

use blobref::{NoMemory, Ref, Text};
use claim_index::{FactList, Index, Made};
use claim_verify::Keyring;
use edge_base::Steps;
use index_look::Look;
use salvage_scan::{Found, scan};
use schema_date::When;
use schema_json::fact;
use std::alloc::Global;
use std::marker::Brand;
use std::sync::ledger::{Blank, Ledger};

/// How the blobs of a pack come to an index: one by one in the order of the pack, or with the last one first, or in the
/// order of the pack with each bringing its memory, or all at once.
#[derive(Clone, Copy)]
pub enum Arrival {
    InOrder,
    Backwards,
    Placed,
    AtOnce,
}

/// What an index is asked: by these keys, who holds the value of the attribute? And what values did each permanode have
/// at a time?
#[derive(Drop)]
pub struct Question {
    pub keys: Keyring,
    pub attr: Text,
    pub value: Text,
    pub when: When,
}

// How many blobs the pack has, and how many bytes they say that they have.
pub(crate) fn facts_line(alloc: Global, pack: &[u8]) -> Result<String, NoMemory> {
    let (found, _) = scan(alloc, pack)?;
    let mut bytes: u64 = 0;
    for place in found.as_slice() {
        bytes = bytes.wrapping_add(fact(alloc, blob_at(pack, place))?.size);
    }
    Ok(format!(in alloc; "{} {}", found.len(), bytes)?)
}

// How many blobs the index has, and how many permanodes hold what is asked for.
pub(crate) fn index_line(
    alloc: Global,
    pack: &[u8],
    arrival: &Arrival,
    question: &Question,
) -> Result<String, NoMemory> {
    let (blobs, holders) = counts::<Brand>(alloc, pack, arrival, question, Blank::new(1))?;
    Ok(format!(in alloc; "{} {}", blobs, holders)?)
}

fn counts<L: Ledger>(
    alloc: Global,
    pack: &[u8],
    arrival: &Arrival,
    question: &Question,
    blank: Blank,
) -> Result<(u64, usize), NoMemory>
    requires name { blank.name ≡ L.name }
    requires parts { blank.parts ≡ L.parts }
    requires some { 0 < blank.parts }
{
    let mut steps = Steps::<L>::start(blank);
    let index = indexed(alloc, pack, arrival, &question.keys, &mut steps)?;
    told(&index, question, &mut steps)
}

fn told<L: Ledger>(
    index: &Index<&Keyring>,
    question: &Question,
    steps: &mut Steps<L>,
) -> Result<(u64, usize), NoMemory> {
    let holders = index.holders(question.attr.as_str(), question.value.as_str(), steps)?;
    Ok((index.len(), holders.len()))
}

// An index of the blobs of a pack.
fn indexed<'a, L: Ledger>(
    alloc: Global,
    pack: &[u8],
    arrival: &Arrival,
    keys: &'a Keyring,
    steps: &mut Steps<L>,
) -> Result<Index<&'a Keyring>, NoMemory> {
    let (found, _) = scan(alloc, pack)?;
    index_of(alloc, pack, found.as_slice(), arrival, keys, steps)
}

pub(crate) fn index_of<'a, L: Ledger>(
    alloc: Global,
    pack: &[u8],
    found: &[Found],
    arrival: &Arrival,
    keys: &'a Keyring,
    steps: &mut Steps<L>,
) -> Result<Index<&'a Keyring>, NoMemory> {
    match arrival {
        Arrival::InOrder => inserted(alloc, pack, found, false, keys, steps),
        Arrival::Backwards => inserted(alloc, pack, found, true, keys, steps),
        Arrival::Placed => placed(alloc, pack, found, keys, steps),
        Arrival::AtOnce => filled(alloc, pack, found, keys, steps),
    }
}

// An index that takes the blobs one by one.
fn inserted<'a, L: Ledger>(
    alloc: Global,
    pack: &[u8],
    found: &[Found],
    backwards: bool,
    keys: &'a Keyring,
    steps: &mut Steps<L>,
) -> Result<Index<&'a Keyring>, NoMemory> {
    let mut index = Index::fresh(alloc, keys);
    for number in 0..found.len() {
        let at = if backwards {
            found.len() - 1 - number
        } else {
            number
        };
        insert(alloc, &mut index, number, pack, &found[at], steps)?;
    }
    Ok(index)
}

// Inserts a blob, unless one stands under its ref.
fn insert<L: Ledger>(
    alloc: Global,
    index: &mut Index<&Keyring>,
    number: usize,
    pack: &[u8],
    place: &Found,
    steps: &mut Steps<L>,
) -> Result<(), NoMemory> {
    if !index.stands(&place.r, steps) {
        let said = fact(alloc, blob_at(pack, place))?;
        index.insert(number as u64, &place.r, said, steps)?;
    }
    Ok(())
}

// An index in which the blobs are placed one by one.
fn placed<'a, L: Ledger>(
    alloc: Global,
    pack: &[u8],
    found: &[Found],
    keys: &'a Keyring,
    steps: &mut Steps<L>,
) -> Result<Index<&'a Keyring>, NoMemory> {
    let mut index = Index::fresh(alloc, keys);
    for number in 0..found.len() {
        place(alloc, &mut index, number, pack, &found[number], steps)?;
    }
    Ok(index)
}

// Places a blob, unless one stands under its ref.
fn place<L: Ledger>(
    alloc: Global,
    index: &mut Index<&Keyring>,
    number: usize,
    pack: &[u8],
    place: &Found,
    steps: &mut Steps<L>,
) -> Result<(), NoMemory> {
    if !index.stands(&place.r, steps) && index.len() < i64::MAX as u64 {
        let said = fact(alloc, blob_at(pack, place))?;
        let made = Made::make(alloc, number as u64, &place.r, said)?;
        index.place(made, steps);
    }
    Ok(())
}

// An index that takes all blobs at once.
fn filled<'a, L: Ledger>(
    alloc: Global,
    pack: &[u8],
    found: &[Found],
    keys: &'a Keyring,
    steps: &mut Steps<L>,
) -> Result<Index<&'a Keyring>, NoMemory> {
    let facts = facts_of(alloc, pack, found)?;
    Index::of(alloc, facts, keys, steps)
}

fn facts_of(alloc: Global, pack: &[u8], found: &[Found]) -> Result<FactList, NoMemory>
    ensures { IfOk result AreValid }
{
    let mut facts = FactList::empty(alloc);
    for place in found {
        add_fact(alloc, &mut facts, place.r, blob_at(pack, place))?;
    }
    Ok(facts)
}

fn add_fact(alloc: Global, facts: &mut FactList, r: Ref, blob: &[u8]) -> Result<(), NoMemory>
    ensures { OnOk result (AreValid facts.old → AreValid facts.new) }
{
    let said = fact(alloc, blob)?;
    facts.push((r, said))?;
    Ok(())
}

// The bytes of a blob. A place that isn't in the pack, which no scan gives, has none.
pub(crate) fn blob_at<'a>(pack: &'a [u8], place: &Found) -> &'a [u8] {
    let start = place.at as usize;
    let size = place.size as usize;
    if start <= pack.len() && size <= pack.len() - start {
        &pack[start..start + size]
    } else {
        &[]
    }
}
