//! What indexes tell of blobs that come in given orders.
ghost use Rattle.std.specs.Prelude.{◌≡◌, ◌<◌};

use crate::indexing::{Arrival, Question, index_of};
use blobref::{NoMemory, Ref, Text};
use claim_index::Index;
use claim_verify::Keyring;
use edge_base::Steps;
use index_look::Look;
use salvage_scan::{Found, scan};
use std::alloc::Global;
use std::marker::Brand;
use std::sync::ledger::{Blank, Ledger};

// For each order three lines: what an index tells that takes the blobs one by one, what one tells in which each is
// placed, and what one tells that takes them all at once. An order names blobs of the pack by letters, the first one by
// `a`.
pub(crate) fn order_lines(
    alloc: Global,
    pack: &[u8],
    orders: &[Text],
    question: &Question,
) -> Result<Vec<u8>, NoMemory> {
    let (found, _) = scan(alloc, pack)?;
    let found = found.as_slice();
    let mut lines = Vec::new(alloc);
    for order in orders {
        let came = named(alloc, found, order.as_str())?;
        push_lines::<Brand>(
            alloc,
            pack,
            found,
            &came,
            question,
            Blank::new(1),
            &mut lines,
        )?;
    }
    Ok(lines)
}

// The blobs that letters name.
fn named(alloc: Global, found: &[Found], letters: &str) -> Result<Vec<Found>, NoMemory> {
    let mut named = Vec::new(alloc);
    for letter in letters.as_bytes() {
        if let Some(place) = found.get(usize::from(letter.wrapping_sub(b'a'))) {
            named.push(*place)?;
        }
    }
    Ok(named)
}

fn push_lines<L: Ledger>(
    alloc: Global,
    pack: &[u8],
    found: &[Found],
    came: &[Found],
    question: &Question,
    blank: Blank,
    lines: &mut Vec<u8>,
) -> Result<(), NoMemory>
    requires name { blank.name ≡ L.name }
    requires parts { blank.parts ≡ L.parts }
    requires some { 0 < blank.parts }
{
    let mut steps = Steps::<L>::start(blank);
    for arrival in [Arrival::InOrder, Arrival::Placed, Arrival::AtOnce] {
        let index = index_of(alloc, pack, came, &arrival, &question.keys, &mut steps)?;
        push_told(&index, found, question, &mut steps, lines)?;
        lines.push(b'\n')?;
    }
    Ok(())
}

// What an index tells: that it is stale, where it is; its first permanode, each of the pack with its values, and who
// holds the value.
fn push_told<L: Ledger>(
    index: &Index<&Keyring>,
    found: &[Found],
    question: &Question,
    steps: &mut Steps<L>,
    line: &mut Vec<u8>,
) -> Result<(), NoMemory> {
    if index.stale() {
        line.extend_from_slice(b" stale")?;
    }
    if let Some(r) = index.permanode_after(None, steps) {
        push_words(line, b" first ", r.spell().as_slice())?;
    }
    for place in found {
        push_permanode(index, &place.r, question, steps, line)?;
    }
    push_holders(index, question, steps, line)
}

fn push_permanode<L: Ledger>(
    index: &Index<&Keyring>,
    r: &Ref,
    question: &Question,
    steps: &mut Steps<L>,
    line: &mut Vec<u8>,
) -> Result<(), NoMemory> {
    if !index.is_permanode(r, steps) {
        return Ok(());
    }
    push_words(line, b" permanode ", r.spell().as_slice())?;
    let values = index.values(r, question.attr.as_str(), &question.when, steps)?;
    for value in values.as_slice() {
        push_words(line, b" value ", value.as_str().as_bytes())?;
    }
    Ok(())
}

fn push_holders<L: Ledger>(
    index: &Index<&Keyring>,
    question: &Question,
    steps: &mut Steps<L>,
    line: &mut Vec<u8>,
) -> Result<(), NoMemory> {
    let holders = index.holders(question.attr.as_str(), question.value.as_str(), steps)?;
    for r in holders.as_slice() {
        push_words(line, b" holder ", r.spell().as_slice())?;
    }
    Ok(())
}

fn push_words(line: &mut Vec<u8>, word: &[u8], text: &[u8]) -> Result<(), NoMemory> {
    line.extend_from_slice(word)?;
    line.extend_from_slice(text)?;
    Ok(())
}
