//! An index into which blobs are inserted, and what it answers after each.

use crate::answering::print_answer;
use crate::world::blob_at;
use crate::{Fault, input, print};
use blobref::NoMemory;
use claim_index::Index;
use claim_verify::Keyring;
use edge_base::Steps;
use salvage_scan::{Found, scan};
use schema_json::fact;
use std::alloc::Global;
use std::sync::ledger::Ledger;

/// Inserts the blobs of a pack, one by one, and one for which there was no memory once more; and tells after each try
/// what the index answers to the queries, which are the lines of standard input.
pub(crate) fn tell_inserted<L: Ledger>(
    rt: &HostRuntime,
    index: &mut Index<&Keyring>,
    pack: &[u8],
    steps: &mut Steps<L>,
) -> Result<(), Fault> {
    let queries = input(rt)?;
    let (found, _) = scan(rt.alloc(), pack)?;
    for place in found.as_slice() {
        tell_insert(
            rt,
            index,
            blob_at(pack, place),
            place,
            queries.as_slice(),
            steps,
        )?;
    }
    Ok(())
}

fn tell_insert<L: Ledger>(
    rt: &HostRuntime,
    index: &mut Index<&Keyring>,
    blob: &[u8],
    place: &Found,
    queries: &[u8],
    steps: &mut Steps<L>,
) -> Result<(), Fault> {
    if insert(rt.alloc(), index, blob, place, steps).is_err() {
        tell(rt, index, "refused", queries)?;
        insert(rt.alloc(), index, blob, place, steps)?;
    }
    tell(rt, index, "inserted", queries)
}

// Inserts a blob, unless one stands under its ref.
fn insert<L: Ledger>(
    alloc: Global,
    index: &mut Index<&Keyring>,
    blob: &[u8],
    place: &Found,
    steps: &mut Steps<L>,
) -> Result<(), NoMemory> {
    let number = index.len();
    if index.stands(&place.r, steps) {
        return Ok(());
    }
    let said = fact(alloc, blob)?;
    index.insert(number, &place.r, said, steps)?;
    Ok(())
}

// Prints how an insert ended, how many blobs the index has, and what it answers.
fn tell(
    rt: &HostRuntime,
    index: &Index<&Keyring>,
    ending: &str,
    queries: &[u8],
) -> Result<(), Fault> {
    print_count(rt, ending, index.len())?;
    for query in queries.split(|byte| *byte == b'\n') {
        if !query.is_empty() {
            print_answer(rt, index, query)?;
        }
    }
    Ok(())
}

fn print_count(rt: &HostRuntime, ending: &str, count: u64) -> Result<(), Fault> {
    let line = format!(in rt.alloc(); "{} {}\n", ending, count).map_err(NoMemory::from)?;
    print(rt, line.as_bytes())
}
