//! A shared index of a generated store (`docs/formats/generated.md`), which is searched by its rows.
ghost use Rattle.std.specs.Prelude.{◌≡◌, ◌≤◌, ◌<◌, ◌+◌, codes, true, IfOk};
ghost use Rattle.schema_date.specs.declared.date.When.TheVariants.{Always};
ghost use Rattle.search_query.specs.Queries.{value_query};
ghost use Rattle.snap_index.specs.SnapSeats.{IsOfSnap};

use crate::seats::taken;
use blobref::{NoMemory, Ref};
use claim_verify::{KeyName, Keyring, Verifier};
use edge_base::Steps;
use home_places::IndexPlace;
use schema_date::When;
use schema_json::fact;
use schema_write::load_blobs;
use search_query::Query;
use snap_index::{SnapIndex, SnapSeat};
use std::alloc::Global;
use std::marker::Brand;
use std::sync::Wait;
use std::sync::ledger::{Blank, Ledger};

// How many blobs the store has.
const COUNT: u64 = 1_000;

// The one key that its claims are signed with.
fn keyring(alloc: Global) -> Keyring {
    let mut keys = Keyring::empty(alloc);
    if let Some(name) = KeyName::read(b"load") {
        let _ = keys.add(&name, b"load");
    }
    keys
}

// Inserts the blobs one by one.
fn insert_all<V: Verifier + Drop, H: Wait + Drop, R: Wait>(
    rt: &R,
    alloc: Global,
    index: &SnapIndex<V, H>,
    seat: &mut SnapSeat<V, H>,
) -> Result<(), NoMemory>
    requires { IsOfSnap index.now seat.old }
    ensures { IsOfSnap index.now seat.new }
{
    let blobs = load_blobs(alloc, COUNT, 7)?;
    'blobs: for number in 0..blobs.len() {
        let blob = blobs.at(number).as_slice();
        let said = fact(alloc, blob)?;
        index.insert(rt, seat, number as u64, &Ref::of(blob), said)?;
    }
    Ok(())
}

// Whether nothing is found, and that by the rows. It then takes at most 8 steps.
fn goes_by_rows<V: Verifier + Drop, H: Wait + Drop, L: Ledger>(
    index: &SnapIndex<V, H>,
    seat: &mut SnapSeat<V, H>,
    query: &Query,
    steps: &mut Steps<L>,
) -> Result<bool, NoMemory>
    requires own { IsOfSnap index.now seat.old }
    requires asked { query.now ≡ value_query (codes "tag") (codes "zz") Always }
    ensures own { IsOfSnap index.now seat.new }
    ensures few { IfOk result (λ few. few ≡ true → steps.new ≤ steps.old + 8) }
{
    let refs = index.search_counted(seat, query, steps)?;
    if index.stale(seat) {
        return Ok(false);
    }
    Ok(refs.len() == 0)
}

// The same for a value that nothing holds, with the steps counted in the blank ledger.
fn finds_none<V: Verifier + Drop, H: Wait + Drop, L: Ledger>(
    alloc: Global,
    index: &SnapIndex<V, H>,
    seat: &mut SnapSeat<V, H>,
    blank: Blank,
) -> Result<bool, NoMemory>
    requires own { IsOfSnap index.now seat.old }
    requires name { blank.name ≡ L.name }
    requires parts { blank.parts ≡ L.parts }
    requires some { 0 < blank.parts }
{
    let query = Query::for_value(alloc, "tag", "zz", When::Always)?;
    let mut steps = Steps::<L>::start(blank);
    goes_by_rows(index, seat, &query, &mut steps)
}

fn uses_rows<V: Verifier + Copy + Drop, H: Wait + Drop, R: Wait>(
    rt: &R,
    handle: H,
    alloc: Global,
    keys: V,
) -> Result<bool, NoMemory> {
    let (index, mut seats) = SnapIndex::make(handle, alloc, keys, 1)?;
    let Some(mut seat) = taken(&index, keys, &mut seats) else {
        return Ok(false);
    };
    insert_all(rt, alloc, &index, &mut seat)?;
    Ok(
        index.seen(&seat) == COUNT
            && finds_none::<_, _, Brand>(alloc, &index, &mut seat, Blank::new(1))?,
    )
}

#[test]
fn rows_in_use(rt: HostRuntime) -> Result<(), NoMemory> {
    let keys = keyring(rt.alloc());
    assert!(rt; uses_rows(&rt, &rt, rt.alloc(), &keys)?);
    Ok(())
}
