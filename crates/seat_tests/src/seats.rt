//! Indexes that stand twice, which two seats share.
ghost use Rattle.std.specs.Prelude.{All, IfSome};
ghost use Rattle.snap_index.specs.Making.{IsFresh};
ghost use Rattle.snap_index.specs.SnapSeats.{IsOfSnap};

use crate::facts::{is_new, plain};
use blobref::{NoMemory, Ref};
use claim_verify::{Keyring, Verifier};
use home_places::IndexPlace;
use schema_date::When;
use search_query::Query;
use snap_index::{SnapIndex, SnapSeat};
use std::alloc::Global;
use std::sync::Wait;

/// One of the seats with which a place was made.
pub(crate) fn taken<V: Verifier + Copy + Drop, H: Wait + Drop>(
    index: &SnapIndex<V, H>,
    keys: V,
    seats: &mut Vec<SnapSeat<V, H>>,
) -> Option<SnapSeat<V, H>>
    requires { All (IsFresh V.accepts index.now keys) seats.old.items }
    ensures rest { All (IsFresh V.accepts index.now keys) seats.new.items }
    ensures own { IfSome result (λ seat. IsOfSnap index.now seat) }
{
    seats.pop()
}

// Whether a place of two seats has two of them, and then none.
fn has_two_seats<V: Verifier + Copy + Drop, H: Wait + Drop>(
    handle: H,
    alloc: Global,
    keys: V,
) -> Result<bool, NoMemory> {
    let (_index, mut seats) = SnapIndex::make(handle, alloc, keys, 2)?;
    let are_two = seats.pop().is_some() && seats.pop().is_some();
    Ok(are_two && seats.pop().is_none())
}

// Whether nothing is found for a value.
fn finds_none<V: Verifier + Drop, H: Wait + Drop>(
    alloc: Global,
    index: &SnapIndex<V, H>,
    seat: &mut SnapSeat<V, H>,
) -> Result<bool, NoMemory>
    requires { IsOfSnap index.now seat.old }
    ensures { IsOfSnap index.now seat.new }
{
    let query = Query::for_value(alloc, "tag", "sunset", When::Always)?;
    Ok(index.search(seat, &query)?.len() == 0)
}

// Whether a search shows a seat what another one inserted, and nothing showed it before.
fn shows_what_another_inserted<V: Verifier + Copy + Drop, H: Wait + Drop, R: Wait>(
    rt: &R,
    handle: H,
    alloc: Global,
    keys: V,
) -> Result<bool, NoMemory> {
    let (index, mut seats) = SnapIndex::make(handle, alloc, keys, 2)?;
    let Some(mut one) = taken(&index, keys, &mut seats) else {
        return Ok(false);
    };
    let Some(mut other) = taken(&index, keys, &mut seats) else {
        return Ok(false);
    };
    let inserted = index.insert(rt, &mut one, 0, &Ref::of(b"abc"), plain());
    let before = index.seen(&other);
    let finds_none = finds_none(alloc, &index, &mut other)?;
    Ok(is_new(inserted) && before == 0 && finds_none && index.seen(&other) == 1)
}

#[test]
fn two_seats_and_then_none(rt: HostRuntime) -> Result<(), NoMemory> {
    let keys = Keyring::empty(rt.alloc());
    assert!(rt; has_two_seats(&rt, rt.alloc(), &keys)?);
    Ok(())
}

#[test]
fn a_search_shows_what_another_seat_inserted(rt: HostRuntime) -> Result<(), NoMemory> {
    let keys = Keyring::empty(rt.alloc());
    assert!(rt; shows_what_another_inserted(&rt, &rt, rt.alloc(), &keys)?);
    Ok(())
}
