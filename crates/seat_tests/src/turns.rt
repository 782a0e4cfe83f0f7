//! Indexes behind one lock, which two seats share.
use crate::facts::{is_new, plain};
use blobref::{NoMemory, Ref};
use claim_verify::{Keyring, Verifier};
use schema_date::When;
use search_query::Query;
use std::alloc::Global;
use std::sync::Wait;
use turn_home::TurnIndex;

// Whether a seat that another one joined is shown what that one inserted, and nothing showed it before.
fn shows_what_a_joined_one_inserted<V: Verifier + Drop, R: Wait>(
    rt: &R,
    alloc: Global,
    keys: V,
) -> Result<bool, NoMemory> {
    let query = Query::for_value(alloc, "tag", "sunset", When::Always)?;
    let (index, mut one) = TurnIndex::make(alloc, keys)?;
    let mut other = index.split(&mut one);
    let inserted = index.insert(rt, &mut one, 0, &Ref::of(b"abc"), plain());
    let before = index.seen(&other);
    index.join(&mut other, one);
    let after = index.seen(&other);
    let found = index.search(rt, &mut other, &query)?;
    Ok(is_new(inserted) && before == 0 && after == 1 && found.len() == 0)
}

// Whether a number in hand lacks and isn't taken, and is taken again once it was given back.
fn takes_a_number_once<V: Verifier + Drop, R: Wait>(
    rt: &R,
    alloc: Global,
    keys: V,
) -> Result<bool, NoMemory> {
    let (index, mut seat) = TurnIndex::make(alloc, keys)?;
    let first = index.take(rt, &mut seat, 1)?;
    let meanwhile = index.take(rt, &mut seat, 1)?;
    let lacking = index.lacking(rt, &mut seat, 1);
    index.give_back(rt, &mut seat, 0);
    let again = index.take(rt, &mut seat, 1)?;
    Ok(first == Some(0) && meanwhile.is_none() && lacking == Some(0) && again == Some(0))
}

#[test]
fn a_joined_seat_shows_what_it_inserted(rt: HostRuntime) -> Result<(), NoMemory> {
    let keys = Keyring::empty(rt.alloc());
    assert!(rt; shows_what_a_joined_one_inserted(&rt, rt.alloc(), &keys)?);
    Ok(())
}

#[test]
fn a_number_in_hand_is_not_taken(rt: HostRuntime) -> Result<(), NoMemory> {
    let keys = Keyring::empty(rt.alloc());
    assert!(rt; takes_a_number_once(&rt, rt.alloc(), &keys)?);
    Ok(())
}
