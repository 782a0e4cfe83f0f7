//! Which refs are asked after.
ghost use Rattle.std.specs.Prelude.{◌≡◌, ◌++◌, IfOk, IfErr, OnOk, Ok, option_map};
ghost use Rattle.std.specs.Cow.{cow_str_bytes};
ghost use Rattle.std.specs.List.{before_first, position, list_any, flat_map};
ghost use Rattle.form_urlencoded.specs.Form.{raw_pairs};
ghost use Rattle.blob_routes.specs.Faults.{Refuses};
ghost use Rattle.blob_routes.specs.Stats.{is_missing, is_wrong, right_ref, refs_at, is_version, refs_of};
ghost use Rattle.blob_routes.specs.Stats.{parameters_text};

use crate::faults::AskFault;
use crate::places::{AskedRef, places_of};
use answer_text::Refusal;
use blobref::{NoMemory, RefList};
use http_exchange::first_value;
use std::alloc::Global;
use std::borrow::CowStr;

/// The most refs that may be asked after at once.
pub const MAX_REFS: usize = 1000;

fn is_missing(place: &AskedRef) -> bool
    ensures { result ≡ is_missing place.now }
{
    matches!(place, AskedRef::Missing)
}

// Where the first place that is missing stands.
fn missing_at(places: &[AskedRef]) -> Option<usize>
    ensures { result ≡ position is_missing places.now }
{
    places.iter().position(|place| is_missing(place))
}

// The places before it, or all.
fn before_missing(places: &[AskedRef]) -> &[AskedRef]
    ensures { result.now ≡ before_first is_missing places.now }
{
    match missing_at(places) {
        Some(n) => &places[..n],
        None => places,
    }
}

fn is_wrong(place: &AskedRef) -> bool
    ensures { result ≡ is_wrong place.now }
{
    matches!(place, AskedRef::Wrong)
}

fn some_wrong(places: &[AskedRef]) -> bool
    ensures { result ≡ list_any is_wrong places.now }
{
    places.iter().any(|place| is_wrong(place))
}

fn push(refs: &mut RefList, place: &AskedRef) -> Result<(), NoMemory>
    ensures { OnOk result (refs.new ≡ refs.old ++ right_ref place.now) }
{
    match place {
        AskedRef::Missing | AskedRef::Wrong => Ok(()),
        AskedRef::Right(r) => refs.push(*r),
    }
}

fn all_refs(alloc: Global, places: &[AskedRef]) -> Result<RefList, NoMemory>
    ensures { IfOk result (λ refs. refs ≡ flat_map right_ref places.now) }
{
    let mut refs = RefList::empty(alloc);
    for place in places {
        push(&mut refs, place)?;
    }
    Ok(refs)
}

fn refs_at(alloc: Global, places: &[AskedRef], most: usize) -> Result<RefList, AskFault>
    ensures ok { IfOk result (λ refs. refs_at most places.now ≡ Ok refs) }
    ensures err { IfErr result (Refuses (refs_at most places.now)) }
{
    if places.len() > most {
        let limit = most as u64;
        return Err(AskFault::Refused(Refusal::TooLong { limit }));
    }
    if some_wrong(places) {
        return Err(AskFault::Refused(Refusal::BadRef));
    }
    Ok(all_refs(alloc, places)?)
}

fn is_version(found: Option<CowStr<'_>>) -> bool
    ensures { result ≡ is_version (option_map cow_str_bytes found.entry) }
{
    match found {
        Some(text) => text.as_bytes() == b"1".as_slice(),
        None => false,
    }
}

// The text that has the parameters.
fn parameters_text<'a>(posted: bool, query: &'a [u8], body: &'a [u8]) -> &'a [u8]
    ensures { result.now ≡ parameters_text posted query.now body.now }
{
    if posted { body } else { query }
}

/// The refs that a request asks after (`docs/http.md`, "Routes"), in the order of their numbers. The error is
/// `NoMemory`, or the refusal. Each parameter is looked at twice, however many refs are asked.
#[tactic(auto, unfolding(crate::specs::Stats::refs_of))]
pub fn refs_asked(
    alloc: Global,
    posted: bool,
    query: &[u8],
    body: &[u8],
) -> Result<RefList, AskFault>
    ensures ok { IfOk result (λ refs. refs_of posted query.now body.now ≡ Ok refs) }
    ensures err { IfErr result (Refuses (refs_of posted query.now body.now)) }
{
    let text = parameters_text(posted, query, body);
    if !is_version(first_value(alloc, text, b"camliversion")?) {
        return Err(AskFault::Refused(Refusal::BadVersion));
    }
    let places = places_of(alloc, text, MAX_REFS + 1)?;
    refs_at(alloc, before_missing(&places), MAX_REFS)
}
