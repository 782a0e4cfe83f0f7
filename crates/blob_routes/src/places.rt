//! The refs that a text asks for by number: `blob1`, `blob2` and so on.
ghost use Rattle.std.specs.Prelude.{◌≡◌, ◌<◌, ◌^◌, IfOk, OnOk, Some, fold};
ghost use Rattle.form_urlencoded.specs.Form.{raw_pairs};
ghost use Rattle.http_exchange.specs.Parameters.{decoded_text};
ghost use Rattle.blob_routes.specs.Places.{place_of, places_of};
ghost use Rattle.blob_routes.specs.Taking.{number_of, earlier, kept, taken};

use crate::numbers::number_in;
use blobref::{NoMemory, Ref};
use form_urlencoded::raw_pairs;
use http_exchange::decoded_text;
use itoa::Buffer;
use std::alloc::Global;

/// What is asked under a number.
#[derive(Clone, Copy)]
pub enum AskedRef {
    /// Nothing.
    Missing,
    /// A text that is no blobref.
    Wrong,
    /// A ref.
    Right(Ref),
}

// The number of a name that asks for a ref.
fn number_of(name: &str) -> Option<usize>
    ensures { result ≡ number_of name.now }
{
    let digits = name.strip_prefix("blob")?;
    let number = number_in(digits)?;
    if Buffer::new().format(number) != digits {
        return None;
    }
    Some(number as usize)
}

// What a value asks.
fn place_in(alloc: Global, value: &[u8]) -> Result<AskedRef, NoMemory>
    ensures { IfOk result (λ place. place ≡ place_of (Some (decoded_text value.now))) }
{
    let text = decoded_text(alloc, value)?;
    match Ref::read(text.as_bytes()) {
        None => Ok(AskedRef::Wrong),
        Some(r) => Ok(AskedRef::Right(r)),
    }
}

// The one that comes first.
fn earlier(first: AskedRef, later: AskedRef) -> AskedRef
    ensures { result ≡ earlier first later }
{
    match first {
        AskedRef::Missing => later,
        AskedRef::Wrong | AskedRef::Right(_) => first,
    }
}

// Keeps what is asked under a number, where nothing was before.
fn keep(places: &mut [AskedRef], number: usize, place: AskedRef)
    ensures { places.new ≡ kept places.old number place }
{
    if number == 0 || number > places.len() {
        return;
    }
    places[number - 1] = earlier(places[number - 1], place);
}

// Keeps what one parameter asks.
fn take(alloc: Global, places: &mut [AskedRef], name: &[u8], value: &[u8]) -> Result<(), NoMemory>
    ensures { OnOk result (places.new ≡ taken places.old (name.now, value.now)) }
{
    let name = decoded_text(alloc, name)?;
    let Some(number) = number_of(name.as_str()) else {
        return Ok(());
    };
    keep(places, number, place_in(alloc, value)?);
    Ok(())
}

// Keeps what each parameter asks.
fn take_all(alloc: Global, places: &mut [AskedRef], text: &[u8]) -> Result<(), NoMemory>
    ensures { OnOk result (places.new ≡ fold taken places.old (raw_pairs text.now)) }
{
    for pair in raw_pairs(text) {
        take(alloc, places, pair.0, pair.1)?;
    }
    Ok(())
}

/// What a text asks under the numbers from 1 to this one. Each parameter is looked at once.
pub fn places_of(alloc: Global, text: &[u8], most: usize) -> Result<Vec<AskedRef>, NoMemory>
    requires { most < 10 ^ 9 }
    ensures { IfOk result (λ places. places.items ≡ places_of most (raw_pairs text.now)) }
{
    let mut places = vec![in alloc; AskedRef::Missing; most]?;
    take_all(alloc, &mut places, text)?;
    Ok(places)
}
