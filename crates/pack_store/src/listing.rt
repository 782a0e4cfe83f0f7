//! The refs of a store in their order.
ghost use Rattle.std.specs.Prelude.{◌≡◌, ◌<◌, length, IfOk, option_copied};
ghost use Rattle.std.specs.FinMap.{from_entries};
ghost use Rattle.pack_store.specs.Opening.{IsPlaced};
ghost use Rattle.pack_store.specs.Reading.{bound_of, page, page_from, size_at};

use crate::places::Places;
use crate::rows::Row;
use crate::store::Store;
use blobref::{Listing, NoMemory, Ref};
use pack_disk::Disk;
use std::alloc::Global;
use std::collections::BTreeMap;
use std::ops::Bound;

impl<D: Disk> Store<D> {
    /// The refs that are greater than `after`, or all where it is `None`, ascending, the first `limit` of them, each
    /// with the size of its blob in bytes (`docs/store.md`). Where no memory is left nothing has changed.
    pub fn list(&self, after: Option<&Ref>, limit: usize) -> Result<Listing, NoMemory>
        ensures { IfOk result (λ listing. listing ≡ page (option_copied after.entry) limit self.now.rows) }
    {
        self.places
            .list(self.alloc, self.rows.as_slice(), start_of(after), limit)
    }
}

impl Places {
    // The first refs from a start on, with the sizes of their rows.
    fn list(
        &self,
        alloc: Global,
        rows: &[Row],
        start: Bound<Ref>,
        limit: usize,
    ) -> Result<Listing, NoMemory>
        requires { IsPlaced self.now rows.now }
        ensures { IfOk result (λ listing. listing ≡ page_from start limit rows.now) }
    {
        list_numbers(alloc, &self.numbers, rows, start, limit)
    }
}

// What a list begins with.
fn start_of(after: Option<&Ref>) -> Bound<Ref>
    ensures { result ≡ bound_of (option_copied after.entry) }
{
    match after {
        Some(after) => Bound::Excluded(*after),
        None => Bound::Unbounded,
    }
}

// The same by the tree of the numbers.
fn list_numbers(
    alloc: Global,
    numbers: &BTreeMap<Ref, u64>,
    rows: &[Row],
    start: Bound<Ref>,
    limit: usize,
) -> Result<Listing, NoMemory>
    requires { IsPlaced (from_entries numbers.now.entries) rows.now }
    ensures { IfOk result (λ listing. listing ≡ page_from start limit rows.now) }
{
    let mut listing = Listing::empty(alloc);
    for (r, number) in numbers.range((start, Bound::Unbounded)) {
        if listing.len() == limit {
            break;
        }
        listing.push((*r, size_at(rows, *number)))?;
    }
    Ok(listing)
}

// The size of the row of a number.
fn size_at(rows: &[Row], number: u64) -> u64
    requires { number < length rows.now }
    ensures { result ≡ size_at rows.now number }
{
    rows[number as usize].size
}
