//! Pages of refs.
ghost use Rattle.std.specs.Prelude.{◌≡◌, ◌≤◌, ◌++◌, true, not, T, IfOk, IfSome, OnOk, filter, take_while, length, drop};
ghost use Rattle.std.specs.Prelude.{Some, if◌then◌else◌};
ghost use Rattle.std.specs.FinMap.{is_sorted};
ghost use Rattle.std.specs.List.Sorted.{IsStrictlySortedBy};
ghost use Rattle.blobref.specs.Blobref.{is_blobref, is_after, ref_cmp};
ghost use Rattle.peer_base.specs.Order.{refs_of, last_ref, is_among};
ghost use Rattle.listed_pages.specs.Merging.{is_before, begins_with, unless_first};

use blobref::{NoMemory, Ref};
use std::alloc::Global;

/// How many refs are asked at a time.
pub const PAGE: usize = 1000;

/// The last ref of a page, and `None` where it is empty.
pub fn last_ref(page: &[(Ref, u64)]) -> Option<Ref>
    ensures last { result ≡ last_ref page.now }
    ensures form { IfSome result (λ r. is_blobref r ≡ true) }
{
    let r = page.last()?.0;
    r.is_from_least();
    Some(r)
}

/// The refs.
pub(crate) fn refs_of(alloc: Global, page: &[(Ref, u64)]) -> Result<Vec<Ref>, NoMemory>
    ensures { IfOk result (λ refs. refs.items ≡ refs_of page.now) }
{
    let mut refs = Vec::with_capacity(alloc, page.len())?;
    for entry in page {
        refs.push(entry.0)?;
    }
    Ok(refs)
}

/// The refs that aren't on a page. Both rise, and so each is gone through once.
pub(crate) fn others(alloc: Global, refs: &[Ref], page: &[(Ref, u64)]) -> Result<Vec<Ref>, NoMemory>
    requires refs { IsStrictlySortedBy ref_cmp refs.now }
    requires page { T (is_sorted ref_cmp page.now) }
    ensures { IfOk result (λ others. others.items ≡ filter (λ r. not (is_among (refs_of page.now) r)) refs.now) }
{
    let mut others = Vec::with_capacity(alloc, refs.len())?;
    let mut rest = page;
    for r in refs {
        rest = from(rest, r);
        push_other(&mut others, rest, r)?;
    }
    Ok(others)
}

// The page from the first ref on that isn't less than this one.
fn from<'a>(page: &'a [(Ref, u64)], r: &Ref) -> &'a [(Ref, u64)]
    ensures { result.now ≡ drop (length (take_while (is_before r.now) page.now)) page.now }
{
    &page[count_before(page, r)..]
}

// How many refs in front of a page are less than this one.
fn count_before(page: &[(Ref, u64)], r: &Ref) -> usize
    ensures count { result ≡ length (take_while (is_before r.now) page.now) }
    ensures within { result ≤ length page.now }
{
    page.iter().take_while(|entry| entry.0 < *r).count()
}

// Puts a ref behind the others unless a page begins with it.
fn push_other(others: &mut Vec<Ref>, page: &[(Ref, u64)], r: &Ref) -> Result<(), NoMemory>
    ensures { OnOk result (others.new.items ≡ others.old.items ++ unless_first page.now r.now) }
{
    if !begins_with(page, r) {
        others.push(*r)?;
    }
    Ok(())
}

// Whether the first ref of a page is this one.
fn begins_with(page: &[(Ref, u64)], r: &Ref) -> bool
    ensures { result ≡ begins_with page.now r.now }
{
    page.first().is_some_and(|entry| *r == entry.0)
}

/// Whether a ref isn't less than another.
pub(crate) fn reaches(end: &Ref, last: &Ref) -> bool
    ensures { result ≡ not (is_after (Some end.now) last.now) }
{
    !end.cmp(last).is_lt()
}
