//! The answers that the tables of an index give, one function for each.
ghost use Rattle.std.specs.Prelude.{◌≡◌, ◌++◌, ◌∷◌, [], true, Some, IfOk, OnOk, filter, option_copied, ◌≤◌, ◌+◌};
ghost use Rattle.std.specs.Prelude.{length, None};
ghost use Rattle.std.specs.FinMap.{get, keys};
ghost use Rattle.std.specs.Str.{IsUtf8};
ghost use Rattle.schema_date.specs.declared.date.When.TheVariants.{Always};
ghost use Rattle.index_rows.specs.Counted.{IsCounted};
ghost use Rattle.index_rows.specs.Deletes.{Ringless, row_deleted};
ghost use Rattle.index_rows.specs.Holders.{says_permanode};
ghost use Rattle.index_rows.specs.Values.{IsListed};
ghost use Rattle.row_answers.specs.Told.{deletion_steps, told_after, told_change, told_fact, told_holds, told_parents};
ghost use Rattle.row_answers.specs.Told.{told_size, told_values};

use crate::folding::{fold_at, last_change_at};
use crate::said::{says_genuine, says_ready, says_sound};
use blobref::{NoMemory, Ref, RefList, TextList};
use edge_base::Steps;
use index_look::claim::{can_be_deleted_at, is_permanode, is_permanode_at};
use index_look::tree::{is_file, own_size};
use index_look::values::is_among;
use index_rows::{Rows, deleted_at, has_deleters};
use schema_date::{Date, When};
use schema_fact::Fact;
use std::alloc::Global;
use std::sync::ledger::Ledger;

/// The fact of a ref whose row says that it is ready. Two look-ups.
pub fn fact_of<'a, L: Ledger>(rows: &'a Rows, r: &Ref, steps: &mut Steps<L>) -> Option<&'a Fact>
    ensures { option_copied result ≡ told_fact rows.now.facts.ordered rows.now.state r.now }
{
    if says_ready(&rows.state, r, steps) {
        rows.facts.ordered.row(r, steps)
    } else {
        None
    }
}

/// Whether it is a permanode whose row says that it is genuine. Two look-ups.
pub fn is_genuine_permanode<L: Ledger>(rows: &Rows, r: &Ref, steps: &mut Steps<L>) -> bool
    ensures { result ≡ says_permanode rows.now.facts.ordered rows.now.state r.now }
{
    is_permanode_at(&rows.facts.ordered, r, steps) && says_genuine(&rows.state, r, steps)
}

// The same for a ref whose fact is known. One look-up if it is a permanode.
fn is_genuine_here<L: Ledger>(rows: &Rows, r: &Ref, fact: &Fact, steps: &mut Steps<L>) -> bool
    requires { get rows.now.facts.ordered r.now ≡ Some fact.now }
    ensures { result ≡ says_permanode rows.now.facts.ordered rows.now.state r.now }
{
    is_permanode(&fact.kind) && says_genuine(&rows.state, r, steps)
}

/// The first such permanode after another, or the first of all. It walks over the facts up to that one.
pub fn permanode_after<L: Ledger>(
    rows: &Rows,
    after: Option<&Ref>,
    steps: &mut Steps<L>,
) -> Option<Ref>
    ensures { result ≡ told_after rows.now.facts.ordered rows.now.state (option_copied after.entry) }
{
    let mut place = after.copied();
    'walk: while let Some(entry) = rows.facts.ordered.next_after(place.as_ref(), steps) {
        if is_genuine_here(rows, &entry.0, entry.1, steps) {
            return Some(entry.0);
        }
        place = Some(entry.0);
    }
    None
}

/// Whether it is deleted at that time. The counts of delete claims must be right. Two look-ups for all dates, and for
/// another time as many as `deleted_at` takes.
pub fn deleted<L: Ledger>(rows: &Rows, r: &Ref, when: &When, steps: &mut Steps<L>) -> bool
    requires { IsCounted rows.now.facts.ordered rows.now.deletes rows.now.state }
    ensures deleted { result ≡ row_deleted rows.now.facts.ordered rows.now.deletes when.now r.now }
    ensures ticks { steps.new ≤ steps.old + deletion_steps rows.now.facts.ordered rows.now.deletes when.now r.now }
{
    match when {
        When::Always => is_gone(rows, r, steps),
        When::At(_) => deleted_at(rows, r, when, steps),
    }
}

// The same for all dates, by the count of the delete claims on it. At most two look-ups.
fn is_gone<L: Ledger>(rows: &Rows, y: &Ref, steps: &mut Steps<L>) -> bool
    requires { IsCounted rows.now.facts.ordered rows.now.deletes rows.now.state }
    ensures gone { result ≡ row_deleted rows.now.facts.ordered rows.now.deletes Always y.now }
    ensures ticks { steps.new ≤ steps.old + 2 }
{
    can_be_deleted_at(&rows.facts.ordered, y, steps) && has_deleters(&rows.state, y, steps)
}

/// The values of an attribute at that time; none if p isn't a permanode that its row calls genuine. Each row of
/// `deletes` must be that of a ready delete claim, and each row of `changes` that of a change of a genuine claim.
/// `NoMemory` comes only if no memory is left. It walks over the changes of the permanode up to that time.
pub fn values<L: Ledger>(
    alloc: Global,
    rows: &Rows,
    p: &Ref,
    attr: &str,
    when: &When,
    steps: &mut Steps<L>,
) -> Result<TextList, NoMemory>
    requires ringless { Ringless rows.now.facts.ordered rows.now.deletes }
    requires listed { IsListed rows.now.facts.ordered rows.now.state rows.now.changes }
    ensures { IfOk result (λ texts. texts
        ≡ told_values rows.now.facts.ordered rows.now.state rows.now.deletes rows.now.changes when.now p.now attr.now) }
{
    if !is_genuine_permanode(rows, p, steps) {
        return Ok(TextList::empty(alloc));
    }
    fold_at(alloc, rows, p, attr, when, steps)
}

/// The date of the last change that counts at that time, under the same conditions. The same walk.
pub fn last_change<L: Ledger>(
    rows: &Rows,
    p: &Ref,
    when: &When,
    steps: &mut Steps<L>,
) -> Option<Date>
    requires ringless { Ringless rows.now.facts.ordered rows.now.deletes }
    requires listed { IsListed rows.now.facts.ordered rows.now.state rows.now.changes }
    ensures { result
        ≡ told_change rows.now.facts.ordered rows.now.state rows.now.deletes rows.now.changes when.now p.now }
{
    if !is_genuine_permanode(rows, p, steps) {
        return None;
    }
    last_change_at(rows, p, when, steps)
}

/// The size of a file whose row says that it is sound. Two look-ups.
pub fn file_size<L: Ledger>(rows: &Rows, r: &Ref, steps: &mut Steps<L>) -> Option<u64>
    ensures { result ≡ told_size rows.now.facts.ordered rows.now.state r.now }
{
    let sound = says_sound(&rows.state, r, steps);
    let fact = rows.facts.ordered.row(r, steps)?;
    if sound && is_file(&fact.kind) {
        own_size(fact)
    } else {
        None
    }
}

/// The permanodes that have the child among their members at that time, ascending. The tables must be as for `values`,
/// and `NoMemory` comes only if no memory is left. For all dates it walks over the rows of these permanodes, and for
/// another time over all facts and the changes of each permanode.
pub fn parents<L: Ledger>(
    alloc: Global,
    rows: &Rows,
    child: &Ref,
    when: &When,
    steps: &mut Steps<L>,
) -> Result<RefList, NoMemory>
    requires ringless { Ringless rows.now.facts.ordered rows.now.deletes }
    requires listed { IsListed rows.now.facts.ordered rows.now.state rows.now.changes }
    ensures { IfOk result (λ refs. refs ≡ told_parents rows.now.facts.ordered rows.now.state rows.now.deletes
        rows.now.changes rows.now.holders when.now child.now) }
{
    let text = child.spell();
    let text = text.as_slice();
    match when {
        When::Always => rows
            .holders
            .all_of(alloc, "camliMember", as_text(text), steps),
        When::At(_) => holding(alloc, rows, "camliMember", text, when, steps),
    }
}

// The bytes as a string.
fn as_text(bytes: &[u8]) -> &str
    requires { IsUtf8 bytes.now }
    ensures { result.now ≡ bytes.now }
{
    match str::from_utf8(bytes) {
        Ok(text) => text,
        Err(_) => unreachable!(),
    }
}

// The genuine permanodes not deleted at that time that have the value then, ascending.
fn holding<L: Ledger>(
    alloc: Global,
    rows: &Rows,
    attr: &str,
    value: &[u8],
    when: &When,
    steps: &mut Steps<L>,
) -> Result<RefList, NoMemory>
    requires ringless { Ringless rows.now.facts.ordered rows.now.deletes }
    requires listed { IsListed rows.now.facts.ordered rows.now.state rows.now.changes }
    ensures { IfOk result (λ refs. refs ≡ filter (told_holds rows.now.facts.ordered rows.now.state
        rows.now.deletes rows.now.changes when.now attr.now value.now) (keys rows.now.facts.ordered)) }
{
    let mut found = RefList::empty(alloc);
    let mut place = None;
    'walk: while let Some(entry) = rows.facts.ordered.next_after(place.as_ref(), steps) {
        let (r, fact) = (&entry.0, entry.1);
        keep_holder(alloc, rows, &mut found, r, fact, attr, value, when, steps)?;
        place = Some(entry.0);
    }
    Ok(found)
}

// Appends a permanode that holds the value.
fn keep_holder<L: Ledger>(
    alloc: Global,
    rows: &Rows,
    found: &mut RefList,
    r: &Ref,
    fact: &Fact,
    attr: &str,
    value: &[u8],
    when: &When,
    steps: &mut Steps<L>,
) -> Result<(), NoMemory>
    requires fact { get rows.now.facts.ordered r.now ≡ Some fact.now }
    requires ringless { Ringless rows.now.facts.ordered rows.now.deletes }
    requires listed { IsListed rows.now.facts.ordered rows.now.state rows.now.changes }
    ensures { OnOk result (found.new ≡ found.old ++ filter (told_holds rows.now.facts.ordered rows.now.state
        rows.now.deletes rows.now.changes when.now attr.now value.now) (r.now ∷ [])) }
{
    if holds(alloc, rows, r, fact, attr, value, when, steps)? {
        found.push(*r)?;
    }
    Ok(())
}

fn holds<L: Ledger>(
    alloc: Global,
    rows: &Rows,
    r: &Ref,
    fact: &Fact,
    attr: &str,
    value: &[u8],
    when: &When,
    steps: &mut Steps<L>,
) -> Result<bool, NoMemory>
    requires fact { get rows.now.facts.ordered r.now ≡ Some fact.now }
    requires ringless { Ringless rows.now.facts.ordered rows.now.deletes }
    requires listed { IsListed rows.now.facts.ordered rows.now.state rows.now.changes }
    ensures { IfOk result (λ holds. holds ≡ told_holds rows.now.facts.ordered rows.now.state
        rows.now.deletes rows.now.changes when.now attr.now value.now r.now) }
{
    if !is_genuine_here(rows, r, fact, steps) || deleted_at(rows, r, when, steps) {
        return Ok(false);
    }
    let texts = fold_at(alloc, rows, r, attr, when, steps)?;
    Ok(is_among(value, texts.as_slice()))
}
