//! The answers of an index over any table of facts and its keys, straight from their definitions (`docs/claims.md`).
//!
//! These functions keep nothing from one call to the next, and take memory only where their answer is a list. Their
//! costs are given for a table of n facts, in look-ups and steps of the table. Whether a blob is ready costs two
//! steps for each path from it through what it depends on, where a ref that several parts of a file have counts once.
//! So a chain of blobs costs its length, and blobs that are shared again and again, as by files made of files, can
//! cost a power of their depth: an index that is kept doesn't, nor do `fact_known` and `size_known`, to which the caller
//! lends what was found so far.
ghost use Rattle.std.specs.Prelude.{◌≡◌, ◌++◌, ◌∷◌, [], None, IfOk, OnOk, filter, option_copied, if◌then◌else◌};
ghost use Rattle.std.specs.FinMap.{get};
ghost use Rattle.claim_model.specs.Claims.{has_value, holders, last_change, parents, values};
ghost use Rattle.claim_model.specs.Deleted.{is_deleted, live_permanodes};
ghost use Rattle.claim_model.specs.Genuine.{is_genuine_permanode};
ghost use Rattle.claim_model.specs.Facts.{passes};
ghost use Rattle.claim_model.specs.Ready.{ready_fact};
ghost use Rattle.claim_model.specs.Trees.{file_size, is_file, tree_size};
ghost use Rattle.index_look.specs.Known.{IsSo};
ghost use Rattle.index_look.specs.Look.{permanode_after};
ghost use Rattle.index_look.specs.Claims.{is_holder};

use crate::attributes::{has_value, latest, values_of};
use crate::deletion::is_deleted;
use crate::known;
use crate::readiness::{is_genuine_permanode, is_ready};
use crate::trees::is_sound_tree;
use crate::walk::entry_after;
use blobref::{NoMemory, Ref, RefList, TextList};
use claim_verify::Verifier;
use edge_base::Steps;
use index_look::tree::{is_file, own_size};
use index_look::{FactTable, Known};
use schema_date::{Date, When};
use schema_fact::Fact;
use std::alloc::Global;
use std::sync::ledger::Ledger;

/// The fact of a ref, and `None` exactly where the ref isn't ready. The keys are not asked.
pub fn fact_of<'a, T: FactTable, V: Verifier, L: Ledger>(
    table: &'a T,
    _keys: &V,
    r: &Ref,
    steps: &mut Steps<L>,
) -> Option<&'a Fact>
    ensures { option_copied result ≡ ready_fact (T.facts table.now) r.now }
{
    if is_ready(table, r, steps) {
        table.fact_at(r, steps)
    } else {
        None
    }
}

/// The same as `fact_of`, where many are asked for in turn, and what is found to be ready is kept in `known`. All told it
/// comes to each blob once, and takes two steps for each time that one is named. `NoMemory` comes only where no memory is
/// left.
pub fn fact_known<'a, T: FactTable, L: Ledger>(
    table: &'a T,
    known: &mut Known,
    r: &Ref,
    steps: &mut Steps<L>,
) -> Result<Option<&'a Fact>, NoMemory>
    requires so { IsSo (T.facts table.now) known.old }
    ensures value { IfOk result (λ fact. option_copied fact ≡ ready_fact (T.facts table.now) r.now) }
    ensures so { IsSo (T.facts table.now) known.new }
{
    if known::is_ready(table, known, r, steps)? {
        Ok(table.fact_at(r, steps))
    } else {
        Ok(None)
    }
}

/// Whether the ref is that of a genuine permanode.
pub fn is_permanode<T: FactTable, V: Verifier, L: Ledger>(
    table: &T,
    keys: &V,
    r: &Ref,
    steps: &mut Steps<L>,
) -> bool
    ensures { result ≡ is_genuine_permanode (T.facts table.now) (V.accepts keys.now) r.now }
{
    is_genuine_permanode(table, keys, r, steps)
}

/// The least genuine permanode greater than `after`, or of all where `after` is `None`. It walks over the facts up to
/// that one, and asks of each permanode whether it is ready and signed.
pub fn permanode_after<T: FactTable, V: Verifier, L: Ledger>(
    table: &T,
    keys: &V,
    after: Option<&Ref>,
    steps: &mut Steps<L>,
) -> Option<Ref>
    ensures { result ≡ permanode_after (T.facts table.now) (V.accepts keys.now) (option_copied after.entry) }
{
    let mut place = after.copied();
    'walk: while let Some((r, _)) = entry_after(table, place.as_ref(), steps) {
        if is_genuine_permanode(table, keys, &r, steps) {
            return Some(r);
        }
        place = Some(r);
    }
    None
}

/// Whether the blob is deleted at that time. It walks over all facts for the blob, and again for each genuine delete
/// claim that it comes to, and asks of each of these claims whether it is ready and signed; none is looked at twice.
/// The stack grows with the longest chain of deletions of deletions.
pub fn deleted<T: FactTable, V: Verifier, L: Ledger>(
    table: &T,
    keys: &V,
    r: &Ref,
    when: &When,
    steps: &mut Steps<L>,
) -> bool
    ensures { result ≡ is_deleted (T.facts table.now) (V.accepts keys.now) when.now r.now }
{
    is_deleted(table, keys, r, when, steps)
}

/// The values of an attribute of a permanode at that time. It walks over all facts, asks of each attribute claim on
/// the permanode whether it is genuine and not deleted, and sorts those that count. `NoMemory` comes only where no
/// memory is left.
pub fn values<T: FactTable, V: Verifier, L: Ledger>(
    alloc: Global,
    table: &T,
    keys: &V,
    p: &Ref,
    attr: &str,
    when: &When,
    steps: &mut Steps<L>,
) -> Result<TextList, NoMemory>
    ensures { IfOk result (λ texts. texts ≡ values (T.facts table.now) (V.accepts keys.now) when.now p.now attr.now) }
{
    values_of(alloc, table, keys, p, attr, when, steps)
}

/// The date of the last counted change of a permanode at that time, and `None` exactly where nothing is counted. It
/// walks as `values` does.
pub fn last_change<T: FactTable, V: Verifier, L: Ledger>(
    table: &T,
    keys: &V,
    p: &Ref,
    when: &When,
    steps: &mut Steps<L>,
) -> Option<Date>
    ensures { result ≡ last_change (T.facts table.now) (V.accepts keys.now) when.now p.now }
{
    if !is_genuine_permanode(table, keys, p, steps) {
        return None;
    }
    latest(table, keys, p, when, steps).map(|last| last.0)
}

/// The size of a file: the sum of the sizes of its parts. `None` exactly where the ref isn't a file that is ready and
/// all of whose parts stand in their origins. The keys are not asked. It comes to a tree within once for each part
/// that names it, along each path, and asks of it each time whether it is ready.
pub fn file_size<T: FactTable, V: Verifier, L: Ledger>(
    table: &T,
    _keys: &V,
    r: &Ref,
    steps: &mut Steps<L>,
) -> Option<u64>
    ensures { result ≡ file_size (T.facts table.now) r.now }
{
    let sound = is_sound_tree(table, r, steps);
    let fact = table.fact_at(r, steps)?;
    if sound && is_file(&fact.kind) {
        own_size(fact)
    } else {
        None
    }
}

/// The same as `file_size`, where many are asked for in turn, and what is found to be ready or a sound tree is kept in
/// `known`. All told it comes to each tree once, and takes some steps for each of its parts. `NoMemory` comes only where
/// no memory is left.
pub fn size_known<T: FactTable, L: Ledger>(
    table: &T,
    known: &mut Known,
    r: &Ref,
    steps: &mut Steps<L>,
) -> Result<Option<u64>, NoMemory>
    requires so { IsSo (T.facts table.now) known.old }
    ensures value { IfOk result (λ size. size ≡ file_size (T.facts table.now) r.now) }
    ensures so { IsSo (T.facts table.now) known.new }
{
    if !known::is_sound_tree(table, known, r, steps)? {
        return Ok(None);
    }
    Ok(file_size_at(table, r, steps))
}

// The size of the parts of a file together, sound or not.
fn file_size_at<T: FactTable, L: Ledger>(table: &T, r: &Ref, steps: &mut Steps<L>) -> Option<u64>
    ensures { result ≡ (if passes (λ fact. is_file fact.kind) (get (T.facts table.now) r.now)
        then tree_size (T.facts table.now) r.now else None) }
{
    let fact = table.fact_at(r, steps)?;
    if is_file(&fact.kind) {
        own_size(fact)
    } else {
        None
    }
}

/// The genuine permanodes not deleted that have the value of the attribute, by claims of every date, ascending. It
/// walks over all facts, and asks each genuine permanode for its values. A claim of several changes is gone through
/// for each permanode that it is on. `NoMemory` comes only where no memory is left.
pub fn holders<T: FactTable, V: Verifier, L: Ledger>(
    alloc: Global,
    table: &T,
    keys: &V,
    attr: &str,
    value: &str,
    steps: &mut Steps<L>,
) -> Result<RefList, NoMemory>
    ensures { IfOk result (λ refs. refs ≡ holders (T.facts table.now) (V.accepts keys.now) attr.now value.now) }
{
    holding(
        alloc,
        table,
        keys,
        attr,
        value.as_bytes(),
        &When::Always,
        steps,
    )
}

/// The genuine permanodes not deleted at that time that have the child's text among their values of `camliMember` at
/// that time, ascending. It walks as `holders` does. `NoMemory` comes only where no memory is left.
pub fn parents<T: FactTable, V: Verifier, L: Ledger>(
    alloc: Global,
    table: &T,
    keys: &V,
    child: &Ref,
    when: &When,
    steps: &mut Steps<L>,
) -> Result<RefList, NoMemory>
    ensures { IfOk result (λ refs. refs ≡ parents (T.facts table.now) (V.accepts keys.now) when.now child.now) }
{
    let text = child.spell();
    holding(
        alloc,
        table,
        keys,
        "camliMember",
        text.as_slice(),
        when,
        steps,
    )
}

// The genuine permanodes not deleted at that time that have the value, ascending.
fn holding<T: FactTable, V: Verifier, L: Ledger>(
    alloc: Global,
    table: &T,
    keys: &V,
    attr: &str,
    value: &[u8],
    when: &When,
    steps: &mut Steps<L>,
) -> Result<RefList, NoMemory>
    ensures { IfOk result (λ refs. refs
        ≡ filter (has_value (T.facts table.now) (V.accepts keys.now) when.now attr.now value.now) (live_permanodes (T.facts table.now) (V.accepts keys.now) when.now)) }
{
    let mut found = RefList::empty(alloc);
    let mut place = None;
    'walk: while let Some((r, _)) = entry_after(table, place.as_ref(), steps) {
        keep_holder(alloc, table, keys, &mut found, &r, attr, value, when, steps)?;
        place = Some(r);
    }
    Ok(found)
}

// Keeps a genuine permanode that isn't deleted at that time and has the value.
fn keep_holder<T: FactTable, V: Verifier, L: Ledger>(
    alloc: Global,
    table: &T,
    keys: &V,
    found: &mut RefList,
    r: &Ref,
    attr: &str,
    value: &[u8],
    when: &When,
    steps: &mut Steps<L>,
) -> Result<(), NoMemory>
    ensures { OnOk result (found.new ≡ found.old ++ filter
        (is_holder (T.facts table.now) (V.accepts keys.now) when.now attr.now value.now) (r.now ∷ [])) }
{
    if is_holder(alloc, table, keys, r, attr, value, when, steps)? {
        found.push(*r)?;
    }
    Ok(())
}

// Whether it is a genuine permanode that isn't deleted at that time and has the value.
fn is_holder<T: FactTable, V: Verifier, L: Ledger>(
    alloc: Global,
    table: &T,
    keys: &V,
    r: &Ref,
    attr: &str,
    value: &[u8],
    when: &When,
    steps: &mut Steps<L>,
) -> Result<bool, NoMemory>
    ensures { IfOk result (λ holds. holds ≡ is_holder (T.facts table.now)
        (V.accepts keys.now) when.now attr.now value.now r.now) }
{
    if !is_genuine_permanode(table, keys, r, steps) || is_deleted(table, keys, r, when, steps) {
        return Ok(false);
    }
    has_value(alloc, table, keys, r, attr, value, when, steps)
}
