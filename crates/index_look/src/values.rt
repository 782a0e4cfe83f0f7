//! The values of attributes, folded out of counted claims.
ghost use Rattle.std.specs.Prelude.{◌≡◌, ◌≤◌, ◌+◌, [], IfOk, OnOk, fold, map, filter, not, option_copied, length, slice_get, ◌==◌, if◌then◌else◌};
ghost use Rattle.std.specs.List.{list_any};
ghost use Rattle.std.specs.Str.{bytes_eq};
ghost use Rattle.claim_model.specs.ByClaim.{apply};
ghost use Rattle.claim_model.specs.Changes.{change_values};
ghost use Rattle.schema_fact.specs.Changes.{change_seen, changes_of};
ghost use Rattle.index_look.specs.Claims.{apply_said, change_said, said, values_with, values_with_own};
ghost use Rattle.index_look.specs.Latest.{later_of};

use crate::claim::{change_said, claim_says};
use crate::table::FactTable;
use blobref::{NoMemory, Ref, Text, TextList};
use edge_base::Steps;
use schema_date::Date;
use schema_fact::{Act, ChangeView, What};
use std::alloc::Global;
use std::sync::ledger::Ledger;

/// The values of the attribute of a permanode after the claims of these moments, one after another. One look-up for
/// each. `NoMemory` comes only where no memory is left.
pub fn folded<T: FactTable, L: Ledger>(
    alloc: Global,
    table: &T,
    p: &Ref,
    moments: &[(Date, Ref)],
    attr: &str,
    steps: &mut Steps<L>,
) -> Result<TextList, NoMemory>
    ensures { IfOk result (λ texts. texts ≡ fold (λ found m. apply_said p.now attr.now found
        (said (T.facts table.now) m.1)) [] moments.now) }
{
    let mut found = Vec::new(alloc);
    for (_, r) in moments {
        apply_said(table, &mut found, p, r, attr, steps)?;
    }
    copied(alloc, &found)
}

/// What the claim of a ref makes of the values of the attribute of the permanode; nothing where it is no claim. One
/// look-up. After `NoMemory` the values may be anything.
pub fn apply_said<'a, T: FactTable, L: Ledger>(
    table: &'a T,
    found: &mut Vec<&'a Text>,
    p: &Ref,
    r: &Ref,
    attr: &str,
    steps: &mut Steps<L>,
) -> Result<(), NoMemory>
    ensures { OnOk result (map (λ t. t.now) found.new.items ≡ apply_said p.now attr.now
        (map (λ t. t.now) found.old.items) (said (T.facts table.now) r.now)) }
{
    match said(table, r, steps) {
        Some(what) => apply(found, p, what, attr),
        None => Ok(()),
    }
}

// What the claim of a ref says.
fn said<'a, T: FactTable, L: Ledger>(
    table: &'a T,
    r: &Ref,
    steps: &mut Steps<L>,
) -> Option<&'a What>
    ensures { option_copied result ≡ said (T.facts table.now) r.now }
{
    claim_says(&table.fact_at(r, steps)?.kind)
}

// What a claim makes of the values of the attribute of the permanode: its changes on it, one after another.
fn apply<'a>(found: &mut Vec<&'a Text>, p: &Ref, what: &'a What, attr: &str) -> Result<(), NoMemory>
    ensures { OnOk result (map (λ t. t.now) found.new.items ≡ apply p.now attr.now
        (map (λ t. t.now) found.old.items) what.now) }
{
    for place in 0..what.change_count() {
        apply_own(found, p, what, place, attr)?;
    }
    Ok(())
}

// What the change at a place of a claim makes of the values of the attribute of the permanode.
fn apply_own<'a>(
    found: &mut Vec<&'a Text>,
    p: &Ref,
    what: &'a What,
    place: usize,
    attr: &str,
) -> Result<(), NoMemory>
    ensures { OnOk result (map (λ t. t.now) found.new.items ≡ values_with_own p.now attr.now
        (map (λ t. t.now) found.old.items) (slice_get (changes_of what.now) place)) }
{
    match what.change(place) {
        Some(change) => if p == change.on {
            apply_change(found, change, attr)
        } else {
            Ok(())
        },
        None => Ok(()),
    }
}

// What a change makes of the values of the attribute.
fn apply_change<'a>(
    found: &mut Vec<&'a Text>,
    change: ChangeView<'a>,
    attr: &str,
) -> Result<(), NoMemory>
    ensures { OnOk result (map (λ t. t.now) found.new.items
        ≡ change_values attr.now (map (λ t. t.now) found.old.items) (change_seen change.entry)) }
{
    if attr != change.attr.as_str() {
        return Ok(());
    }
    match change.act {
        Act::Set => {
            found.clear();
            found.push(change.value)?;
        }
        Act::Add => found.push(change.value)?,
        Act::Del => remove(found, change.value.as_str()),
    }
    Ok(())
}

/// What the change at a place of the claim of a ref makes of the values of the attribute; nothing where there is none.
/// One look-up. After `NoMemory` the values may be anything.
pub fn apply_place<'a, T: FactTable, L: Ledger>(
    table: &'a T,
    found: &mut Vec<&'a Text>,
    r: &Ref,
    place: usize,
    attr: &str,
    steps: &mut Steps<L>,
) -> Result<(), NoMemory>
    ensures values { OnOk result (map (λ t. t.now) found.new.items ≡ values_with attr.now
        (map (λ t. t.now) found.old.items) (change_said (T.facts table.now) r.now place)) }
    ensures ticks { steps.new ≤ steps.old + 1 + T.loose table.now }
{
    match change_said(table, r, place, steps) {
        Some(change) => apply_change(found, change, attr),
        None => Ok(()),
    }
}

// Takes out each value that is equal, and with the empty text all.
fn remove(found: &mut Vec<&Text>, value: &str)
    ensures { map (λ t. t.now) found.new.items ≡ (if length value.now == 0 then [] else filter
        (λ v. not (bytes_eq v value.now)) (map (λ t. t.now) found.old.items)) }
{
    if value.is_empty() {
        found.clear();
    } else {
        found.retain(|text| text.as_str() != value);
    }
}

/// Copies of the texts.
pub fn copied(alloc: Global, found: &[&Text]) -> Result<TextList, NoMemory>
    ensures { IfOk result (λ texts. texts ≡ map (λ t. t.now) found.now) }
{
    let mut texts = TextList::empty(alloc);
    for text in found {
        texts.push(Text::copy(alloc, text.as_str())?)?;
    }
    Ok(texts)
}

/// The later of a moment and of another, where there are any.
pub fn later(moment: Option<(Date, Ref)>, other: Option<(Date, Ref)>) -> Option<(Date, Ref)>
    ensures { result ≡ later_of moment other }
{
    let Some(moment) = moment else {
        return other;
    };
    let Some(other) = other else {
        return Some(moment);
    };
    if other < moment {
        Some(moment)
    } else {
        Some(other)
    }
}

/// Whether the value is one of the texts.
pub fn is_among(value: &[u8], texts: &[Text]) -> bool
    ensures { result ≡ list_any (bytes_eq value.now) texts.now }
{
    texts.iter().any(|text| value == text.as_str().as_bytes())
}
