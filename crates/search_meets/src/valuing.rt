//! What a permanode test asks of a permanode and of the values of its attribute.
ghost use Rattle.std.specs.Prelude.{◌≡◌, ◌++◌, ◌∷◌, ◌&&◌, [], IfOk, OnOk, Some, None, filter, map, if◌then◌else◌};
ghost use Rattle.std.specs.List.{list_any};
ghost use Rattle.claim_model.specs.Facts.{Facts};
ghost use Rattle.index_look.specs.Known.{IsSo};
ghost use Rattle.search_query.specs.View.{test_leaves_of};
ghost use Rattle.search_query.specs.declared.query.Constraint.TheViews.{out-PermanodeTest};
ghost use Rattle.search_meets.specs.Computed.{candidates, is_candidate, set_refs};
ghost use Rattle.search_meets.specs.Values.{asks_of_one, is_live, is_ready_ref, live_meets, time_of};
ghost use Rattle.search_meets.specs.Values.{value_meets, values_hold, values_meet};

use crate::testing::{equals, int_meets, text_meets};
use blobref::{NoMemory, Ref, RefList, Text};
use edge_base::Steps;
use index_look::{Known, Look};
use schema_date::{Date, When};
use search_query::{PermanodeTest, TextTest};
use std::alloc::Global;
use std::sync::ledger::Ledger;

// The date of a test, or else the time at which it is asked.
pub(crate) fn time_of(at: &Option<Date>, when: &When) -> When
    ensures { result ≡ time_of at.now when.now }
{
    match at {
        None => *when,
        Some(date) => When::At(*date),
    }
}

// Whether it is a genuine permanode that isn't deleted at that time.
fn is_live<K: Look, L: Ledger>(look: &K, r: &Ref, when: &When, steps: &mut Steps<L>) -> bool
    ensures { result ≡ is_live (K.facts look.now) (K.accepts look.now) when.now r.now }
{
    look.is_permanode(r, steps) && !look.deleted(r, when, steps)
}

fn value_meets(value: &Option<Text>, matches: &Option<TextTest>, v: &Text) -> bool
    ensures { result ≡ value_meets value.now matches.now v.now }
{
    equals(value, v.as_str()) && text_meets(matches, v.as_str())
}

fn some_value(value: &Option<Text>, matches: &Option<TextTest>, found: &[Text]) -> bool
    ensures { result ≡ list_any (value_meets value.now matches.now) found.now }
{
    found.iter().any(|v| value_meets(value, matches, v))
}

fn asks_of_one(test: &PermanodeTest) -> bool
    ensures { result ≡ asks_of_one (test_leaves_of (out-PermanodeTest test.now)) None }
{
    test.value.is_some() || test.value_matches.is_some()
}

// Whether the values hold what a test without a set asks, but for their number.
fn values_hold(test: &PermanodeTest, found: &[Text]) -> bool
    ensures { (facts : Facts)
        → result ≡ values_hold facts (test_leaves_of (out-PermanodeTest test.now)) None found.now }
{
    if asks_of_one(test) {
        some_value(&test.value, &test.value_matches, found)
    } else {
        test.num_value.is_some() || !found.is_empty()
    }
}

// Whether the values meet a test without a set.
fn values_meet(test: &PermanodeTest, found: &[Text]) -> bool
    ensures { (facts : Facts)
        → result ≡ values_meet facts (test_leaves_of (out-PermanodeTest test.now)) None found.now }
{
    values_hold(test, found) && int_meets(&test.num_value, found.len() as u64)
}

// Whether it is a permanode not deleted at that time whose values of the attribute meet a test without a set.
fn named_meets<K: Look, L: Ledger>(
    look: &K,
    test: &PermanodeTest,
    attr: &str,
    when: &When,
    r: &Ref,
    steps: &mut Steps<L>,
) -> Result<bool, NoMemory>
    ensures { IfOk result (λ met. met ≡ live_meets (K.facts look.now) (K.accepts look.now)
        (test_leaves_of (out-PermanodeTest test.now)) None when.now (Some attr.now) r.now) }
{
    if !is_live(look, r, when, steps) {
        return Ok(false);
    }
    let found = look.values(r, attr, when, steps)?;
    Ok(values_meet(test, found.as_slice()))
}

// What a test without a set says of each ref, but for its relation.
pub(crate) fn named_marks<K: Look, L: Ledger>(
    alloc: Global,
    look: &K,
    test: &PermanodeTest,
    attr: &str,
    when: &When,
    refs: &[Ref],
    steps: &mut Steps<L>,
) -> Result<Vec<bool>, NoMemory>
    ensures { IfOk result (λ m. m.items ≡ map (live_meets (K.facts look.now) (K.accepts look.now)
        (test_leaves_of (out-PermanodeTest test.now)) None when.now (Some attr.now)) refs.now) }
{
    let mut out = Vec::new(alloc);
    for r in refs {
        out.push(named_meets(look, test, attr, when, r, steps)?)?;
    }
    Ok(out)
}

// Whether each ref is a genuine permanode that isn't deleted at that time.
pub(crate) fn live_marks<K: Look, L: Ledger>(
    alloc: Global,
    look: &K,
    when: &When,
    refs: &[Ref],
    steps: &mut Steps<L>,
) -> Result<Vec<bool>, NoMemory>
    ensures { IfOk result (λ m. m.items ≡ map (is_live (K.facts look.now) (K.accepts look.now) when.now) refs.now) }
{
    let mut out = Vec::new(alloc);
    for r in refs {
        out.push(is_live(look, r, when, steps))?;
    }
    Ok(out)
}

// The ready ref that a text is.
fn ready_ref<K: Look, L: Ledger>(
    look: &K,
    known: &mut Known,
    v: &Text,
    steps: &mut Steps<L>,
) -> Result<Option<Ref>, NoMemory>
    requires so { IsSo (K.facts look.now) known.old }
    ensures value { IfOk result (λ r. r ≡ (if is_ready_ref (K.facts look.now) v.now then Some v.now else None)) }
    ensures so { IsSo (K.facts look.now) known.new }
{
    let Some(r) = Ref::read(v.as_str().as_bytes()) else {
        return Ok(None);
    };
    if look.fact_known(known, &r, steps)?.is_none() {
        return Ok(None);
    }
    Ok(Some(r))
}

// The ready ref that a value is, if it meets what is asked of it by itself.
fn candidate<K: Look, L: Ledger>(
    look: &K,
    known: &mut Known,
    value: &Option<Text>,
    matches: &Option<TextTest>,
    v: &Text,
    steps: &mut Steps<L>,
) -> Result<Option<Ref>, NoMemory>
    requires so { IsSo (K.facts look.now) known.old }
    ensures value { IfOk result (λ r. r
        ≡ (if is_candidate (K.facts look.now) value.now matches.now v.now then Some v.now else None)) }
    ensures so { IsSo (K.facts look.now) known.new }
{
    if value_meets(value, matches, v) {
        ready_ref(look, known, v, steps)
    } else {
        Ok(None)
    }
}

fn keep_candidate<K: Look, L: Ledger>(
    look: &K,
    known: &mut Known,
    value: &Option<Text>,
    matches: &Option<TextTest>,
    kept: &mut RefList,
    v: &Text,
    steps: &mut Steps<L>,
) -> Result<(), NoMemory>
    requires so { IsSo (K.facts look.now) known.old }
    ensures kept { OnOk result (kept.new ≡ kept.old ++ filter
        (is_candidate (K.facts look.now) value.now matches.now) (v.now ∷ [])) }
    ensures so { IsSo (K.facts look.now) known.new }
{
    if let Some(r) = candidate(look, known, value, matches, v, steps)? {
        kept.push(r)?;
    }
    Ok(())
}

// The ready refs among some values, of those that meet what is asked of them by themselves.
pub(crate) fn candidates<K: Look, L: Ledger>(
    alloc: Global,
    look: &K,
    known: &mut Known,
    value: &Option<Text>,
    matches: &Option<TextTest>,
    found: &[Text],
    steps: &mut Steps<L>,
) -> Result<RefList, NoMemory>
    requires so { IsSo (K.facts look.now) known.old }
    ensures refs { IfOk result (λ refs. refs
        ≡ filter (is_candidate (K.facts look.now) value.now matches.now) found.now) }
    ensures so { IsSo (K.facts look.now) known.new }
{
    let mut kept = RefList::empty(alloc);
    for v in found {
        keep_candidate(look, known, value, matches, &mut kept, v, steps)?;
    }
    Ok(kept)
}

// The refs among the values of the attribute of which one is to be in the set.
#[tactic(auto, unfolding(crate::specs::Computed::set_refs))]
fn set_refs<K: Look, L: Ledger>(
    alloc: Global,
    look: &K,
    known: &mut Known,
    test: &PermanodeTest,
    attr: &str,
    when: &When,
    r: &Ref,
    steps: &mut Steps<L>,
) -> Result<RefList, NoMemory>
    requires so { IsSo (K.facts look.now) known.old }
    ensures refs { IfOk result (λ refs. refs ≡ set_refs (K.facts look.now) (K.accepts look.now)
        (test_leaves_of (out-PermanodeTest test.now)) when.now attr.now r.now) }
    ensures so { IsSo (K.facts look.now) known.new }
{
    if !is_live(look, r, when, steps) {
        return Ok(RefList::empty(alloc));
    }
    let found = look.values(r, attr, when, steps)?;
    if !int_meets(&test.num_value, found.len() as u64) {
        return Ok(RefList::empty(alloc));
    }
    candidates(
        alloc,
        look,
        known,
        &test.value,
        &test.value_matches,
        found.as_slice(),
        steps,
    )
}

// The same for each ref.
pub(crate) fn set_links<K: Look, L: Ledger>(
    alloc: Global,
    look: &K,
    test: &PermanodeTest,
    attr: &str,
    when: &When,
    refs: &[Ref],
    steps: &mut Steps<L>,
) -> Result<Vec<RefList>, NoMemory>
    ensures { IfOk result (λ l. l.items ≡ map (set_refs (K.facts look.now) (K.accepts look.now)
        (test_leaves_of (out-PermanodeTest test.now)) when.now attr.now) refs.now) }
{
    let mut known = Known::nothing(alloc);
    let mut out = Vec::new(alloc);
    for r in refs {
        let found = set_refs(alloc, look, &mut known, test, attr, when, r, steps)?;
        out.push(found)?;
    }
    Ok(out)
}
