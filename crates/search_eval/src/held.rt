//! What a search begins from: the permanodes that hold a value which its constraint asks for.
ghost use Rattle.std.specs.Prelude.{◌≡◌, ◌≤◌, ◌+◌, IfOk, None, Some};
ghost use Rattle.search_query.specs.View.{asked_view, is_asked, leaves_of, logical_seen, logical_view, permanode_seen};
ghost use Rattle.search_query.specs.View.{relation_seen, test_leaves_of, view};
ghost use Rattle.search_query.specs.declared.query.Constraint.TheViews.{out-Constraint, out-Logical, out-PermanodeTest};
ghost use Rattle.search_eval.specs.Held.{asks_no_more, asks_nothing, few_or_shorter, held, held_at, held_by_logical};
ghost use Rattle.search_eval.specs.Held.{held_by_test, held_steps, holding, is_few, is_plain, is_plain_test};
ghost use Rattle.search_eval.specs.Held.{is_unjoined, is_unrelated, list_steps, logical_steps, shorter};

use blobref::{NoMemory, RefList, Text};
use edge_base::Steps;
use index_look::Look;
use schema_date::{Date, When};
use search_query::{Constraint, Logical, Op, PermanodeTest, Relation};
use std::sync::ledger::Ledger;

// So many holders are asked without a look at whether another value has fewer.
const FEW: usize = 1_024;

// The permanodes among which those that meet the constraint are, by claims of every date, ascending, where it asks for
// a value of an attribute: at a date there are none. Of two values that are to be held together it takes the one that
// fewer hold.
pub(crate) fn held_at<K: Look, L: Ledger>(
    look: &K,
    constraint: &Constraint,
    when: &When,
    steps: &mut Steps<L>,
) -> Result<Option<RefList>, NoMemory>
    ensures refs { IfOk result (λ refs. refs
        ≡ held_at (K.facts look.now) (K.accepts look.now) when.now (view constraint.now)) }
    ensures ticks { K.quick look.now → steps.new
        ≤ steps.old + held_steps (K.facts look.now) (K.accepts look.now) (view constraint.now) }
{
    match when {
        When::Always => held(look, constraint, steps),
        When::At(_) => Ok(None),
    }
}

#[cycle(held)]
fn held<K: Look, L: Ledger>(
    look: &K,
    constraint: &Constraint,
    steps: &mut Steps<L>,
) -> Result<Option<RefList>, NoMemory>
    ensures refs { IfOk result (λ refs. refs
        ≡ held (K.facts look.now) (K.accepts look.now) (view constraint.now)) }
    ensures ticks { K.quick look.now → steps.new
        ≤ steps.old + held_steps (K.facts look.now) (K.accepts look.now) (view constraint.now) }
{
    let own = held_by_test(look, &constraint.permanode, steps)?;
    if is_few(&own) {
        return Ok(own);
    }
    let joined = held_by_logical(look, &constraint.logical, steps)?;
    Ok(shorter(own, joined))
}

#[cycle(held)]
fn held_by_logical<K: Look, L: Ledger>(
    look: &K,
    logical: &Option<Logical>,
    steps: &mut Steps<L>,
) -> Result<Option<RefList>, NoMemory>
    ensures refs { IfOk result (λ refs. refs
        ≡ held_by_logical (K.facts look.now) (K.accepts look.now) (logical_seen logical.now)) }
    ensures ticks { K.quick look.now → steps.new
        ≤ steps.old + logical_steps (K.facts look.now) (K.accepts look.now) (logical_seen logical.now) }
{
    match logical {
        None => Ok(None),
        Some(logical) => held_by_op(look, logical, steps),
    }
}

#[cycle(held)]
fn held_by_op<K: Look, L: Ledger>(
    look: &K,
    logical: &Logical,
    steps: &mut Steps<L>,
) -> Result<Option<RefList>, NoMemory>
    ensures refs { IfOk result (λ refs. refs
        ≡ held_by_logical (K.facts look.now) (K.accepts look.now) (logical_view logical.now)) }
    ensures ticks { K.quick look.now → steps.new
        ≤ steps.old + logical_steps (K.facts look.now) (K.accepts look.now) (logical_view logical.now) }
{
    match logical.op {
        Some(Op::And) => held_by_both(look, logical, steps),
        _ => Ok(None),
    }
}

// The same of two constraints that hold together.
#[cycle(held)]
fn held_by_both<K: Look, L: Ledger>(
    look: &K,
    logical: &Logical,
    steps: &mut Steps<L>,
) -> Result<Option<RefList>, NoMemory>
    ensures refs { IfOk result (λ refs. refs ≡ few_or_shorter
        (held (K.facts look.now) (K.accepts look.now) (asked_view (out-Logical logical.now).a))
        (held (K.facts look.now) (K.accepts look.now) (asked_view (out-Logical logical.now).b))) }
    ensures ticks { K.quick look.now → steps.new ≤ steps.old
        + (held_steps (K.facts look.now) (K.accepts look.now) (asked_view (out-Logical logical.now).a)
        + held_steps (K.facts look.now) (K.accepts look.now) (asked_view (out-Logical logical.now).b)) }
{
    let a = held_by_asked(look, &logical.a, steps)?;
    if is_few(&a) {
        return Ok(a);
    }
    let b = held_by_asked(look, &logical.b, steps)?;
    Ok(shorter(a, b))
}

#[cycle(held)]
fn held_by_asked<K: Look, L: Ledger>(
    look: &K,
    asked: &Option<Box<Constraint>>,
    steps: &mut Steps<L>,
) -> Result<Option<RefList>, NoMemory>
    ensures refs { IfOk result (λ refs. refs
        ≡ held (K.facts look.now) (K.accepts look.now) (asked_view asked.now)) }
    ensures ticks { K.quick look.now → steps.new
        ≤ steps.old + held_steps (K.facts look.now) (K.accepts look.now) (asked_view asked.now) }
{
    match asked {
        None => Ok(None),
        Some(constraint) => held(look, constraint, steps),
    }
}

fn held_by_test<K: Look, L: Ledger>(
    look: &K,
    test: &Option<PermanodeTest>,
    steps: &mut Steps<L>,
) -> Result<Option<RefList>, NoMemory>
    ensures refs { IfOk result (λ refs. refs
        ≡ held_by_test (K.facts look.now) (K.accepts look.now) (permanode_seen test.now)) }
    ensures ticks { K.quick look.now → steps.new ≤ steps.old
        + list_steps (held_by_test (K.facts look.now) (K.accepts look.now) (permanode_seen test.now)) }
{
    match test {
        None => Ok(None),
        Some(test) => holding(look, &test.at, &test.attr, &test.value, steps),
    }
}

// The permanodes that hold the value of the attribute, where both are named, and no date.
fn holding<K: Look, L: Ledger>(
    look: &K,
    at: &Option<Date>,
    attr: &Option<Text>,
    value: &Option<Text>,
    steps: &mut Steps<L>,
) -> Result<Option<RefList>, NoMemory>
    ensures refs { IfOk result (λ refs. refs
        ≡ holding (K.facts look.now) (K.accepts look.now) at.now attr.now value.now) }
    ensures ticks { K.quick look.now → steps.new ≤ steps.old
        + list_steps (holding (K.facts look.now) (K.accepts look.now) at.now attr.now value.now) }
{
    match at {
        Some(_) => Ok(None),
        None => match attr {
            None => Ok(None),
            Some(attr) => holders(look, attr.as_str(), value, steps),
        },
    }
}

// The permanodes that hold the value of the attribute, where it is named.
fn holders<K: Look, L: Ledger>(
    look: &K,
    attr: &str,
    value: &Option<Text>,
    steps: &mut Steps<L>,
) -> Result<Option<RefList>, NoMemory>
    ensures refs { IfOk result (λ refs. refs
        ≡ holding (K.facts look.now) (K.accepts look.now) None (Some attr.now) value.now) }
    ensures ticks { K.quick look.now → steps.new ≤ steps.old
        + list_steps (holding (K.facts look.now) (K.accepts look.now) None (Some attr.now) value.now) }
{
    match value {
        None => Ok(None),
        Some(value) => Ok(Some(look.holders(attr, value.as_str(), steps)?)),
    }
}

fn is_few(held: &Option<RefList>) -> bool
    ensures { result ≡ is_few held.now }
{
    match held {
        None => false,
        Some(refs) => refs.len() <= FEW,
    }
}

fn shorter(a: Option<RefList>, b: Option<RefList>) -> Option<RefList>
    ensures { result ≡ shorter a b }
{
    let Some(a) = a else {
        return b;
    };
    let Some(b) = b else {
        return Some(a);
    };
    if a.len() <= b.len() { Some(a) } else { Some(b) }
}

// Whether each permanode that the constraint begins from meets it: it asks for that value and nothing else.
pub(crate) fn is_plain(constraint: &Constraint) -> bool
    ensures { result ≡ is_plain (view constraint.now) }
{
    is_unjoined(&constraint.logical)
        && asks_nothing(constraint)
        && is_plain_test(&constraint.permanode)
}

fn is_unjoined(logical: &Option<Logical>) -> bool
    ensures { result ≡ is_unjoined (logical_seen logical.now) }
{
    match logical {
        None => true,
        Some(_) => false,
    }
}

fn asks_nothing(constraint: &Constraint) -> bool
    ensures { result ≡ asks_nothing (leaves_of (out-Constraint constraint.now)) }
{
    constraint.camli_type.is_none()
        && constraint.blob_ref_prefix.is_none()
        && constraint.blob_size.is_none()
        && constraint.file.is_none()
}

fn is_plain_test(test: &Option<PermanodeTest>) -> bool
    ensures { result ≡ is_plain_test (permanode_seen test.now) }
{
    match test {
        None => false,
        Some(test) => asks_no_more(test)
            && !is_asked(&test.value_in_set)
            && is_unrelated(&test.relation),
    }
}

fn asks_no_more(test: &PermanodeTest) -> bool
    ensures { result ≡ asks_no_more (test_leaves_of (out-PermanodeTest test.now)) }
{
    test.value_matches.is_none() && test.num_value.is_none()
}

fn is_asked(asked: &Option<Box<Constraint>>) -> bool
    ensures { result ≡ is_asked (asked_view asked.now) }
{
    asked.is_some()
}

fn is_unrelated(relation: &Option<Relation>) -> bool
    ensures { result ≡ is_unrelated (relation_seen relation.now) }
{
    match relation {
        None => true,
        Some(_) => false,
    }
}
