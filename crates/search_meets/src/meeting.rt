//! Which refs meet a constraint. Each part of it is asked once, of all the refs that it is in question for.
ghost use Rattle.std.specs.Prelude.{◌≡◌, IfOk, Some, filter, map};
ghost use Rattle.search_query.specs.View.{view, asked_view, is_asked, leaves_of, test_leaves_of};
ghost use Rattle.search_query.specs.View.{logical_view, logical_seen, permanode_view, permanode_seen};
ghost use Rattle.search_query.specs.View.{relation_view, relation_seen};
ghost use Rattle.search_query.specs.declared.query.Constraint.TheViews.{out-Constraint, out-PermanodeTest};
ghost use Rattle.search_meets.specs.Meaning.{leaves_meet, meets, meets_logical, meets_related, meets_tested};
ghost use Rattle.search_meets.specs.Values.{each_or_any, kin_meet, live_meets, where_asked};

use crate::kin::kin_links;
use crate::leaves::leaves_meet;
use crate::marks::{chosen, gathered, joined, said, spread, trues};
use crate::valuing::{live_marks, named_marks, set_links, time_of};
use blobref::{NoMemory, Ref, RefList, RefSet};
use edge_base::Steps;
use index_look::{Known, Look};
use schema_date::When;
use search_query::{Constraint, Logical, Op, PermanodeTest, Relation};
use std::alloc::Global;
use std::sync::ledger::Ledger;

/// Those of the refs that meet the constraint at that time, in their order (`docs/search.md`). `NoMemory` comes only
/// where no memory is left. `steps` counts the steps of the index.
///
/// Each part of the constraint is asked once of each ref that it is in question for: those given, and what the parts
/// around it lead to from there. So the time is at most that of (parts of the constraint) x (refs) x (values or parents
/// of a ref), however deep the constraint nests. Each part that asks for parents at a date, and not by claims of every
/// date, also goes once through all permanodes and their changes, however many refs it is in question for. An index that
/// has no table of what is ready or sound, as a stale one, keeps in memory what it finds to be so until that part has
/// been asked, and so comes to each such blob once for all of the refs.
pub fn met<K: Look, L: Ledger>(
    alloc: Global,
    look: &K,
    constraint: &Constraint,
    when: &When,
    refs: &[Ref],
    steps: &mut Steps<L>,
) -> Result<Vec<Ref>, NoMemory>
    ensures { IfOk result (λ m. m.items
        ≡ filter (meets (K.facts look.now) (K.accepts look.now) (view constraint.now) when.now) refs.now) }
{
    let marks = marks(alloc, look, constraint, when, refs, steps)?;
    chosen(alloc, refs, &marks)
}

// What a constraint says of each ref.
#[cycle(meets)]
fn marks<K: Look, L: Ledger>(
    alloc: Global,
    look: &K,
    constraint: &Constraint,
    when: &When,
    refs: &[Ref],
    steps: &mut Steps<L>,
) -> Result<Vec<bool>, NoMemory>
    ensures { IfOk result (λ m. m.items
        ≡ map (meets (K.facts look.now) (K.accepts look.now) (view constraint.now) when.now) refs.now) }
{
    let own = leaf_marks(alloc, look, constraint, refs, steps)?;
    let left = chosen(alloc, refs, &own)?;
    let joined = logical_marks(alloc, look, &constraint.logical, when, &left, steps)?;
    let both = spread(alloc, &own, &joined)?;
    let left = chosen(alloc, refs, &both)?;
    let tested = permanode_marks(alloc, look, &constraint.permanode, when, &left, steps)?;
    spread(alloc, &both, &tested)
}

fn leaf_marks<K: Look, L: Ledger>(
    alloc: Global,
    look: &K,
    constraint: &Constraint,
    refs: &[Ref],
    steps: &mut Steps<L>,
) -> Result<Vec<bool>, NoMemory>
    ensures { IfOk result (λ m. m.items
        ≡ map (leaves_meet (K.facts look.now) (leaves_of (out-Constraint constraint.now))) refs.now) }
{
    let mut known = Known::nothing(alloc);
    let mut out = Vec::new(alloc);
    for r in refs {
        out.push(leaves_meet(look, &mut known, constraint, r, steps)?)?;
    }
    Ok(out)
}

#[cycle(meets)]
fn logical_marks<K: Look, L: Ledger>(
    alloc: Global,
    look: &K,
    logical: &Option<Logical>,
    when: &When,
    refs: &[Ref],
    steps: &mut Steps<L>,
) -> Result<Vec<bool>, NoMemory>
    ensures { IfOk result (λ m. m.items
        ≡ map (meets_logical (K.facts look.now) (K.accepts look.now) (logical_seen logical.now) when.now) refs.now) }
{
    match logical {
        None => trues(alloc, refs),
        Some(logical) => joined_marks(alloc, look, logical, when, refs, steps),
    }
}

#[cycle(meets)]
fn joined_marks<K: Look, L: Ledger>(
    alloc: Global,
    look: &K,
    logical: &Logical,
    when: &When,
    refs: &[Ref],
    steps: &mut Steps<L>,
) -> Result<Vec<bool>, NoMemory>
    ensures { IfOk result (λ m. m.items
        ≡ map (meets_logical (K.facts look.now) (K.accepts look.now) (logical_view logical.now) when.now) refs.now) }
{
    let a = asked_marks(alloc, look, &logical.a, when, refs, steps)?;
    let b = asked_marks(alloc, look, &logical.b, when, refs, steps)?;
    joined(alloc, logical.op, &a, &b)
}

#[cycle(meets)]
fn asked_marks<K: Look, L: Ledger>(
    alloc: Global,
    look: &K,
    asked: &Option<Box<Constraint>>,
    when: &When,
    refs: &[Ref],
    steps: &mut Steps<L>,
) -> Result<Vec<bool>, NoMemory>
    ensures { IfOk result (λ m. m.items
        ≡ map (meets (K.facts look.now) (K.accepts look.now) (asked_view asked.now) when.now) refs.now) }
{
    match asked {
        None => trues(alloc, refs),
        Some(constraint) => marks(alloc, look, constraint, when, refs, steps),
    }
}

#[cycle(meets)]
fn permanode_marks<K: Look, L: Ledger>(
    alloc: Global,
    look: &K,
    test: &Option<PermanodeTest>,
    when: &When,
    refs: &[Ref],
    steps: &mut Steps<L>,
) -> Result<Vec<bool>, NoMemory>
    ensures { IfOk result (λ m. m.items
        ≡ map (meets_tested (K.facts look.now) (K.accepts look.now) (permanode_seen test.now) when.now) refs.now) }
{
    match test {
        None => trues(alloc, refs),
        Some(test) => tested_marks(alloc, look, test, when, refs, steps),
    }
}

#[cycle(meets)]
fn tested_marks<K: Look, L: Ledger>(
    alloc: Global,
    look: &K,
    test: &PermanodeTest,
    when: &When,
    refs: &[Ref],
    steps: &mut Steps<L>,
) -> Result<Vec<bool>, NoMemory>
    ensures { IfOk result (λ m. m.items
        ≡ map (meets_tested (K.facts look.now) (K.accepts look.now) (permanode_view test.now) when.now) refs.now) }
{
    let time = time_of(&test.at, when);
    let valued = valued_marks(alloc, look, test, &time, refs, steps)?;
    let left = chosen(alloc, refs, &valued)?;
    let related = related_marks(alloc, look, &test.relation, &time, &left, steps)?;
    spread(alloc, &valued, &related)
}

// Whether each ref is that of a permanode not deleted at that time whose values meet the test.
#[cycle(meets)]
fn valued_marks<K: Look, L: Ledger>(
    alloc: Global,
    look: &K,
    test: &PermanodeTest,
    when: &When,
    refs: &[Ref],
    steps: &mut Steps<L>,
) -> Result<Vec<bool>, NoMemory>
    ensures { IfOk result (λ m. m.items
        ≡ map (live_meets (K.facts look.now) (K.accepts look.now) (test_leaves_of (out-PermanodeTest test.now))
        (where_asked (is_asked (asked_view (out-PermanodeTest test.now).value_in_set))
        (meets (K.facts look.now) (K.accepts look.now) (asked_view (out-PermanodeTest test.now).value_in_set) when.now))
        when.now (out-PermanodeTest test.now).attr) refs.now) }
{
    match &test.attr {
        None => live_marks(alloc, look, when, refs, steps),
        Some(attr) => set_marks(alloc, look, test, attr.as_str(), when, refs, steps),
    }
}

// The same for a test that names an attribute.
#[cycle(meets)]
fn set_marks<K: Look, L: Ledger>(
    alloc: Global,
    look: &K,
    test: &PermanodeTest,
    attr: &str,
    when: &When,
    refs: &[Ref],
    steps: &mut Steps<L>,
) -> Result<Vec<bool>, NoMemory>
    ensures { IfOk result (λ m. m.items
        ≡ map (live_meets (K.facts look.now) (K.accepts look.now) (test_leaves_of (out-PermanodeTest test.now))
        (where_asked (is_asked (asked_view (out-PermanodeTest test.now).value_in_set))
        (meets (K.facts look.now) (K.accepts look.now) (asked_view (out-PermanodeTest test.now).value_in_set) when.now))
        when.now (Some attr.now)) refs.now) }
{
    match &test.value_in_set {
        None => named_marks(alloc, look, test, attr, when, refs, steps),
        Some(constraint) => {
            let links = set_links(alloc, look, test, attr, when, refs, steps)?;
            linked_marks(alloc, look, constraint, false, when, &links, steps)
        }
    }
}

#[cycle(meets)]
fn related_marks<K: Look, L: Ledger>(
    alloc: Global,
    look: &K,
    relation: &Option<Relation>,
    when: &When,
    refs: &[Ref],
    steps: &mut Steps<L>,
) -> Result<Vec<bool>, NoMemory>
    ensures { IfOk result (λ m. m.items
        ≡ map (meets_related (K.facts look.now) (K.accepts look.now) (relation_seen relation.now) when.now) refs.now) }
{
    match relation {
        None => trues(alloc, refs),
        Some(relation) => kin_marks(alloc, look, relation, when, refs, steps),
    }
}

#[cycle(meets)]
fn kin_marks<K: Look, L: Ledger>(
    alloc: Global,
    look: &K,
    relation: &Relation,
    when: &When,
    refs: &[Ref],
    steps: &mut Steps<L>,
) -> Result<Vec<bool>, NoMemory>
    ensures { IfOk result (λ m. m.items
        ≡ map (meets_related (K.facts look.now) (K.accepts look.now) (relation_view relation.now) when.now) refs.now) }
{
    let links = kin_links(alloc, look, relation.relation, when, refs, steps)?;
    let any = asked_links(alloc, look, &relation.any, false, when, &links, steps)?;
    let all = asked_links(alloc, look, &relation.all, true, when, &links, steps)?;
    joined(alloc, Some(Op::And), &any, &all)
}

// Whether each or any of the refs of each list meets a constraint, where it is asked.
#[cycle(meets)]
fn asked_links<K: Look, L: Ledger>(
    alloc: Global,
    look: &K,
    asked: &Option<Box<Constraint>>,
    each: bool,
    when: &When,
    links: &[RefList],
    steps: &mut Steps<L>,
) -> Result<Vec<bool>, NoMemory>
    ensures { IfOk result (λ m. m.items ≡ map (kin_meet each (where_asked (is_asked (asked_view asked.now))
        (meets (K.facts look.now) (K.accepts look.now) (asked_view asked.now) when.now))) links.now) }
{
    match asked {
        None => trues(alloc, links),
        Some(constraint) => linked_marks(alloc, look, constraint, each, when, links, steps),
    }
}

// The same. The constraint is asked once of each ref that stands in any of the lists.
#[cycle(meets)]
fn linked_marks<K: Look, L: Ledger>(
    alloc: Global,
    look: &K,
    constraint: &Constraint,
    each: bool,
    when: &When,
    links: &[RefList],
    steps: &mut Steps<L>,
) -> Result<Vec<bool>, NoMemory>
    ensures { IfOk result (λ m. m.items ≡ map (each_or_any each
        (meets (K.facts look.now) (K.accepts look.now) (view constraint.now) when.now)) links.now) }
{
    let refs = gathered(alloc, links)?;
    let marks = marks(alloc, look, constraint, when, refs.as_slice(), steps)?;
    let mut out = Vec::new(alloc);
    for linked in links {
        out.push(each_or_any(
            alloc,
            look,
            constraint,
            each,
            when,
            linked.as_slice(),
            &refs,
            &marks,
            steps,
        )?)?;
    }
    Ok(out)
}

// Whether each or any of the linked refs meets the constraint, of which the marks of some refs are given.
#[cycle(meets)]
fn each_or_any<K: Look, L: Ledger>(
    alloc: Global,
    look: &K,
    constraint: &Constraint,
    each: bool,
    when: &When,
    linked: &[Ref],
    refs: &RefSet,
    marks: &[bool],
    steps: &mut Steps<L>,
) -> Result<bool, NoMemory>
    requires { marks.now ≡ map (meets (K.facts look.now) (K.accepts look.now) (view constraint.now) when.now) refs.now }
    ensures { IfOk result (λ b. b ≡ each_or_any each
        (meets (K.facts look.now) (K.accepts look.now) (view constraint.now) when.now) linked.now) }
{
    for r in linked {
        if said_or_asked(alloc, look, constraint, when, r, refs, marks, steps)? != each {
            return Ok(!each);
        }
    }
    Ok(each)
}

// Whether a ref meets the constraint. It is asked only where no mark of it is given, which doesn't come.
#[cycle(meets)]
fn said_or_asked<K: Look, L: Ledger>(
    alloc: Global,
    look: &K,
    constraint: &Constraint,
    when: &When,
    r: &Ref,
    refs: &RefSet,
    given: &[bool],
    steps: &mut Steps<L>,
) -> Result<bool, NoMemory>
    requires { given.now ≡ map (meets (K.facts look.now) (K.accepts look.now) (view constraint.now) when.now) refs.now }
    ensures { IfOk result (λ b. b
        ≡ meets (K.facts look.now) (K.accepts look.now) (view constraint.now) when.now r.now) }
{
    match said(refs, given, r) {
        Some(b) => Ok(b),
        None => {
            let alone = marks(alloc, look, constraint, when, &[*r], steps)?;
            Ok(alone[0])
        }
    }
}
