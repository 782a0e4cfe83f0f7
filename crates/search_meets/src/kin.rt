//! The children and the parents of refs.
ghost use Rattle.std.specs.Prelude.{◌≡◌, IfOk, Some, map};
ghost use Rattle.index_look.specs.Known.{IsSo};
ghost use Rattle.search_query.specs.declared.query.Kin.TheVariants.{Child};
ghost use Rattle.search_meets.specs.Values.{kin_of};

use crate::parents::parent_links;
use crate::valuing::candidates;
use blobref::{NoMemory, Ref, RefList};
use edge_base::Steps;
use index_look::{Known, Look};
use schema_date::When;
use search_query::Kin;
use std::alloc::Global;
use std::sync::ledger::Ledger;

// The ready refs among the members.
fn children<K: Look, L: Ledger>(
    alloc: Global,
    look: &K,
    known: &mut Known,
    when: &When,
    r: &Ref,
    steps: &mut Steps<L>,
) -> Result<RefList, NoMemory>
    requires so { IsSo (K.facts look.now) known.old }
    ensures refs { IfOk result (λ refs. refs
        ≡ kin_of (K.facts look.now) (K.accepts look.now) (Some Child) when.now r.now) }
    ensures so { IsSo (K.facts look.now) known.new }
{
    let members = look.values(r, "camliMember", when, steps)?;
    candidates(alloc, look, known, &None, &None, members.as_slice(), steps)
}

fn kin_of<K: Look, L: Ledger>(
    alloc: Global,
    look: &K,
    known: &mut Known,
    kin: Option<Kin>,
    when: &When,
    r: &Ref,
    steps: &mut Steps<L>,
) -> Result<RefList, NoMemory>
    requires so { IsSo (K.facts look.now) known.old }
    ensures refs { IfOk result (λ refs. refs ≡ kin_of (K.facts look.now) (K.accepts look.now) kin when.now r.now) }
    ensures so { IsSo (K.facts look.now) known.new }
{
    match kin {
        None => Ok(RefList::empty(alloc)),
        Some(Kin::Parent) => look.parents(r, when, steps),
        Some(Kin::Child) => children(alloc, look, known, when, r, steps),
    }
}

// The children or the parents of each ref, looked for one after another.
fn each_kin<K: Look, L: Ledger>(
    alloc: Global,
    look: &K,
    kin: Option<Kin>,
    when: &When,
    refs: &[Ref],
    steps: &mut Steps<L>,
) -> Result<Vec<RefList>, NoMemory>
    ensures { IfOk result (λ l. l.items ≡ map (kin_of (K.facts look.now) (K.accepts look.now) kin when.now) refs.now) }
{
    let mut known = Known::nothing(alloc);
    let mut out = Vec::new(alloc);
    for r in refs {
        out.push(kin_of(alloc, look, &mut known, kin, when, r, steps)?)?;
    }
    Ok(out)
}

// The children or the parents of each ref. By claims of every date an index has the parents of a ref at hand. At a date
// it looks for them among the members of all permanodes, so these are gone through once for all of the refs.
pub(crate) fn kin_links<K: Look, L: Ledger>(
    alloc: Global,
    look: &K,
    kin: Option<Kin>,
    when: &When,
    refs: &[Ref],
    steps: &mut Steps<L>,
) -> Result<Vec<RefList>, NoMemory>
    ensures { IfOk result (λ l. l.items ≡ map (kin_of (K.facts look.now) (K.accepts look.now) kin when.now) refs.now) }
{
    match (kin, when) {
        (Some(Kin::Parent), When::At(_)) => parent_links(alloc, look, when, refs, steps),
        _ => each_kin(alloc, look, kin, when, refs, steps),
    }
}
