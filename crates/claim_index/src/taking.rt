//! A ref that is taken up, and the refs that become ready by it.
ghost use Rattle.std.specs.Prelude.{◌≡◌, ◌≤◌, ◌+◌, ◌*◌, ◌||◌, ◌∷◌, [], ℕ, List, true, false, OnOk};
ghost use Rattle.std.specs.List.{sum_by};
ghost use Rattle.std.specs.Str.{bytes_eq};
ghost use Rattle.std.specs.FinMap.{contains_key};
ghost use Rattle.pending_deps.specs.Arriving.{IsNew};
ghost use Rattle.claim_index.specs.Costs.{look_steps, freed, taking_steps, AddsFor, AreTaken};
ghost use Rattle.claim_index.specs.Halfway.{IsHalfway, CanBeJudged, IsNextToJudge};
ghost use Rattle.claim_index.specs.Following.{AreFew, AreFewOn};
ghost use Rattle.claim_index.specs.Additions.{IsAddedAlone, IsLastToJudge, IsNoWork};

use crate::following::take_changes;
use crate::judging::{Judged, judge};
use crate::touching::concern;
use crate::work::Work;
use blobref::{NoMemory, Ref};
use claim_verify::Verifier;
use edge_base::Steps;
use index_rows::Rows;
use pending_deps::arrive;
use std::alloc::Global;
use std::sync::ledger::Ledger;

// Takes up a ref whose fact was put: the refs that become ready are judged, and the work that is left for them is added
// to `work`. If there is no memory, the facts are unchanged, and the other tables may be anything.
pub(crate) fn take_in<V: Verifier, L: Ledger>(
    alloc: Global,
    rows: &mut Rows,
    keys: &V,
    r: &Ref,
    work: &mut Work,
    steps: &mut Steps<L>,
) -> Result<(), NoMemory>
    requires halfway { IsHalfway (V.accepts keys.now) [] work.old.deletes work.old.concerned rows.old }
    requires fresh { IsNew rows.old.facts.ordered rows.old.state r.now }
    ensures facts { rows.new.facts ≡ rows.old.facts }
    ensures taken { OnOk result ((y : List ℕ)
        → contains_key rows.new.state y ≡ (bytes_eq y r.now || contains_key rows.old.state y)) }
    ensures halfway { OnOk result
        (IsHalfway (V.accepts keys.now) [] work.new.deletes work.new.concerned rows.new) }
    ensures adds { OnOk result (AddsFor rows.old.facts.ordered (V.accepts keys.now)
        (freed rows.old.facts.ordered rows.old.state r.now)
        work.old.deletes work.new.deletes work.old.concerned work.new.concerned) }
    ensures ticks { steps.new ≤ steps.old
        + taking_steps rows.old.facts.ordered (V.accepts keys.now) rows.old.state r.now }
{
    let order = arrive(alloc, rows, r, steps)?;
    judge_all(alloc, rows, keys, order.as_slice(), work, steps)
}

// Takes up a ref as `take_in` does, the last one whose fact was put. If it alone becomes ready, the effect of its
// change is written at once, if that is enough.
pub(crate) fn take_last<V: Verifier, L: Ledger>(
    alloc: Global,
    rows: &mut Rows,
    keys: &V,
    r: &Ref,
    work: &mut Work,
    steps: &mut Steps<L>,
) -> Result<(), NoMemory>
    requires halfway { IsHalfway (V.accepts keys.now) [] work.old.deletes work.old.concerned rows.old }
    requires fresh { IsNew rows.old.facts.ordered rows.old.state r.now }
    requires others { (y : List ℕ)
        → contains_key rows.old.facts.ordered y ≡ (bytes_eq y r.now || contains_key rows.old.state y) }
    ensures facts { rows.new.facts ≡ rows.old.facts }
    ensures taken { OnOk result ((y : List ℕ)
        → contains_key rows.new.state y ≡ (bytes_eq y r.now || contains_key rows.old.state y)) }
    ensures halfway { OnOk result
        (IsHalfway (V.accepts keys.now) [] work.new.deletes work.new.concerned rows.new) }
    ensures adds { OnOk result (AddsFor rows.old.facts.ordered (V.accepts keys.now)
        (freed rows.old.facts.ordered rows.old.state r.now)
        work.old.deletes work.new.deletes work.old.concerned work.new.concerned) }
    ensures ticks { (n : ℕ) → AreFewOn rows.old.facts.ordered (V.accepts keys.now)
        (freed rows.old.facts.ordered rows.old.state r.now) n
        → steps.new ≤ steps.old
        + taking_steps rows.old.facts.ordered (V.accepts keys.now) rows.old.state r.now + 8 + 4 * n }
    ensures idle { IsAddedAlone rows.old.facts.ordered (V.accepts keys.now) r.now
        → IsNoWork work.old.deletes work.old.concerned
        → OnOk result (IsNoWork work.new.deletes work.new.concerned) }
    ensures few_ticks { IsAddedAlone rows.old.facts.ordered (V.accepts keys.now) r.now
        → steps.new ≤ steps.old + 23 }
{
    let order = arrive(alloc, rows, r, steps)?;
    let refs = order.as_slice();
    if refs.len() == 1 {
        return judge_one(alloc, rows, keys, &refs[0], true, work, steps);
    }
    judge_all(alloc, rows, keys, refs, work, steps)
}

// Judges refs in their order.
fn judge_all<V: Verifier, L: Ledger>(
    alloc: Global,
    rows: &mut Rows,
    keys: &V,
    order: &[Ref],
    work: &mut Work,
    steps: &mut Steps<L>,
) -> Result<(), NoMemory>
    requires halfway { IsHalfway (V.accepts keys.now) order.now work.old.deletes work.old.concerned rows.old }
    requires reached { CanBeJudged order.now rows.old }
    ensures facts { rows.new.facts ≡ rows.old.facts }
    ensures taken { OnOk result ((y : List ℕ) → contains_key rows.new.state y ≡ contains_key rows.old.state y) }
    ensures halfway { OnOk result
        (IsHalfway (V.accepts keys.now) [] work.new.deletes work.new.concerned rows.new) }
    ensures adds { OnOk result (AddsFor rows.old.facts.ordered (V.accepts keys.now) order.now
        work.old.deletes work.new.deletes work.old.concerned work.new.concerned) }
    ensures ticks { steps.new ≤ steps.old + sum_by (look_steps rows.old.facts.ordered (V.accepts keys.now)) order.now }
{
    for x in order {
        judge_one(alloc, rows, keys, x, false, work, steps)?;
    }
    Ok(())
}

// Judges a ref, and adds the work that is left for it. If it alone became ready, the effect of its change is written at
// once, if that is enough.
fn judge_one<V: Verifier, L: Ledger>(
    alloc: Global,
    rows: &mut Rows,
    keys: &V,
    x: &Ref,
    alone: bool,
    work: &mut Work,
    steps: &mut Steps<L>,
) -> Result<(), NoMemory>
    requires { alone ≡ true
        → IsNextToJudge (V.accepts keys.now) x.now work.old.deletes work.old.concerned rows.old }
    ensures facts { rows.new.facts ≡ rows.old.facts }
    ensures taken { OnOk result ((y : List ℕ) → contains_key rows.new.state y ≡ contains_key rows.old.state y) }
    ensures halfway { OnOk result ((left : List (List ℕ))
        → IsHalfway (V.accepts keys.now) (x.now ∷ left) work.old.deletes work.old.concerned rows.old
        → CanBeJudged (x.now ∷ left) rows.old
        → IsHalfway (V.accepts keys.now) left work.new.deletes work.new.concerned rows.new) }
    ensures reached { OnOk result ((left : List (List ℕ))
        → IsHalfway (V.accepts keys.now) (x.now ∷ left) work.old.deletes work.old.concerned rows.old
        → CanBeJudged (x.now ∷ left) rows.old → CanBeJudged left rows.new) }
    ensures adds { OnOk result (AddsFor rows.old.facts.ordered (V.accepts keys.now) (x.now ∷ [])
        work.old.deletes work.new.deletes work.old.concerned work.new.concerned) }
    ensures ticks { alone ≡ false
        → steps.new ≤ steps.old + look_steps rows.old.facts.ordered (V.accepts keys.now) x.now }
    ensures more_ticks { IsHalfway (V.accepts keys.now) (x.now ∷ []) work.old.deletes work.old.concerned rows.old
        → CanBeJudged (x.now ∷ []) rows.old → AreTaken rows.old
        → (n : ℕ) → AreFew rows.old.facts.ordered (V.accepts keys.now) x.now n
        → steps.new ≤ steps.old + look_steps rows.old.facts.ordered (V.accepts keys.now) x.now + 8 + 4 * n }
    ensures idle { alone ≡ true
        → IsLastToJudge (V.accepts keys.now) x.now work.old.deletes work.old.concerned rows.old
        → IsNoWork work.old.deletes work.old.concerned
        → OnOk result (IsNoWork work.new.deletes work.new.concerned) }
    ensures few_ticks { alone ≡ true
        → IsLastToJudge (V.accepts keys.now) x.now work.old.deletes work.old.concerned rows.old
        → steps.new ≤ steps.old + 17 }
{
    match judge(rows, keys, x, steps)? {
        Judged::Nothing => Ok(()),
        Judged::Delete => work.deletes.push(*x),
        Judged::Permanode => concern(rows, x, &mut work.concerned, steps),
        Judged::Changes => take_changes(alloc, rows, x, alone, &mut work.concerned, steps),
    }
}
