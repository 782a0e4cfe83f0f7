//! The work that is left after refs were judged: delete claims are entered, and permanodes looked at again.
ghost use Rattle.std.specs.Prelude.{◌≡◌, ◌≤◌, ◌+◌, ◌*◌, ◌∷◌, ◌++◌, [], ℕ, List, length, IfSome, OnOk};
ghost use Rattle.std.specs.List.{flat_map, sum_by};
ghost use Rattle.std.specs.FinMap.{contains_key};
ghost use Rattle.claim_verify.specs.Verifier.{Accepts};
ghost use Rattle.delete_claims.specs.Entered.{IsNewDelete};
ghost use Rattle.index_rows.specs.Counted.{IsCounted};
ghost use Rattle.claim_index.specs.Costs.{all_concerned, enter_steps, finish_steps, refolds_steps};
ghost use Rattle.claim_index.specs.Costs.{AddsEntered, AreTaken, EntersWithin, IsCovered};
ghost use Rattle.claim_index.specs.Following.{CanBeSettled};
ghost use Rattle.claim_index.specs.Halfway.{IsHalfway, CanBeFinished};
ghost use Rattle.index_meaning.specs.Touching.{concerned_by};

use crate::following::settle_or_concern;
use crate::touching::concern;
use crate::work::Work;
use attr_fold::refold;
use blobref::{NoMemory, Ref, RefList, RefSet};
use delete_claims::enter;
use edge_base::Steps;
use index_rows::Rows;
use std::alloc::Global;
use std::sync::ledger::Ledger;

// Does the work that is left. If there is no memory, the facts are unchanged and the other tables may be anything.
pub(crate) fn finish<L: Ledger>(
    alloc: Global,
    rows: &mut Rows,
    work: Work,
    steps: &mut Steps<L>,
) -> Result<(), NoMemory>
    requires finished { CanBeFinished work.deletes work.concerned rows.old }
    requires able { CanBeSettled rows.old }
    ensures facts { rows.new.facts ≡ rows.old.facts }
    ensures taken { OnOk result ((y : List ℕ) → contains_key rows.new.state y ≡ contains_key rows.old.state y) }
    ensures halfway { OnOk result ((accepts : Accepts)
        → IsHalfway accepts [] work.deletes work.concerned rows.old → IsHalfway accepts [] [] [] rows.new) }
    ensures ticks { (accepts : Accepts) (heads changed : List (List ℕ))
        → IsHalfway accepts [] work.deletes work.concerned rows.old → AreTaken rows.old
        → IsCovered rows.old.facts.ordered accepts
        (all_concerned rows.old.facts.ordered accepts work.deletes work.concerned) heads changed
        → steps.new ≤ steps.old + finish_steps rows.old.facts.ordered accepts work.deletes heads changed }
{
    let Work {
        deletes,
        mut concerned,
    } = work;
    enter_work(alloc, rows, deletes.as_slice(), &mut concerned, steps)?;
    refold_all(alloc, rows, concerned, steps)
}

// Enters delete claims. If there is only one, and no permanode is concerned yet, its effect is written at once, if that
// is enough.
fn enter_work<L: Ledger>(
    alloc: Global,
    rows: &mut Rows,
    deletes: &[Ref],
    concerned: &mut RefList,
    steps: &mut Steps<L>,
) -> Result<(), NoMemory>
    requires finished { CanBeFinished deletes.now concerned.old rows.old }
    requires able { CanBeSettled rows.old }
    ensures facts { rows.new.facts ≡ rows.old.facts }
    ensures taken { OnOk result ((y : List ℕ) → contains_key rows.new.state y ≡ contains_key rows.old.state y) }
    ensures finished { OnOk result (CanBeFinished [] concerned.new rows.new) }
    ensures halfway { OnOk result ((accepts : Accepts)
        → IsHalfway accepts [] deletes.now concerned.old rows.old → IsHalfway accepts [] [] concerned.new rows.new) }
    ensures adds { OnOk result ((accepts : Accepts)
        → IsHalfway accepts [] deletes.now concerned.old rows.old → AreTaken rows.old
        → AddsEntered rows.old.facts.ordered accepts deletes.now concerned.old concerned.new) }
    ensures ticks { (accepts : Accepts) (heads changed : List (List ℕ))
        → IsHalfway accepts [] deletes.now concerned.old rows.old → AreTaken rows.old
        → IsCovered rows.old.facts.ordered accepts
        (all_concerned rows.old.facts.ordered accepts deletes.now concerned.old) heads changed
        → steps.new ≤ steps.old + finish_steps rows.old.facts.ordered accepts deletes.now heads changed }
    ensures within { OnOk result ((accepts : Accepts) (heads changed : List (List ℕ))
        → IsHalfway accepts [] deletes.now concerned.old rows.old → AreTaken rows.old
        → IsCovered rows.old.facts.ordered accepts
        (all_concerned rows.old.facts.ordered accepts deletes.now concerned.old) heads changed
        → EntersWithin rows.old.facts.ordered accepts deletes.now concerned.new heads changed steps.old steps.new) }
{
    match only(deletes, concerned.as_slice()) {
        Some(d) => enter_alone(alloc, rows, d, concerned, steps),
        None => enter_all(alloc, rows, deletes, concerned, steps),
    }
}

// The delete claim, if there is only one, and no permanode is concerned yet.
fn only<'a>(deletes: &'a [Ref], concerned: &[Ref]) -> Option<&'a Ref>
    ensures { IfSome result (λ d. (deletes.now ≡ d.now ∷ []) × (concerned.now ≡ [])) }
{
    if !concerned.is_empty() {
        return None;
    }
    if deletes.len() != 1 {
        return None;
    }
    Some(&deletes[0])
}

// Enters a delete claim. If the last claim whose deletion changes adds a value, the row of that value is written at
// once; otherwise the permanodes that it concerns are appended to the list. All refs before it whose deletion changes
// are delete claims, which concern none.
fn enter_alone<L: Ledger>(
    alloc: Global,
    rows: &mut Rows,
    d: &Ref,
    concerned: &mut RefList,
    steps: &mut Steps<L>,
) -> Result<(), NoMemory>
    requires finished { CanBeFinished (d.now ∷ []) concerned.old rows.old }
    requires able { CanBeSettled rows.old }
    requires none { concerned.old ≡ [] }
    ensures facts { rows.new.facts ≡ rows.old.facts }
    ensures taken { OnOk result ((y : List ℕ) → contains_key rows.new.state y ≡ contains_key rows.old.state y) }
    ensures finished { OnOk result (CanBeFinished [] concerned.new rows.new) }
    ensures halfway { OnOk result ((accepts : Accepts)
        → IsHalfway accepts [] (d.now ∷ []) concerned.old rows.old → IsHalfway accepts [] [] concerned.new rows.new) }
    ensures adds { OnOk result ((accepts : Accepts)
        → IsHalfway accepts [] (d.now ∷ []) concerned.old rows.old → AreTaken rows.old
        → AddsEntered rows.old.facts.ordered accepts (d.now ∷ []) concerned.old concerned.new) }
    ensures ticks { (accepts : Accepts) (heads changed : List (List ℕ))
        → IsHalfway accepts [] (d.now ∷ []) concerned.old rows.old → AreTaken rows.old
        → IsCovered rows.old.facts.ordered accepts
        (all_concerned rows.old.facts.ordered accepts (d.now ∷ []) concerned.old) heads changed
        → steps.new ≤ steps.old + finish_steps rows.old.facts.ordered accepts (d.now ∷ []) heads changed }
    ensures within { OnOk result ((accepts : Accepts) (heads changed : List (List ℕ))
        → IsHalfway accepts [] (d.now ∷ []) concerned.old rows.old → AreTaken rows.old
        → IsCovered rows.old.facts.ordered accepts
        (all_concerned rows.old.facts.ordered accepts (d.now ∷ []) concerned.old) heads changed
        → EntersWithin rows.old.facts.ordered accepts (d.now ∷ []) concerned.new heads changed steps.old steps.new) }
{
    let changed = enter(alloc, rows, d, steps)?;
    let Some((last, front)) = changed.as_slice().split_last() else {
        return Ok(());
    };
    concern_all(rows, front, concerned, steps)?;
    settle_or_concern(alloc, rows, last, concerned, steps)
}

// Enters delete claims, the last one first, so that a chain that became ready at once takes time in its length.
fn enter_all<L: Ledger>(
    alloc: Global,
    rows: &mut Rows,
    deletes: &[Ref],
    concerned: &mut RefList,
    steps: &mut Steps<L>,
) -> Result<(), NoMemory>
    requires { CanBeFinished deletes.now concerned.old rows.old }
    ensures facts { rows.new.facts ≡ rows.old.facts }
    ensures taken { OnOk result ((y : List ℕ) → contains_key rows.new.state y ≡ contains_key rows.old.state y) }
    ensures finished { OnOk result (CanBeFinished [] concerned.new rows.new) }
    ensures halfway { OnOk result ((accepts : Accepts)
        → IsHalfway accepts [] deletes.now concerned.old rows.old → IsHalfway accepts [] [] concerned.new rows.new) }
    ensures adds { OnOk result ((accepts : Accepts)
        → IsHalfway accepts [] deletes.now concerned.old rows.old → AreTaken rows.old
        → AddsEntered rows.old.facts.ordered accepts deletes.now concerned.old concerned.new) }
    ensures ticks { (accepts : Accepts)
        → IsHalfway accepts [] deletes.now concerned.old rows.old → AreTaken rows.old
        → steps.new ≤ steps.old + sum_by (enter_steps rows.old.facts.ordered accepts) deletes.now }
{
    'claims: for i in (0..deletes.len()).rev() {
        enter_one(alloc, rows, &deletes[i], concerned, steps)?;
    }
    Ok(())
}

// Enters a delete claim, and appends the permanodes that it concerns to the list.
fn enter_one<L: Ledger>(
    alloc: Global,
    rows: &mut Rows,
    d: &Ref,
    concerned: &mut RefList,
    steps: &mut Steps<L>,
) -> Result<(), NoMemory>
    requires counted { IsCounted rows.old.facts.ordered rows.old.deletes rows.old.state }
    requires fresh { IsNewDelete rows.old.facts.ordered rows.old.deletes rows.old.state d.now }
    ensures facts { rows.new.facts ≡ rows.old.facts }
    ensures taken { OnOk result ((y : List ℕ) → contains_key rows.new.state y ≡ contains_key rows.old.state y) }
    ensures finished { OnOk result ((others : List (List ℕ))
        → CanBeFinished (others ++ d.now ∷ []) concerned.old rows.old → CanBeFinished others concerned.new rows.new) }
    ensures halfway { OnOk result ((accepts : Accepts) (others : List (List ℕ))
        → IsHalfway accepts [] (others ++ d.now ∷ []) concerned.old rows.old
        → IsHalfway accepts [] others concerned.new rows.new) }
    ensures adds { OnOk result ((accepts : Accepts) (others : List (List ℕ))
        → IsHalfway accepts [] (others ++ d.now ∷ []) concerned.old rows.old → AreTaken rows.old
        → AddsEntered rows.old.facts.ordered accepts (d.now ∷ []) concerned.old concerned.new) }
    ensures ticks { (accepts : Accepts) (others : List (List ℕ))
        → IsHalfway accepts [] (others ++ d.now ∷ []) concerned.old rows.old → AreTaken rows.old
        → steps.new ≤ steps.old + enter_steps rows.old.facts.ordered accepts d.now }
{
    let changed = enter(alloc, rows, d, steps)?;
    concern_all(rows, changed.as_slice(), concerned, steps)
}

// Appends the permanodes that these refs concern to the list.
fn concern_all<L: Ledger>(
    rows: &Rows,
    changed: &[Ref],
    concerned: &mut RefList,
    steps: &mut Steps<L>,
) -> Result<(), NoMemory>
    ensures added { OnOk result
        (concerned.new ≡ concerned.old ++ flat_map (concerned_by rows.now.facts.ordered rows.now.state) changed.now) }
    ensures ticks { steps.new ≤ steps.old + 2 * length changed.now }
{
    for y in changed {
        concern(rows, y, concerned, steps)?;
    }
    Ok(())
}

// Looks at permanodes again, each once.
fn refold_all<L: Ledger>(
    alloc: Global,
    rows: &mut Rows,
    concerned: RefList,
    steps: &mut Steps<L>,
) -> Result<(), NoMemory>
    requires { CanBeFinished [] concerned rows.old }
    ensures facts { rows.new.facts ≡ rows.old.facts }
    ensures taken { OnOk result ((y : List ℕ) → contains_key rows.new.state y ≡ contains_key rows.old.state y) }
    ensures halfway { OnOk result ((accepts : Accepts)
        → IsHalfway accepts [] [] concerned rows.old → IsHalfway accepts [] [] [] rows.new) }
    ensures ticks { (accepts : Accepts) (heads changed : List (List ℕ)) → IsHalfway accepts [] [] concerned rows.old
        → AreTaken rows.old → IsCovered rows.old.facts.ordered accepts concerned heads changed
        → steps.new ≤ steps.old + refolds_steps rows.old.facts.ordered accepts heads changed }
{
    let refs = RefSet::of(concerned)?;
    for p in refs.as_slice() {
        refold(alloc, rows, p, steps)?;
    }
    Ok(())
}
