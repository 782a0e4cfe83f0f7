//! Steps from one fact of a table to the next.
ghost use Rattle.std.specs.Prelude.{◌≡◌, ◌∷◌, [], Some, IfSome, IfNone, option_copied};
ghost use Rattle.index_look.specs.Walk.{entries_after};

use blobref::Ref;
use edge_base::Steps;
use index_look::FactTable;
use schema_fact::Fact;
use std::sync::ledger::Ledger;

// The least ref greater than `after`, with its fact.
pub(crate) fn entry_after<'a, T: FactTable, L: Ledger>(
    table: &'a T,
    after: Option<&Ref>,
    steps: &mut Steps<L>,
) -> Option<(Ref, &'a Fact)>
    ensures next { IfSome result (λ e.
        entries_after (T.facts table.now) (option_copied after.entry) ≡ (e.0, e.1.now) ∷ entries_after (T.facts table.now) (Some e.0)) }
    ensures last { IfNone result (entries_after (T.facts table.now) (option_copied after.entry) ≡ []) }
{
    let r = table.fact_after(after, steps)?;
    let fact = table.fact_at(&r, steps)?;
    Some((r, fact))
}
