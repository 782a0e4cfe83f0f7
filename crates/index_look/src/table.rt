//! Tables of facts.
ghost use Rattle.std.specs.Prelude.{◌≡◌, ◌≤◌, ◌+◌, ℕ, IfSome, option_copied};
ghost use Rattle.std.specs.FinMap.{get};
ghost use Rattle.schema_fact.specs.Validity.{IsValid};
ghost use Rattle.claim_model.specs.Facts.{Facts};
ghost use Rattle.index_look.specs.Walk.{ref_after};

use blobref::Ref;
use edge_base::Steps;
use schema_fact::Fact;
use std::sync::ledger::Ledger;

/// Facts under their refs, in the order of these. `steps` counts the look-ups, and the steps from one ref to the next.
pub trait FactTable {
    /// The facts, under their refs.
    ghost facts: { Self → Facts };

    /// How many of them stand in no order: a call may look at each of these too.
    ghost loose: { Self → ℕ };

    /// The fact of a ref, and `None` exactly where the table has none. The fact is valid.
    fn fact_at<L: Ledger>(&self, r: &Ref, steps: &mut Steps<L>) -> Option<&Fact>
        ensures value { option_copied result ≡ get (facts self.now) r.now }
        ensures valid { IfSome result (λ fact. IsValid fact.now) }
        ensures ticks { steps.new ≤ steps.old + 1 + loose self.now };

    /// The least ref greater than `after`, or of all where `after` is `None`; `None` exactly where there is none.
    fn fact_after<L: Ledger>(&self, after: Option<&Ref>, steps: &mut Steps<L>) -> Option<Ref>
        ensures value { result ≡ ref_after (facts self.now) (option_copied after.entry) }
        ensures ticks { steps.new ≤ steps.old + 1 + loose self.now };
}
