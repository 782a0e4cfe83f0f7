//! What every index answers.
ghost use Rattle.std.specs.Prelude.{◌≡◌, ◌+◌, ◌*◌, ◌≤◌, length, IfOk, option_copied};
ghost use Rattle.claim_model.specs.Facts.{Facts};
ghost use Rattle.claim_model.specs.Genuine.{is_genuine_permanode};
ghost use Rattle.claim_model.specs.Ready.{ready_fact};
ghost use Rattle.claim_model.specs.Claims.{holders, last_change, parents, values};
ghost use Rattle.claim_model.specs.Deleted.{is_deleted};
ghost use Rattle.claim_model.specs.Trees.{file_size};
ghost use Rattle.claim_verify.specs.Verifier.{Accepts};
ghost use Rattle.index_look.specs.Known.{IsSo};
ghost use Rattle.index_look.specs.Look.{permanode_after};

use crate::known::Known;
use blobref::{NoMemory, Ref, RefList, TextList};
use edge_base::Steps;
use schema_date::{Date, When};
use schema_fact::Fact;
use std::sync::ledger::Ledger;

/// An index over facts under their refs, and what its keys accept. Whatever way it is kept, its answers are those of
/// the definitions over these two (`docs/claims.md`). `steps` counts the look-ups of rows and the steps from one row
/// to the next.
pub trait Look {
    /// The facts, under their refs.
    ghost facts: { Self → Facts };

    /// Which signatures the keys accept.
    ghost accepts: { Self → Accepts };

    /// Whether `holders` takes few steps.
    ghost quick: { Self → Type 0 };

    /// The fact of a ref, and `None` exactly where the ref isn't ready.
    fn fact_of<L: Ledger>(&self, r: &Ref, steps: &mut Steps<L>) -> Option<&Fact>
        ensures { option_copied result ≡ ready_fact (facts self.now) r.now };

    /// The same, for whoever asks for many refs in turn: an index that has no table of what is ready keeps what it finds
    /// in `known`, and comes to each blob once for all of them. `NoMemory` comes only where no memory is left.
    fn fact_known<L: Ledger>(
        &self,
        known: &mut Known,
        r: &Ref,
        steps: &mut Steps<L>,
    ) -> Result<Option<&Fact>, NoMemory>
        requires so { IsSo (facts self.now) known.old }
        ensures value { IfOk result (λ fact. option_copied fact ≡ ready_fact (facts self.now) r.now) }
        ensures so { IsSo (facts self.now) known.new };

    /// Whether the ref is that of a genuine permanode.
    fn is_permanode<L: Ledger>(&self, r: &Ref, steps: &mut Steps<L>) -> bool
        ensures { result ≡ is_genuine_permanode (facts self.now) (accepts self.now) r.now };

    /// The least genuine permanode greater than `after`, or of all where `after` is `None`.
    fn permanode_after<L: Ledger>(&self, after: Option<&Ref>, steps: &mut Steps<L>) -> Option<Ref>
        ensures { result ≡ permanode_after (facts self.now) (accepts self.now) (option_copied after.entry) };

    /// Whether the blob is deleted at that time.
    fn deleted<L: Ledger>(&self, r: &Ref, when: &When, steps: &mut Steps<L>) -> bool
        ensures { result ≡ is_deleted (facts self.now) (accepts self.now) when.now r.now };

    /// The values of an attribute of a permanode at that time. `NoMemory` comes only where no memory is left.
    fn values<L: Ledger>(
        &self,
        p: &Ref,
        attr: &str,
        when: &When,
        steps: &mut Steps<L>,
    ) -> Result<TextList, NoMemory>
        ensures { IfOk result (λ texts. texts ≡ values (facts self.now) (accepts self.now) when.now p.now attr.now) };

    /// The date of the last counted change of a permanode at that time, and `None` exactly where nothing is counted.
    fn last_change<L: Ledger>(&self, p: &Ref, when: &When, steps: &mut Steps<L>) -> Option<Date>
        ensures { result ≡ last_change (facts self.now) (accepts self.now) when.now p.now };

    /// The size of a file: the sum of the sizes of its parts. `None` exactly where the ref isn't a file that is ready
    /// and all of whose parts stand in their origins.
    fn file_size<L: Ledger>(&self, r: &Ref, steps: &mut Steps<L>) -> Option<u64>
        ensures { result ≡ file_size (facts self.now) r.now };

    /// The same, for whoever asks for many refs in turn, as `fact_known`. `NoMemory` comes only where no memory is left.
    fn size_known<L: Ledger>(
        &self,
        known: &mut Known,
        r: &Ref,
        steps: &mut Steps<L>,
    ) -> Result<Option<u64>, NoMemory>
        requires so { IsSo (facts self.now) known.old }
        ensures value { IfOk result (λ size. size ≡ file_size (facts self.now) r.now) }
        ensures so { IsSo (facts self.now) known.new };

    /// The genuine permanodes not deleted that have the value of the attribute, by claims of every date, ascending.
    /// Where the index is quick and there are n of them, it takes at most 6 (1 + n) steps, whatever it answers.
    /// `NoMemory` comes only where no memory is left.
    fn holders<L: Ledger>(
        &self,
        attr: &str,
        value: &str,
        steps: &mut Steps<L>,
    ) -> Result<RefList, NoMemory>
        ensures value { IfOk result (λ refs. refs ≡ holders (facts self.now) (accepts self.now) attr.now value.now) }
        ensures ticks { quick self.now → steps.new ≤ steps.old + 6 *
            (1 + length (holders (facts self.now) (accepts self.now) attr.now value.now)) };

    /// The genuine permanodes not deleted at that time that have the child's text among their values of `camliMember`
    /// at that time, ascending. `NoMemory` comes only where no memory is left.
    fn parents<L: Ledger>(
        &self,
        child: &Ref,
        when: &When,
        steps: &mut Steps<L>,
    ) -> Result<RefList, NoMemory>
        ensures { IfOk result (λ refs. refs ≡ parents (facts self.now) (accepts self.now) when.now child.now) };
}
