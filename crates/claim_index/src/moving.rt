//! Loose rows of facts, moved among those in order.
ghost use Rattle.std.specs.Prelude.{◌≡◌, ◌≤◌, ◌+◌, ◌*◌, [], length, true, false, OnOk, OnErr};
ghost use Rattle.std.specs.FinMap.{insert};
ghost use Rattle.schema_fact.specs.Validity.{IsValid};
ghost use Rattle.index_rows.specs.Loose.{numbers_of};
ghost use Rattle.index_rows.specs.Touched.{touched_in};
ghost use Rattle.index_rows.specs.Waiting.{arrived};
ghost use Rattle.claim_index.specs.Additions.{IsAddedAlone};
ghost use Rattle.claim_index.specs.Halfway.{all_in_order, facts_in, HasOneMore, IsSettled};
ghost use Rattle.claim_index.specs.Numbers.{has_room, with_numbers};

use crate::numbers::Numbers;
use crate::rebuilding::{rebuild, take_up};
use blobref::{NoMemory, Ref};
use claim_verify::Verifier;
use edge_base::Steps;
use index_rows::{FactRows, Rows};
use schema_fact::Fact;
use std::alloc::Global;
use std::sync::ledger::Ledger;

// Moves the loose rows, and takes up one more fact, or all of them again if the other tables are stale. If there is no
// memory, the facts and their numbers are unchanged, and the other tables may be anything.
pub(crate) fn settle<V: Verifier, L: Ledger>(
    alloc: Global,
    rows: &mut Rows,
    numbers: &mut Numbers,
    keys: &V,
    stale: bool,
    r: &Ref,
    steps: &mut Steps<L>,
) -> Result<(), NoMemory>
    requires { stale ≡ false → HasOneMore (V.accepts keys.now) (all_in_order rows.old) r.now }
    ensures map { facts_in rows.new.facts ≡ facts_in rows.old.facts }
    ensures same { with_numbers (numbers_of rows.new.facts.loose) numbers.new.numbers
        ≡ with_numbers (numbers_of rows.old.facts.loose) numbers.old.numbers }
    ensures fewer { length (numbers_of rows.new.facts.loose) ≤ length (numbers_of rows.old.facts.loose) }
    ensures settled { OnOk result (IsSettled (V.accepts keys.now) rows.new) }
    ensures ticks { stale ≡ false → steps.new ≤ steps.old + 3 * length (numbers_of rows.old.facts.loose)
        + 12 + 16 * length (touched_in (arrived (facts_in rows.old.facts) rows.old.state) (facts_in rows.old.facts)
        (V.accepts keys.now) r.now) }
    ensures few_ticks { stale ≡ false → IsAddedAlone (facts_in rows.old.facts) (V.accepts keys.now) r.now
        → steps.new ≤ steps.old + 3 * length (numbers_of rows.old.facts.loose) + 23 }
{
    move_all(alloc, &mut rows.facts, numbers, steps)?;
    take_up(alloc, rows, keys, stale, r, steps)
}

// Moves the loose rows, and makes the other tables again from all facts. The same holds if there is no memory.
pub(crate) fn renew<V: Verifier, L: Ledger>(
    alloc: Global,
    rows: &mut Rows,
    numbers: &mut Numbers,
    keys: &V,
    steps: &mut Steps<L>,
) -> Result<(), NoMemory>
    ensures map { facts_in rows.new.facts ≡ facts_in rows.old.facts }
    ensures same { with_numbers (numbers_of rows.new.facts.loose) numbers.new.numbers
        ≡ with_numbers (numbers_of rows.old.facts.loose) numbers.old.numbers }
    ensures fewer { length (numbers_of rows.new.facts.loose) ≤ length (numbers_of rows.old.facts.loose) }
    ensures settled { OnOk result (IsSettled (V.accepts keys.now) rows.new) }
{
    move_all(alloc, &mut rows.facts, numbers, steps)?;
    rebuild(alloc, rows, keys, steps)
}

// Moves the loose rows, makes room for a number, and puts a valid fact among those in order. If there is no memory,
// the facts and their numbers are unchanged.
pub(crate) fn put_in_order<L: Ledger>(
    alloc: Global,
    facts: &mut FactRows,
    numbers: &mut Numbers,
    number: u64,
    r: &Ref,
    fact: Fact,
    steps: &mut Steps<L>,
) -> Result<(), NoMemory>
    requires { IsValid fact }
    ensures put { OnOk result (facts.new.ordered ≡ insert (facts_in facts.old) r.now fact) }
    ensures none { OnOk result (numbers_of facts.new.loose ≡ []) }
    ensures room { OnOk result (has_room numbers.new number ≡ true) }
    ensures map { OnErr result (facts_in facts.new ≡ facts_in facts.old) }
    ensures kept { OnErr result (numbers_of facts.old.loose ≡ [] → facts.new ≡ facts.old) }
    ensures same { with_numbers (numbers_of facts.new.loose) numbers.new.numbers
        ≡ with_numbers (numbers_of facts.old.loose) numbers.old.numbers }
    ensures fewer { length (numbers_of facts.new.loose) ≤ length (numbers_of facts.old.loose) }
    ensures ticks { steps.new ≤ steps.old + 3 * length (numbers_of facts.old.loose) + 1 }
{
    move_all(alloc, facts, numbers, steps)?;
    numbers.make_room(number)?;
    facts.ordered.put(alloc, r, fact, steps)
}

// Moves all loose rows, the last one put first. `NoMemory` comes only if no memory is left; the rows that weren't
// moved are then still loose. No fact and no number is added or lost.
pub(crate) fn move_all<L: Ledger>(
    alloc: Global,
    facts: &mut FactRows,
    numbers: &mut Numbers,
    steps: &mut Steps<L>,
) -> Result<(), NoMemory>
    ensures map { facts_in facts.new ≡ facts_in facts.old }
    ensures same { with_numbers (numbers_of facts.new.loose) numbers.new.numbers
        ≡ with_numbers (numbers_of facts.old.loose) numbers.old.numbers }
    ensures fewer { length (numbers_of facts.new.loose) ≤ length (numbers_of facts.old.loose) }
    ensures none { OnOk result (numbers_of facts.new.loose ≡ []) }
    ensures kept { numbers_of facts.old.loose ≡ [] → facts.new ≡ facts.old }
    ensures ticks { steps.new ≤ steps.old + 3 * length (numbers_of facts.old.loose) }
{
    'rows: while let Some(number) = facts.loose.first_number() {
        numbers.make_room(number)?;
        facts.move_one(alloc, steps)?;
        numbers.set(number);
    }
    Ok(())
}
