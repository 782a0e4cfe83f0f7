//! The tables of an index.
ghost use Rattle.std.specs.Prelude.{◌≡◌, []};
ghost use Rattle.std.specs.FinMap as finite;

use crate::change_rows::ChangeRows;
use crate::fact_rows::FactRows;
use crate::holder_rows::HolderRows;
use crate::pair_rows::PairRows;
use crate::ref_rows::RefRows;
use crate::removal_rows::RemovalRows;
use schema_date::Date;
use std::alloc::Global;

/// The state of a ref that has arrived.
#[derive(Clone, Copy)]
pub struct StateRow {
    /// Whether every ref that it depends on is there and ready.
    pub ready: bool,
    /// Whether it is a permanode or a claim that its key accepts.
    pub genuine: bool,
    /// Whether it is a file tree whose parts lie within their origins.
    pub sound: bool,
    /// How many refs it depends on that aren't ready.
    pub missing: u64,
    /// How many genuine delete claims on it aren't deleted.
    pub deleters: u64,
}

/// The tables of an index. No fact is kept elsewhere.
#[derive(Drop)]
pub struct Rows {
    /// The fact of each blob.
    pub facts: FactRows,
    /// The state of each ref that has arrived.
    pub state: RefRows<StateRow>,
    /// The refs that wait for a ref.
    pub waiters: PairRows<()>,
    /// The delete claims on a ref, with their dates.
    pub deletes: PairRows<Date>,
    /// The changes of a permanode, by date, claim and place.
    pub changes: ChangeRows,
    /// The changes that may take values away, under marks of these values.
    pub removals: RemovalRows,
    /// The permanodes that hold a value of an attribute.
    pub holders: HolderRows,
}

impl Rows {
    /// Tables without rows.
    pub fn empty(alloc: Global) -> Rows
        ensures facts { result.facts.ordered ≡ finite.empty }
        ensures loose { result.facts.loose ≡ [] }
        ensures state { result.state ≡ finite.empty }
        ensures waiters { result.waiters ≡ finite.empty }
        ensures deletes { result.deletes ≡ finite.empty }
        ensures changes { result.changes ≡ finite.empty }
        ensures removals { result.removals ≡ finite.empty }
        ensures holders { result.holders ≡ finite.empty }
    {
        Rows {
            facts: FactRows::empty(alloc),
            state: RefRows::empty(alloc),
            waiters: PairRows::empty(alloc),
            deletes: PairRows::empty(alloc),
            changes: ChangeRows::empty(alloc),
            removals: RemovalRows::empty(alloc),
            holders: HolderRows::empty(alloc),
        }
    }
}
