//! One of the two copies of the index, and additions to both.
ghost use Rattle.std.specs.Prelude.{◌≡◌, ◌+◌, ◌<◌, ◌^◌, true};
ghost use Rattle.std.specs.FinMap as finite;
ghost use Rattle.schema_fact.specs.Validity.{IsValid};
ghost use Rattle.snap_copies.specs.Copies.{facts_with, numbers_with};

use crate::book::Front;
use crate::prepared::Prepared;
use claim_index::Index;
use claim_verify::Verifier;
use edge_base::Steps;
use index_rows::{Made, OrderedFacts};
use left_right::Absorb;
use std::alloc::{AllocError, Global};
use std::marker::Brand;
use std::sync::ledger::{Blank, Ledger};
use work_numbers::NumberRows;

/// An index with a token of the list of Inserts that it stands for.
pub struct IndexCopy<V: Verifier> {
    pub index: Index<V>,
    pub front: Front,
}

// By hand, and so that of an addition: crates that hold the two copies would prove a derived drop again, with those of
// all tables of the index.
impl<V: Verifier + Drop> Drop for IndexCopy<V> {
    fn drop(self) {
        let Self {
            index: _index,
            front: _front,
        } = self;
    }
}

/// The common content of the two copies. One may be stale and the other not. No value of this type is made.
pub struct Common<V> {
    pub facts: OrderedFacts,
    pub numbers: NumberRows<()>,
    pub keys: V,
    pub front: Front,
}

/// An Insert that is added to both copies, whose memory was taken before, with the token of the list that ends with it.
pub struct Addition {
    pub alloc: Global,
    pub prepared: Prepared,
    pub front: Front,
}

impl Addition {
    fn into_parts(self) -> (Prepared, Front)
        ensures prepared { result.0 ≡ self.prepared }
        ensures front { result.1 ≡ self.front }
    {
        let Self {
            alloc: _,
            prepared,
            front,
        } = self;
        (prepared, front)
    }
}

impl Drop for Addition {
    fn drop(self) {
        let Self {
            alloc: _,
            prepared: _prepared,
            front: _front,
        } = self;
    }
}

impl<V: Verifier> Absorb<Addition> for IndexCopy<V> {
    ghost use Rattle.snap_copies.specs.Copies.{common_of, absorbed};

    type State = Common<V>;

    ghost state = { common_of };

    ghost applied = { absorbed };

    /// The addition is borrowed, and its spare memory is taken out of it. It fails if the index has 2^62 numbers, or if
    /// that memory was taken before and there is no other. Neither ever happens.
    fn absorb_first(
        &mut self,
        operation: &Addition,
        _other: &IndexCopy<V>,
    ) -> Result<(), AllocError> {
        if !has_room(&self.index) {
            return Err(AllocError);
        }
        let Ok(made) = operation.prepared.first_made(operation.alloc) else {
            return Err(AllocError);
        };
        place(&mut self.index, made);
        self.front = operation.front.again();
        Ok(())
    }

    /// It fails only if the index has 2^62 numbers.
    fn absorb_second(
        &mut self,
        operation: Addition,
        _other: &IndexCopy<V>,
    ) -> Result<(), Addition> {
        if !has_room(&self.index) {
            return Err(operation);
        }
        let (prepared, front) = operation.into_parts();
        place(&mut self.index, prepared.into_made());
        self.front = front;
        Ok(())
    }
}

// Whether one more number can be placed. There are never so many: jobs add fewer (`held/jobs.rt`).
fn has_room<V: Verifier>(index: &Index<V>) -> bool
    ensures { result ≡ true → finite.len index.now.numbers + 1 < 2 ^ 63 }
{
    index.len() < 1 << 62
}

// Places a fact, unless its number or its ref is there.
fn place<V: Verifier>(index: &mut Index<V>, made: Made)
    requires valid { IsValid made.2 }
    requires room { finite.len index.old.numbers + 1 < 2 ^ 63 }
    ensures facts { index.new.facts ≡ facts_with index.old.facts index.old.numbers made }
    ensures numbers { index.new.numbers ≡ numbers_with index.old.facts index.old.numbers made }
    ensures keys { index.new.keys ≡ index.old.keys }
{
    place_counted::<_, Brand>(index, made, Blank::new(1))
}

// The steps are counted in the blank ledger.
fn place_counted<V: Verifier, L: Ledger>(index: &mut Index<V>, made: Made, blank: Blank)
    requires name { blank.name ≡ L.name }
    requires parts { blank.parts ≡ L.parts }
    requires some { 0 < blank.parts }
    requires valid { IsValid made.2 }
    requires room { finite.len index.old.numbers + 1 < 2 ^ 63 }
    ensures facts { index.new.facts ≡ facts_with index.old.facts index.old.numbers made }
    ensures numbers { index.new.numbers ≡ numbers_with index.old.facts index.old.numbers made }
    ensures keys { index.new.keys ≡ index.old.keys }
{
    let mut steps = Steps::<L>::start(blank);
    if index.stands(&made.r(), &mut steps) {
        return;
    }
    index.place(made, &mut steps);
}
