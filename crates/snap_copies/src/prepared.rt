//! A fact with the memory that it needs in both copies of the index.
ghost use Rattle.std.specs.Prelude.{◌≡◌, IfOk, IfSome, MatchBool};
ghost use Rattle.schema_fact.specs.Validity.{IsValid};
ghost use Rattle.snap_copies.specs.FactIsValid.{fact_prop};

use blobref::{NoMemory, Ref};
use index_rows::Made;
use schema_fact::Fact;
use std::alloc::Global;
use std::cell::Cell;

/// A valid fact whose memory for both copies is allocated, with an equal one that can be read.
#[derive(Drop)]
pub struct Prepared {
    /// The fact in its node, with the memory for one copy.
    pub made: Made,
    pub fact: Fact,
    // The same for the other copy, until it is taken. No clause says what a cell holds, so it is compared when taken.
    spare: Cell<Option<Spare>>,
    pub ghost same: { fact ≡ made.2 },
    pub ghost valid: { IsValid made.2 } by { fact_prop made.2 },
}

// A fact whose memory is allocated, with an equal one that can be read.
#[derive(Drop)]
struct Spare {
    made: Made,
    fact: Fact,
    ghost same: { fact ≡ made.2 },
}

impl Prepared {
    /// Takes the memory for both copies. `NoMemory` comes only if no memory is left, and the fact is then dropped.
    pub fn of(alloc: Global, number: u64, r: &Ref, fact: Fact) -> Result<Prepared, NoMemory>
        requires { IsValid fact }
        ensures { IfOk result (λ prepared. prepared.made ≡ (number, r.now, fact)) }
    {
        let spare = Spare::of(alloc, number, r, &fact)?;
        let made = made_of(alloc, number, r, &fact)?;
        Ok(prepared_of(made, fact, spare))
    }

    /// The fact in its node, for the copy that takes it in first: the spare one. It takes memory only if that was taken
    /// before, which never happens.
    pub(crate) fn first_made(&self, alloc: Global) -> Result<Made, NoMemory>
        ensures { IfOk result (λ made. made ≡ self.now.made) }
    {
        match self.take_spare() {
            Some(made) => Ok(made),
            None => self.made_again(alloc),
        }
    }

    // The spare one, if it is there and is equal.
    fn take_spare(&self) -> Option<Made>
        ensures { IfSome result (λ made. made ≡ self.now.made) }
    {
        let spare = self.spare.replace(None)?;
        if self.is_like(&spare) {
            Some(spare.made)
        } else {
            None
        }
    }

    // Whether a spare one has this number, ref and fact.
    fn is_like(&self, spare: &Spare) -> bool
        ensures { MatchBool result (spare.now.made ≡ self.now.made) (Unit {0}) }
    {
        if spare.made.number() != self.made.number() || spare.made.r() != self.made.r() {
            return false;
        }
        spare.fact == self.fact
    }

    // An equal one, with new memory.
    fn made_again(&self, alloc: Global) -> Result<Made, NoMemory>
        ensures { IfOk result (λ made. made ≡ self.now.made) }
    {
        made_of(alloc, self.made.number(), &self.made.r(), &self.fact)
    }

    /// The fact in its node, for the copy that takes it in second.
    pub(crate) fn into_made(self) -> Made
        ensures made { result ≡ self.made }
        ensures valid { IsValid result.2 }
    {
        self.made
    }
}

impl Spare {
    fn of(alloc: Global, number: u64, r: &Ref, fact: &Fact) -> Result<Spare, NoMemory> {
        let made = made_of(alloc, number, r, fact)?;
        let copy = fact.copy(alloc)?;
        Ok(Spare { made, fact: copy })
    }
}

fn made_of(alloc: Global, number: u64, r: &Ref, fact: &Fact) -> Result<Made, NoMemory>
    ensures { IfOk result (λ made. made ≡ (number, r.now, fact.now)) }
{
    let copy = fact.copy(alloc)?;
    Made::make(alloc, number, r, copy)
}

fn prepared_of(made: Made, fact: Fact, spare: Spare) -> Prepared
    requires same { fact ≡ made.2 }
    requires valid { IsValid made.2 }
    ensures { result.made ≡ made }
{
    Prepared {
        made,
        fact,
        spare: Cell::new(Some(spare)),
    }
}
