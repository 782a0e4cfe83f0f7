//! The numbers.
ghost use Rattle.std.specs.Prelude.{◌≡◌, ◌++◌, ℕ, [], List, length, not, Some, None, OnOk, OnErr};
ghost use Rattle.std.specs.FinMap.{contains_key};
ghost use Rattle.histories.specs.declared.stamped.Stamped.{Stamped};
ghost use Rattle.histories.specs.declared.events.IndexEvent.{IndexEvent};
ghost use Rattle.histories.specs.History.{events, stamped};
ghost use Rattle.histories.specs.Indexes.{inserts, in_hand};
ghost use Rattle.histories.specs.IndexCalls.{TakeSpec, ReturnSpec, LackingSpec};
ghost use Rattle.work_numbers.specs.Working.{FindsBelow, FindsLeast, Reaches, Takes, is_back, with_noted};
ghost use Rattle.work_numbers.specs.Telling.{NumbersTell, take_entry, return_entry};

use crate::number_rows::NumberRows;
use blobref::NoMemory;
use std::alloc::Global;
use std::marker::Model;

/// Which numbers were inserted, and which are in hand. For each history that they may stand for (`NumbersTell`), a
/// contract says what the call returns over it, and that afterwards they stand for it with the call's entry.
///
/// It keeps a row for each number that was inserted or taken.
#[derive(Drop)]
pub struct WorkNumbers {
    // The numbers that were inserted.
    numbers: NumberRows<()>,
    // How many these are.
    count: u64,
    // Numbers that were taken and aren't inserted, each with whether it is in hand.
    taken: NumberRows<bool>,
    // Each number below this was inserted, or is in `taken`.
    front: u64,
}

impl Model for WorkNumbers {
    ghost use Rattle.work_numbers.specs.Working.{Working, working_code, IsFront};

    ghost Value = { Working };

    ghost coded = { working_code };

    ghost view = { λ a. record { numbers = a.numbers; count = a.count; taken = a.taken } };

    ghost invariant = { λ a. IsFront a.numbers a.taken a.front };
}

impl WorkNumbers {
    /// None was inserted or is in hand. It takes all its memory from the allocator.
    pub fn fresh(alloc: Global) -> WorkNumbers
        ensures { NumbersTell result [] }
    {
        WorkNumbers {
            numbers: NumberRows::empty(alloc),
            count: 0,
            taken: NumberRows::empty(alloc),
            front: 0,
        }
    }

    /// Takes the least number below a count that is neither inserted nor in hand; `None` exactly if there is none.
    ///
    /// `NoMemory` comes only if no memory is left, and then nothing changes. The memory that giving the number back
    /// needs is taken here. A number that was given back is taken again without memory.
    ///
    /// It walks over the numbers in hand, up to the first that was given back. If none was, it also walks over the
    /// inserted numbers that no walk has passed before.
    pub fn take(&mut self, arrivals: u64) -> Result<Option<u64>, NoMemory>
        ensures kept { (h : List (Stamped IndexEvent)) (turn : ℕ) → NumbersTell self.old h
            → NumbersTell self.new (h ++ stamped turn (take_entry result)) }
        ensures says { (h : List (Stamped IndexEvent)) → NumbersTell self.old h
            → TakeSpec arrivals (events h) result (take_entry result) }
    {
        match self.taken.least_back() {
            Some(number) => self.take_back(number, arrivals),
            None => self.take_new(arrivals),
        }
    }

    /// Whether a number was inserted.
    pub fn has(&self, number: u64) -> bool
        ensures { result ≡ contains_key self.now.numbers number }
    {
        self.numbers.has(number)
    }

    /// Notes that a number is inserted and no longer in hand. `NoMemory` comes only if no memory is left, or
    /// 2^64 - 1 numbers were inserted, and then nothing changes.
    pub fn note(&mut self, number: u64) -> Result<(), NoMemory>
        ensures ok { OnOk result (self.new ≡ with_noted self.old number) }
        ensures err { OnErr result (self.new ≡ self.old) }
    {
        let Some(count) = self.count.checked_add(1) else {
            return Err(NoMemory);
        };
        self.numbers.put(number, ())?;
        self.count = count;
        self.taken.drop_row(number);
        Ok(())
    }

    /// Gives a number back, and returns whether it was in hand. If it wasn't, nothing changes. It takes no memory, and
    /// the time of a look-up.
    pub fn give_back(&mut self, number: u64) -> bool
        ensures kept { (h : List (Stamped IndexEvent)) (turn : ℕ) → NumbersTell self.old h
            → NumbersTell self.new (h ++ stamped turn (return_entry result number)) }
        ensures says { (h : List (Stamped IndexEvent)) → NumbersTell self.old h
            → ReturnSpec number (events h) (return_entry result number) }
    {
        if !self.taken.holds(number) {
            return false;
        }
        // it has a row, so that this takes no memory
        self.taken.put(number, false).is_ok()
    }

    /// The least number below a bound that isn't inserted, in hand or not; `None` exactly if each is. It takes the
    /// time of a look-up; if no number is taken, it walks over the inserted numbers that no walk has passed before.
    pub fn lacking(&mut self, below: u64) -> Option<u64>
        ensures says { (h : List (Stamped IndexEvent)) → NumbersTell self.old h
            → LackingSpec below (events h) result None }
        ensures kept { (h : List (Stamped IndexEvent)) (turn : ℕ) → NumbersTell self.old h
            → NumbersTell self.new (h ++ stamped turn None) }
        ensures same { self.new ≡ self.old }
    {
        match self.taken.least() {
            Some(number) => (number < below).then_some(number),
            None => self.next_lacking(below),
        }
    }

    /// How many numbers were inserted. It takes no time.
    pub fn len(&self) -> u64
        ensures { (h : List (Stamped IndexEvent)) → NumbersTell self.now h → result ≡ length (inserts h) }
    {
        self.count
    }

    // Takes the least number that was given back, if it is below the bound.
    fn take_back(&mut self, number: u64, below: u64) -> Result<Option<u64>, NoMemory>
        requires { FindsLeast (is_back self.old.taken) (Some number) }
        ensures { Takes self.old self.new below result }
    {
        let taken = &mut self.taken;
        if number >= below {
            return Ok(None);
        }
        taken.put(number, true)?;
        Ok(Some(number))
    }

    // Takes a number that wasn't taken before, when none was given back.
    fn take_new(&mut self, below: u64) -> Result<Option<u64>, NoMemory>
        requires { FindsLeast (is_back self.old.taken) None }
        ensures { Takes self.old self.new below result }
    {
        let next = lacking_from(&self.numbers, self.front, below);
        self.front = next;
        if next >= below {
            return Ok(None);
        }
        self.taken.put(next, true)?;
        self.front = next + 1;
        Ok(Some(next))
    }

    // The least number below a bound that isn't inserted, when none is taken.
    fn next_lacking(&mut self, below: u64) -> Option<u64>
        requires { FindsLeast (contains_key self.old.taken) None }
        ensures least { FindsBelow below (λ n. not (contains_key self.old.numbers n)) result }
        ensures same { self.new ≡ self.old }
    {
        let next = lacking_from(&self.numbers, self.front, below);
        self.front = next;
        (next < below).then_some(next)
    }
}

// The least number at or above `from` that isn't inserted, or one not below the bound: all from `from` up to it are
// inserted.
fn lacking_from(numbers: &NumberRows<()>, from: u64, below: u64) -> u64
    ensures { Reaches from below (contains_key numbers.now) result }
{
    let mut next = from;
    'walk: while next < below && numbers.has(next) {
        next += 1;
    }
    next
}
