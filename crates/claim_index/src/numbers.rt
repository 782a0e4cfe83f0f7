//! A set of numbers.
ghost use Rattle.std.specs.Prelude.{◌≡◌, ◌<◌, ℕ, true, nat_lt, IfOk, OnOk};
ghost use Rattle.std.specs.FinMap as finite;
ghost use Rattle.claim_index.specs.Numbers.{has_bit, has_room};

use blobref::NoMemory;
use std::alloc::Global;
use std::collections::BTreeMap;
use std::marker::Model;

/// A set of numbers. 64 consecutive numbers take one row, so that numbers that are used in order take little memory.
/// A contract sees the set, and the blocks of numbers for which there is room. Each call takes time in the logarithm
/// of the number of blocks.
#[derive(Drop)]
pub struct Numbers {
    masks: BTreeMap<u64, u64>,
    count: u64,
}

impl Model for Numbers {
    ghost use Rattle.std.specs.Prelude.{◌≡◌};
    ghost use Rattle.std.specs.FinMap as finite;
    ghost use Rattle.claim_index.specs.Numbers.{Roomy, roomy_code, numbers_in, blocks_in};

    ghost Value = { Roomy };

    ghost coded = { roomy_code };

    ghost view = { λ a. record {
      numbers = numbers_in (finite.from_entries a.masks.entries);
      blocks = blocks_in (finite.from_entries a.masks.entries);
    } };

    ghost invariant = { λ a. a.count ≡ finite.len (numbers_in (finite.from_entries a.masks.entries)) };
}

impl Numbers {
    /// No numbers.
    pub fn empty(alloc: Global) -> Numbers
        ensures { result.numbers ≡ finite.empty }
    {
        Numbers {
            masks: BTreeMap::new(alloc),
            count: 0,
        }
    }

    /// The numbers below a count. `NoMemory` comes only if no memory is left, and the memory taken so far is then
    /// freed. It puts them one by one, in time in n log n for n numbers.
    pub fn below(alloc: Global, count: u64) -> Result<Numbers, NoMemory>
        ensures { IfOk result (λ numbers. (q : ℕ) → finite.contains_key numbers.numbers q ≡ nat_lt q count) }
    {
        let mut numbers = Numbers::empty(alloc);
        'numbers: for n in 0..count {
            numbers.make_room(n)?;
            numbers.set(n);
        }
        Ok(numbers)
    }

    /// Whether the number is there.
    pub fn has(&self, n: u64) -> bool
        ensures { result ≡ finite.contains_key self.now.numbers n }
    {
        match self.masks.get(&(n / 64)) {
            Some(mask) => has_bit(*mask, n % 64),
            None => false,
        }
    }

    /// How many there are.
    pub fn len(&self) -> u64
        ensures { result ≡ finite.len self.now.numbers }
    {
        self.count
    }

    /// Makes room for a number, so that `set` can put it. The numbers stay the same. `NoMemory` comes only if no
    /// memory is left, and then nothing changes.
    pub fn make_room(&mut self, n: u64) -> Result<(), NoMemory>
        ensures numbers { self.new.numbers ≡ self.old.numbers }
        ensures room { OnOk result (has_room self.new n ≡ true) }
    {
        if self.count == u64::MAX {
            return Err(NoMemory);
        }
        if !self.masks.contains_key(&(n / 64)) {
            self.masks.insert(n / 64, 0)?;
        }
        Ok(())
    }

    /// Puts a number for which there is room.
    pub fn set(&mut self, n: u64)
        requires { has_room self.old n ≡ true }
        ensures { self.new.numbers ≡ finite.insert self.old.numbers n tt }
    {
        if let Some(mask) = self.masks.get_mut(&(n / 64)) {
            if !has_bit(*mask, n % 64) {
                *mask |= 1 << (n % 64);
                self.count += 1;
            }
        }
    }
}

fn has_bit(mask: u64, place: u64) -> bool
    requires { place < 64 }
    ensures { result ≡ has_bit mask place }
{
    (mask >> place) & 1 == 1
}
