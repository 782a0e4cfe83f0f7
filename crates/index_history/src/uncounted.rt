//! Calls on an index whose steps nobody counts.
ghost use Rattle.std.specs.Prelude.{◌≡◌, ◌+◌, ◌<◌, ◌^◌, ◌||◌, ℕ, true, false, nat_eq};
ghost use Rattle.std.specs.FinMap.{contains_key, len};
ghost use Rattle.schema_fact.specs.Validity.{IsValid};
ghost use Rattle.index_rows.specs.Loose.{with_row};

use claim_index::{Index, Made};
use claim_verify::Verifier;
use edge_base::Steps;
use std::marker::Brand;
use std::sync::ledger::{Blank, Ledger};

/// Adds a fact whose memory was taken before, unless its number or its ref is there.
pub(crate) fn add<V: Verifier>(index: &mut Index<V>, made: Made)
    requires valid { IsValid made.2 }
    requires room { len index.old.numbers + 1 < 2 ^ 63 }
    ensures facts { contains_key index.old.numbers made.0 ≡ false → index.new.facts ≡ with_row index.old.facts made }
    ensures numbers { (n : ℕ) → contains_key index.new.numbers n ≡ true
        → (nat_eq made.0 n || contains_key index.old.numbers n) ≡ true }
    ensures keys { index.new.keys ≡ index.old.keys }
{
    add_counted::<_, Brand>(index, made, Blank::new(1))
}

// The steps are counted in the blank ledger.
fn add_counted<V: Verifier, L: Ledger>(index: &mut Index<V>, made: Made, blank: Blank)
    requires name { blank.name ≡ L.name }
    requires parts { blank.parts ≡ L.parts }
    requires some { 0 < blank.parts }
    requires valid { IsValid made.2 }
    requires room { len index.old.numbers + 1 < 2 ^ 63 }
    ensures facts { contains_key index.old.numbers made.0 ≡ false → index.new.facts ≡ with_row index.old.facts made }
    ensures numbers { (n : ℕ) → contains_key index.new.numbers n ≡ true
        → (nat_eq made.0 n || contains_key index.old.numbers n) ≡ true }
    ensures keys { index.new.keys ≡ index.old.keys }
{
    let mut steps = Steps::<L>::start(blank);
    if index.stands(&made.r(), &mut steps) {
        return;
    }
    index.place(made, &mut steps);
}
