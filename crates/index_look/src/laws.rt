//! Laws of indexes.
ghost use Rattle.std.specs.Prelude.{◌≡◌, ℕ, List, Option};
ghost use Rattle.claim_model.specs.Genuine.{is_genuine_permanode};
ghost use Rattle.claim_model.specs.Ready.{ready_fact};
ghost use Rattle.claim_model.specs.Claims.{holders, last_change, parents, values};
ghost use Rattle.claim_model.specs.Trees.{file_size};
ghost use Rattle.claim_model.specs.Deleted.{is_deleted};
ghost use Rattle.schema_date.specs.declared.date.When.{When};
ghost use Rattle.index_look.specs.Look.{permanode_after};

use crate::look::Look;

/// Two indexes over the same facts, whose keys accept the same, give the same answers, whichever way each is kept:
/// what the calls of `Look` answer is the same for both.
pub fn equal_maps_give_equal_answers<A: Look, B: Look>(a: &A, b: &B)
    requires facts { A.facts a.now ≡ B.facts b.now }
    requires accepts { A.accepts a.now ≡ B.accepts b.now }
    ensures fact_of { (r : List ℕ) → ready_fact (A.facts a.now) r ≡ ready_fact (B.facts b.now) r }
    ensures is_permanode { (r : List ℕ) → is_genuine_permanode (A.facts a.now) (A.accepts a.now) r
        ≡ is_genuine_permanode (B.facts b.now) (B.accepts b.now) r }
    ensures permanode_after { (after : Option (List ℕ))
        → permanode_after (A.facts a.now) (A.accepts a.now) after ≡ permanode_after (B.facts b.now) (B.accepts b.now) after }
    ensures deleted { (when : When) (r : List ℕ)
        → is_deleted (A.facts a.now) (A.accepts a.now) when r ≡ is_deleted (B.facts b.now) (B.accepts b.now) when r }
    ensures values { (when : When) (p name : List ℕ)
        → values (A.facts a.now) (A.accepts a.now) when p name ≡ values (B.facts b.now) (B.accepts b.now) when p name }
    ensures last_change { (when : When) (p : List ℕ)
        → last_change (A.facts a.now) (A.accepts a.now) when p ≡ last_change (B.facts b.now) (B.accepts b.now) when p }
    ensures file_size { (r : List ℕ) → file_size (A.facts a.now) r ≡ file_size (B.facts b.now) r }
    ensures holders { (name value : List ℕ)
        → holders (A.facts a.now) (A.accepts a.now) name value ≡ holders (B.facts b.now) (B.accepts b.now) name value }
    ensures parents { (when : When) (child : List ℕ)
        → parents (A.facts a.now) (A.accepts a.now) when child ≡ parents (B.facts b.now) (B.accepts b.now) when child }
{}
