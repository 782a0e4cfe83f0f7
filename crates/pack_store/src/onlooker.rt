//! Who looks on as a store is opened.
ghost use Rattle.std.specs.Prelude.{ℕ, List, [], ◌∷◌, ◌++◌, OnOk};

use blobref::{NoMemory, Ref};

/// Is shown each blob of a store as it arrives, so that a pack's bytes are read once alone.
pub trait Onlooker {
    /// It was shown these blobs, each with its ref, the first one first.
    ghost saw: { Self → List (List ℕ × List ℕ) → Type 0 };

    /// Looks at the next blob.
    fn see(&mut self, r: &Ref, bytes: &[u8]) -> Result<(), NoMemory>
        ensures { OnOk result ((seen : List (List ℕ × List ℕ)) → saw self.old seen
            → saw self.new (seen ++ (r.now, bytes.now) ∷ [])) };
}

/// Looks at nothing.
#[derive(Clone, Copy)]
pub struct Nobody;

impl Onlooker for Nobody {
    ghost saw = { λ nobody seen. Unit {0} };

    fn see(&mut self, _r: &Ref, _bytes: &[u8]) -> Result<(), NoMemory> {
        Ok(())
    }
}
