//! Refs in their order, each once.
ghost use Rattle.std.specs.Prelude.{◌≡◌, false, IfOk, IfSome, IfNone, Some, slice_get};
ghost use Rattle.std.specs.List.{list_any};
ghost use Rattle.std.specs.List.Sorted.{IsStrictlySortedBy};
ghost use Rattle.std.specs.Str.{bytes_eq};
ghost use Rattle.blobref.specs.Blobref.{ref_cmp};
ghost use Rattle.blobref.specs.Sets.{HasSameRefs};

use crate::digest::Ref;
use crate::lists::RefList;
use crate::memory::NoMemory;
use std::marker::Model;

/// Refs in their order, each once. A contract sees it as the list of them. A ref is searched for in time in the
/// logarithm of how many there are.
#[derive(Drop)]
pub struct RefSet {
    refs: Vec<Ref>,
}

impl Model for RefSet {
    ghost use Rattle.std.specs.Prelude.{List, ℕ};
    ghost use Rattle.std.specs.List.Sorted.{IsStrictlySortedBy};
    ghost use Rattle.blobref.specs.Blobref.{ref_cmp};

    ghost Value = { List (List ℕ) };

    ghost view = { λ s. s.refs.items };

    ghost invariant = { λ s. IsStrictlySortedBy ref_cmp s.refs.items };
}

impl RefSet {
    /// The refs of a list, each once. It takes time in k log k for k refs, and no memory but what a sort of them takes;
    /// `NoMemory` comes only where that is lacking.
    pub fn of(list: RefList) -> Result<RefSet, NoMemory>
        ensures { IfOk result (λ set. HasSameRefs set list) }
    {
        let mut refs = list.into_vec();
        refs.sort()?;
        refs.dedup();
        Ok(RefSet { refs })
    }

    /// Whether the ref is among them.
    pub fn contains(&self, r: &Ref) -> bool
        ensures { result ≡ list_any (bytes_eq r.now) self.now }
    {
        self.place(r).is_some()
    }

    /// The place of the ref, counted from 0, and `None` exactly where it isn't among them.
    pub fn place(&self, r: &Ref) -> Option<usize>
        ensures some { IfSome result (λ i. slice_get self.now i ≡ Some r.now) }
        ensures none { IfNone result (list_any (bytes_eq r.now) self.now ≡ false) }
    {
        self.refs.binary_search(r).ok()
    }

    /// The refs as a slice, in their order, each once.
    pub fn as_slice(&self) -> &[Ref]
        ensures refs { result.now ≡ self.now }
        ensures order { IsStrictlySortedBy ref_cmp result.now }
    {
        self.refs.as_slice()
    }
}
