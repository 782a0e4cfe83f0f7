//! The home.

use crate::pass::CorePass;
use blobref::{Listing, NoMemory, Octets, Ref, RefList};
use claim_verify::Verifier;
use edge_base::{GetFault, Put, PutFault};
use home_places::{Home, Indexed};
use search_query::Query;
use std::marker::PhantomData;
use std::sync::Wait;

/// The home of one actor (`docs/core.md`). It has no state: each pass has a core of its own, and the calls that change
/// it are events of that core, in the session 0. It tells its bytes.
#[derive(Drop)]
pub struct CoreHome<V> {
    of: PhantomData<V>,
}

impl<V: Verifier> CoreHome<V> {
    /// The home.
    pub fn make() -> CoreHome<V> {
        CoreHome { of: PhantomData }
    }
}

impl<V: Verifier> Home for CoreHome<V> {
    ghost use Rattle.std.specs.Prelude.{true};
    ghost use Rattle.core_home.specs.Sights.{sight_of};
    ghost use Rattle.core_home.specs.Legal.{IsSight-sight_of};

    type Pass = CorePass<V>;

    ghost belongs = { λ h p. Unit {0} };

    ghost sight = { λ p. sight_of V.accepts p };

    ghost tells = { λ h. true };

    ghost is_legal = { λ p. IsSight-sight_of V.accepts p };

    fn upload<R: Wait>(
        &self,
        _rt: &R,
        pass: &mut CorePass<V>,
        said: &Ref,
        bytes: &[u8],
    ) -> Result<Put, PutFault> {
        pass.upload(said, bytes)
    }

    fn fetch<R: Wait>(
        &self,
        _rt: &R,
        pass: &mut CorePass<V>,
        r: &Ref,
    ) -> Result<Option<Octets>, GetFault> {
        pass.fetch(r)
    }

    fn stat<R: Wait>(
        &self,
        _rt: &R,
        pass: &mut CorePass<V>,
        refs: &RefList,
    ) -> Result<Listing, NoMemory> {
        pass.stat(refs)
    }

    fn list<R: Wait>(
        &self,
        _rt: &R,
        pass: &mut CorePass<V>,
        after: Option<&Ref>,
        limit: usize,
    ) -> Result<Listing, NoMemory> {
        pass.list(after, limit)
    }

    fn settle<R: Wait>(&self, _rt: &R, pass: &mut CorePass<V>) -> Result<(), GetFault> {
        pass.settle()
    }

    fn search(&self, pass: &mut CorePass<V>, query: &Query) -> Result<RefList, NoMemory> {
        pass.search(query)
    }

    fn index_next<R: Wait>(&self, _rt: &R, pass: &mut CorePass<V>) -> Result<Indexed, GetFault> {
        pass.index_next()
    }

    fn seen(&self, pass: &CorePass<V>) -> (u64, u64) {
        pass.seen()
    }
}
