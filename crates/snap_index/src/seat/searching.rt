//! Searches, which take no turn.
ghost use Rattle.std.specs.Prelude.{◌≡◌, ◌<◌, false};
ghost use Rattle.home_places.specs.Searches.{IndexSearch};
ghost use Rattle.snap_copies.specs.Steps.{TakesFewSteps};
ghost use Rattle.snap_index.specs.SnapSeats.{IsOfSnap, is_stale, snap_sight};

use super::{SnapIndex, SnapSeat};
use blobref::{NoMemory, RefList};
use claim_verify::Verifier;
use edge_base::Steps;
use search_query::Query;
use std::sync::Wait;
use std::sync::ledger::{Blank, Ledger};

impl<V: Verifier + Drop, H: Wait + Drop> SnapIndex<V, H> {
    /// The answer of `search`, in the same time. `steps` counts the steps of the index.
    ///
    /// A query for one value and nothing else, at no date and in the order `Sort::Ref`, takes at most 8 (1 + n) steps
    /// if the copy that is searched isn't stale (`stale`) and n permanodes hold the value, whatever it returns.
    pub fn search_counted<L: Ledger>(
        &self,
        seat: &mut SnapSeat<V, H>,
        query: &Query,
        steps: &mut Steps<L>,
    ) -> Result<RefList, NoMemory>
        requires { IsOfSnap self.now seat.old }
        ensures own { IsOfSnap self.now seat.new }
        ensures search { IndexSearch query.now result (snap_sight V.accepts seat.old) (snap_sight V.accepts seat.new) }
        ensures ticks { is_stale seat.new ≡ false → TakesFewSteps query.now (snap_sight V.accepts seat.new).shown
            (snap_sight V.accepts seat.new).accepts steps.old steps.new }
    {
        let Some(watch) = seat.watch.take() else {
            unreachable!()
        };
        let (watch, answer) = watch.search(self.alloc, query, steps);
        seat.watch = Some(watch);
        answer
    }

    /// Whether the copy that was searched last through this seat was stale. It becomes stale only if no memory is left
    /// for its tables. That search gave the same answer as any other, but walked over all facts. False before the first
    /// search.
    pub fn stale(&self, seat: &SnapSeat<V, H>) -> bool
        ensures { result ≡ is_stale seat.now }
    {
        match &seat.watch {
            Some(watch) => watch.stale,
            None => unreachable!(),
        }
    }
}

// The answer of `search_counted`. The steps are counted in the blank ledger.
pub(super) fn search_blank<V: Verifier + Drop, H: Wait + Drop, L: Ledger>(
    index: &SnapIndex<V, H>,
    seat: &mut SnapSeat<V, H>,
    query: &Query,
    blank: Blank,
) -> Result<RefList, NoMemory>
    requires seat { IsOfSnap index.now seat.old }
    requires name { blank.name ≡ L.name }
    requires parts { blank.parts ≡ L.parts }
    requires some { 0 < blank.parts }
    ensures own { IsOfSnap index.now seat.new }
    ensures search { IndexSearch query.now result (snap_sight V.accepts seat.old) (snap_sight V.accepts seat.new) }
{
    let mut steps = Steps::<L>::start(blank);
    index.search_counted(seat, query, &mut steps)
}
