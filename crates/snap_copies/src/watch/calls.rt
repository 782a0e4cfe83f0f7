//! The calls of a reader with its Inserts.
ghost use Rattle.std.specs.Prelude.{◌≡◌, false, Some, IfOk};
ghost use mathlib.Core.List.{IsPrefix};
ghost use Rattle.histories.specs.Indexes.{indexed};
ghost use Rattle.search_eval.specs.Answer.{answer};
ghost use Rattle.snap_copies.specs.Steps.{TakesFewSteps};
ghost use Rattle.snap_copies.specs.Watches.{Sees, keys_of, shown_of};

use super::Watch;
use crate::book::Front;
use crate::showing::{look, search};
use blobref::{NoMemory, RefList};
use claim_verify::Verifier;
use edge_base::Steps;
use search_query::Query;
use std::alloc::Global;
use std::sync::Wait;
use std::sync::ledger::Ledger;
use std::thread;

impl<V: Verifier + Drop> Watch<V> {
    // Looks once. Afterwards it has seen at least the Inserts that it had seen before.
    fn look(self) -> Watch<V>
        ensures { Sees self result }
    {
        let Watch {
            reader,
            mine,
            stale,
        } = self;
        match look(reader) {
            Ok((reader, found)) => Watch {
                reader,
                mine: found,
                stale,
            },
            Err(reader) => Watch {
                reader,
                mine,
                stale,
            },
        }
    }

    /// Looks until it has seen all Inserts of the front, which must be of the same list. It waits if these aren't
    /// published yet.
    pub fn catch_up<R: Wait>(self, rt: &R, front: &Front) -> Watch<V>
        requires { self.mine.seen.book ≡ front.now.seen.book }
        ensures sees { Sees self result }
        ensures all { IsPrefix front.now.seen.log (shown_of result) }
    {
        let mut watch = self;
        'looks: for _ in rt.forever() {
            watch = watch.look();
            if watch.mine.has_all_of(front) {
                return watch;
            }
            thread::yield_now();
        }
        unreachable!()
    }

    /// The answer to a query over the Inserts that are then shown, in one look, in the time of a search
    /// (`search_eval::answer`). It never waits. `NoMemory` comes only if no memory is left, or the writer is gone.
    /// `steps` counts the steps of the index.
    ///
    /// A query for one value and nothing else takes at most 8 (1 + n) steps, whatever it returns, if the copy wasn't
    /// stale and n permanodes hold the value.
    pub fn search<L: Ledger>(
        self,
        alloc: Global,
        query: &Query,
        steps: &mut Steps<L>,
    ) -> (Watch<V>, Result<RefList, NoMemory>)
        ensures sees { Sees self result.0 }
        ensures answer { IfOk result.1 (λ refs. (keys : V) → keys_of self ≡ Some keys
            → refs ≡ answer (indexed (shown_of result.0)) (V.accepts keys) query.now) }
        ensures ticks { result.0.stale ≡ false → (keys : V) → keys_of self ≡ Some keys
            → TakesFewSteps query.now (shown_of result.0) (V.accepts keys) steps.old steps.new }
    {
        let Watch {
            reader,
            mine,
            stale,
        } = self;
        match search(alloc, reader, query, steps) {
            Ok((reader, found, stale, answer)) => (
                Watch {
                    reader,
                    mine: found,
                    stale,
                },
                answer,
            ),
            Err(reader) => (
                Watch {
                    reader,
                    mine,
                    stale,
                },
                Err(NoMemory),
            ),
        }
    }
}
