//! The reader's and the writer's calls.
ghost use Rattle.std.specs.Prelude.{◌≡◌, ◌∷◌, [], false, Some, IfOk, IfErr, OnErr, drop};
ghost use Rattle.histories.specs.Indexes.{indexed};
ghost use Rattle.search_eval.specs.Answer.{answer};
ghost use Rattle.left_right.specs.Sides.{view};
ghost use Rattle.snap_copies.specs.declared.copies.Addition.{Addition};
ghost use Rattle.snap_copies.specs.Shows.{Looks, Fits};
ghost use Rattle.snap_copies.specs.Steps.{TakesFewSteps};

use crate::book::Front;
use crate::copies::{Addition, IndexCopy};
use crate::ended::Ended;
use crate::rule::{Published, Sees, Shown};
use blobref::{NoMemory, RefList};
use claim_verify::Verifier;
use edge_base::Steps;
use left_right::reader::Reader;
use left_right::writer::Writer;
use search_eval::answer;
use search_query::Query;
use std::alloc::Global;
use std::sync::Wait;
use std::sync::ledger::Ledger;
use std::thread;

/// A reader of the published copy.
pub type SnapReader<V> = Reader<IndexCopy<V>, Shown<V>, Published>;

/// The writer, which changes the copies and publishes them.
pub type SnapWriter<V> = Writer<IndexCopy<V>, Addition, Shown<V>, Published>;

/// The same, which ends by itself.
pub type SnapEnded<V, H> = Ended<IndexCopy<V>, Addition, Shown<V>, Published, H>;

/// The Inserts that are then shown. Those that were shown before are a prefix of them. It never waits, and fails if the
/// writer is gone.
pub(crate) fn look<V: Verifier + Drop>(
    reader: SnapReader<V>,
) -> Result<(SnapReader<V>, Front), SnapReader<V>>
    ensures ok { IfOk result (λ r. Looks (view reader.place) (view r.0.place) r.1) }
    ensures err { IfErr result (λ r. view r.place ≡ view reader.place) }
{
    let reading = reader.enter_as::<Sees>()?;
    let front = reading.get().front.again();
    Ok((reading.leave(), front))
}

/// The same, with the answer to a query over the Inserts that are then shown, and whether the copy was stale.
pub(crate) fn search<V: Verifier + Drop, L: Ledger>(
    alloc: Global,
    reader: SnapReader<V>,
    query: &Query,
    steps: &mut Steps<L>,
) -> Result<(SnapReader<V>, Front, bool, Result<RefList, NoMemory>), SnapReader<V>>
    ensures ok { IfOk result (λ r. Looks (view reader.place) (view r.0.place) r.1) }
    ensures answer { IfOk result (λ r. IfOk r.3 (λ refs. (keys : V) → (view r.0.place).keys ≡ Some keys
        → refs ≡ answer (indexed r.1.seen.log) (V.accepts keys) query.now)) }
    ensures ticks { IfOk result (λ r. r.2 ≡ false → (keys : V) → (view r.0.place).keys ≡ Some keys
        → TakesFewSteps query.now r.1.seen.log (V.accepts keys) steps.old steps.new) }
    ensures err { IfErr result (λ r. view r.place ≡ view reader.place) }
    ensures unsearched { OnErr result (steps.new ≡ steps.old) }
{
    let reading = reader.enter_as::<Sees>()?;
    let front = reading.get().front.again();
    let stale = reading.get().index.stale();
    let answer = answer(alloc, &reading.get().index, query, steps);
    Ok((reading.leave(), front, stale, answer))
}

// Tries to show readers the pending Insert. After `Err` nothing has changed.
fn publish_once<V: Verifier + Drop, R: Wait>(
    rt: &R,
    writer: SnapWriter<V>,
) -> Result<SnapWriter<V>, SnapWriter<V>>
    requires { (op : Addition) × (drop writer.behind writer.log.items ≡ op ∷ []) × Fits writer.desk.shown.value op }
    ensures published { IfOk result (λ w. (op : Addition) → drop writer.behind writer.log.items ≡ op ∷ []
        → w.desk.shown.value.front ≡ op.front) }
    ensures keys { IfOk result (λ w. w.desk.shown.value.index.keys ≡ writer.desk.shown.value.index.keys) }
    ensures none_pends { IfOk result (λ w. drop w.behind w.log.items ≡ []) }
    ensures same { IfErr result (λ w. w.desk.shown.value ≡ writer.desk.shown.value) }
    ensures pends { IfErr result (λ w. drop w.behind w.log.items ≡ drop writer.behind writer.log.items) }
{
    let (now, answer) = writer.publish_as::<Sees, R>(rt);
    match answer {
        Ok(()) => Ok(now),
        Err(_) => Err(now),
    }
}

/// Shows readers the pending Insert, and tries again until that succeeds. In fact the first try succeeds, since the
/// memory of the Insert was taken before.
pub(crate) fn publish<V: Verifier + Drop, R: Wait>(rt: &R, first: SnapWriter<V>) -> SnapWriter<V>
    requires { (op : Addition) × (drop first.behind first.log.items ≡ op ∷ []) × Fits first.desk.shown.value op }
    ensures published { (op : Addition) → drop first.behind first.log.items ≡ op ∷ []
        → result.desk.shown.value.front ≡ op.front }
    ensures keys { result.desk.shown.value.index.keys ≡ first.desk.shown.value.index.keys }
    ensures none_pends { drop result.behind result.log.items ≡ [] }
{
    let mut writer = first;
    'tries: for _ in rt.forever() {
        match publish_once(rt, writer) {
            Ok(now) => return now,
            Err(now) => writer = now,
        }
        thread::yield_now();
    }
    unreachable!()
}

/// Appends an Insert, which is then pending, and tries again until that succeeds. Only the first Insert may need more
/// than one try, until there is room for four: there are never more than two.
pub(crate) fn append<V: Verifier + Drop, R: Wait>(
    rt: &R,
    first: SnapWriter<V>,
    op: Addition,
) -> SnapWriter<V>
    requires { drop first.behind first.log.items ≡ [] }
    ensures desk { result.desk ≡ first.desk }
    ensures pends { drop result.behind result.log.items ≡ op ∷ [] }
{
    let mut writer = first;
    let mut left = op;
    'tries: for _ in rt.forever() {
        match writer.append(left) {
            Ok(()) => return writer,
            Err(op) => left = op,
        }
        thread::yield_now();
    }
    unreachable!()
}
