//! Makes the writer of the two copies, and its readers.
ghost use Rattle.std.specs.Prelude.{◌≡◌, [], IfOk, OnOk, drop};
ghost use Rattle.std.specs.FinMap as finite;
ghost use Rattle.left_right.specs.Sides.{view};
ghost use Rattle.snap_copies.specs.Shows.{known_of};
ghost use Rattle.snap_copies.specs.Linked.{AreLinked, HasOneMore, IsLinked};

use crate::book::Pusher;
use crate::copies::IndexCopy;
use crate::rule::{Learns, Sees, Tells};
use crate::showing::SnapWriter;
use crate::watch::Watch;
use blobref::NoMemory;
use claim_index::Index;
use claim_verify::Verifier;
use left_right::writer::Writer;
use std::alloc::Global;
use std::sync::Wait;

// One copy, with no facts.
fn copy_of_none<V: Verifier + Drop>(alloc: Global, keys: V, pusher: &Pusher) -> IndexCopy<V>
    ensures facts { result.index.facts ≡ finite.empty }
    ensures numbers { result.index.numbers ≡ finite.empty }
    ensures keys { result.index.keys ≡ keys }
    ensures front { result.front ≡ pusher.now.front }
{
    IndexCopy {
        index: Index::fresh(alloc, keys),
        front: pusher.front.again(),
    }
}

/// The writer over two copies with no facts. It knows their list and their keys, and has room for so many readers, at
/// least one. `NoMemory` comes only if no memory is left, or there would be 2^32 readers. All memory is taken from
/// the allocator.
pub fn new_writer<V: Verifier + Copy + Drop, R: Wait>(
    rt: &R,
    alloc: Global,
    keys: V,
    pusher: &Pusher,
    readers: usize,
) -> Result<SnapWriter<V>, NoMemory>
    requires { pusher.now.front.seen.log ≡ [] }
    ensures front { IfOk result (λ w. w.desk.shown.value.front.seen ≡ pusher.now.front.seen) }
    ensures keys { IfOk result (λ w. w.desk.shown.value.index.keys ≡ keys) }
    ensures none_pends { IfOk result (λ w. drop w.behind w.log.items ≡ []) }
    ensures view { IfOk result (λ w. view w.desk.place ≡ known_of w.desk.shown.value) }
{
    let count = readers.max(1);
    if count >= 1 << 32 {
        return Err(NoMemory);
    }
    let first = copy_of_none(alloc, keys, pusher);
    let second = copy_of_none(alloc, keys, pusher);
    let Ok(writer) = Writer::new(alloc, first, second, count) else {
        return Err(NoMemory);
    };
    let (writer, answer) = writer.publish_as::<Sees, R>(rt);
    match answer {
        Ok(()) => Ok(writer),
        Err(_) => {
            let _copy = writer.take(rt);
            Err(NoMemory)
        }
    }
}

// A reader that has learned what the writer knows.
fn new_watch<V: Verifier + Drop>(writer: &mut SnapWriter<V>) -> Result<Watch<V>, NoMemory>
    requires { view writer.old.desk.place ≡ known_of writer.old.desk.shown.value }
    ensures shown { writer.new.desk.shown ≡ writer.old.desk.shown }
    ensures view { view writer.new.desk.place ≡ view writer.old.desk.place }
    ensures log { (writer.new.log ≡ writer.old.log) × (writer.new.behind ≡ writer.old.behind) }
    ensures watch { IfOk result (IsLinked writer.old.desk.shown.value) }
{
    let Ok(mut reader) = writer.factory().reader() else {
        return Err(NoMemory);
    };
    reader.learn::<Learns>(writer.tell::<Tells>());
    let mine = writer.published().front.again();
    Ok(Watch {
        reader,
        mine,
        stale: false,
    })
}

// So many readers, each of which has learned what the writer knows.
fn fill<V: Verifier + Drop>(
    writer: &mut SnapWriter<V>,
    watches: &mut Vec<Watch<V>>,
    readers: usize,
) -> Result<(), NoMemory>
    requires knows { view writer.old.desk.place ≡ known_of writer.old.desk.shown.value }
    requires none { watches.old.items ≡ [] }
    ensures shown { writer.new.desk.shown ≡ writer.old.desk.shown }
    ensures pends { drop writer.new.behind writer.new.log.items ≡ drop writer.old.behind writer.old.log.items }
    ensures watches { OnOk result (AreLinked writer.old.desk.shown.value readers watches.new.items) }
{
    'readers: for _ in 0..readers {
        add_watch(writer, watches)?;
    }
    Ok(())
}

fn add_watch<V: Verifier + Drop>(
    writer: &mut SnapWriter<V>,
    watches: &mut Vec<Watch<V>>,
) -> Result<(), NoMemory>
    requires { view writer.old.desk.place ≡ known_of writer.old.desk.shown.value }
    ensures shown { writer.new.desk.shown ≡ writer.old.desk.shown }
    ensures view { view writer.new.desk.place ≡ view writer.old.desk.place }
    ensures log { (writer.new.log ≡ writer.old.log) × (writer.new.behind ≡ writer.old.behind) }
    ensures watches { OnOk result (HasOneMore writer.old.desk.shown.value watches.old.items watches.new.items) }
{
    let watch = new_watch(writer)?;
    watches.push(watch)?;
    Ok(())
}

/// A writer that knows what it has published, with so many readers that know it too. `NoMemory` comes only if no
/// memory is left, or there are more readers than the writer has room for; the writer is then ended, which waits until
/// the readers have left one copy.
pub fn linked<V: Verifier + Drop, R: Wait>(
    rt: &R,
    alloc: Global,
    first: SnapWriter<V>,
    readers: usize,
) -> Result<(SnapWriter<V>, Vec<Watch<V>>), NoMemory>
    requires { view first.desk.place ≡ known_of first.desk.shown.value }
    ensures shown { IfOk result (λ r. r.0.desk.shown ≡ first.desk.shown) }
    ensures pends { IfOk result (λ r. drop r.0.behind r.0.log.items ≡ drop first.behind first.log.items) }
    ensures watches { IfOk result (λ r. AreLinked first.desk.shown.value readers r.1.items) }
{
    let mut writer = first;
    let mut watches = Vec::new(alloc);
    match fill(&mut writer, &mut watches, readers) {
        Ok(()) => Ok((writer, watches)),
        Err(_) => {
            let _copy = writer.take(rt);
            Err(NoMemory)
        }
    }
}
