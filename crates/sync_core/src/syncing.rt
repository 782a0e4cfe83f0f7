//! One peer's blobs are copied to another.
ghost use Rattle.std.specs.Prelude.{◌≡◌, ◌≤◌, [], ℕ, ◌+◌, ◌-◌, ◌^◌, min, length, Some, IfOk, IfErr, option_copied};
ghost use Rattle.peer_base.specs.Blobs.{IsPage};
ghost use Rattle.peer_base.specs.Order.{last_ref, refs_of};
ghost use Rattle.listed_pages.specs.Answers.{IsReached};
ghost use Rattle.sync_core.specs.Copying.{AreThere, CopiesPage, CopiesSome};
ghost use Rattle.sync_core.specs.Syncing.{IsSynced, IsStopped};

use crate::copying::copy_all;
use blobref::{Listing, Ref};
use listed_pages::{PAGE, ask_once, lacking_of, last_ref};
use peer_base::{Peer, PeerFault};
use std::alloc::Global;

/// How many blobs were copied, and how many stood there already.
#[derive(Clone, Copy, Debug, PartialEq, Eq)]
pub struct Synced {
    pub copied: u64,
    pub already: u64,
}

/// Why not all was copied.
#[derive(Clone, Copy, PartialEq, Eq)]
pub enum SyncFault {
    /// The peer that is copied from didn't answer.
    Source(PeerFault),
    /// The peer that is copied to didn't answer.
    Target(PeerFault),
    /// A ref that the source had listed isn't there any more.
    Gone { r: Ref },
}

/// Copies each blob of the source whose ref the target lacks, in the order of refs. What the source holds stays as it
/// is.
///
/// At `Ok`, whether or not the two tell what they hold: the source listed pages, each after the last ref of the one
/// before, and then an empty one. Beside each page the target listed its own, up to the page's last ref. Each ref that
/// isn't on these was fetched and put, and is counted as `copied`; each other one counts as `already`. A count stays at
/// the last value of its type. The target was reached: where the source has no refs, it is asked for its own once.
///
/// After an error the same holds of the pages before the one at hand, and of the first refs of that one. The error is
/// what the call answered that came next, `Gone` a `None` for a ref that the source had listed, or want of memory.
/// `Failed` comes only where that peer's count of faults rose, `Full` only of a target that has no room for the next
/// blob, `BadReply`, `Refused` and `Damaged` never of a peer that tells what it holds, and `Gone` never where the
/// source does.
///
/// Where both tell what they hold, the target then holds what it held and the blobs that it lacked; after an error it
/// holds what it held and a front of them.
///
/// It asks for pages of 1,000 refs of both, for each blob that is lacking once, and gives it once. It takes the memory
/// of a page of each, of some refs and of a blob, and the time of one walk over both listings.
pub fn sync<A: Peer, B: Peer>(
    alloc: Global,
    source: &mut A,
    target: &mut B,
) -> Result<Synced, SyncFault>
    ensures told { A.content source.new ≡ A.content source.old }
    ensures ok { IfOk result (IsSynced A.Peer B.Peer source.old source.new target.old target.new) }
    ensures err { IfErr result (IsStopped A.Peer B.Peer source.old source.new target.old target.new) }
    ensures source_later { A.faults source.old ≤ A.faults source.new }
    ensures target_later { B.faults target.old ≤ B.faults target.new }
    ensures nothing { A.puts source.old [] source.new }
    ensures run { B.follows target.old target.new }
{
    source.blobs_are_small();
    let mut done = Synced {
        copied: 0,
        already: 0,
    };
    let mut after = None;
    let mut page = match source.list(None, PAGE) {
        Ok(page) => page,
        Err(fault) => return Err(SyncFault::Source(fault)),
    };
    let mut end = last_ref(page.as_slice());
    'pages: loop {
        let last = match end {
            Some(last) => last,
            None => match ask_once(target, after.is_some()) {
                Ok(()) => return Ok(done),
                Err(fault) => return Err(SyncFault::Target(fault)),
            },
        };
        let copied = match copy_page(alloc, source, target, after.as_ref(), &page, &last) {
            Ok(copied) => copied,
            Err(fault) => return Err(fault),
        };
        done = more(done, copied, page.len() - copied);
        page = match source.list(Some(&last), PAGE) {
            Ok(page) => page,
            Err(fault) => return Err(SyncFault::Source(fault)),
        };
        after = end;
        end = last_ref(page.as_slice());
    }
}

// Copies the blobs of a page, behind a ref, that the target lacks, and says how many these are.
fn copy_page<A: Peer, B: Peer>(
    alloc: Global,
    source: &mut A,
    target: &mut B,
    after: Option<&Ref>,
    page: &Listing,
    last: &Ref,
) -> Result<usize, SyncFault>
    requires page { IsPage (option_copied after) 1000 page.now }
    requires there { AreThere (A.content source.old) (refs_of page.now) }
    requires last { last_ref page.now ≡ Some last.now }
    ensures told { A.content source.new ≡ A.content source.old }
    ensures ok { IfOk result (CopiesPage A.Peer B.Peer source.old source.new target.old target.new
        (option_copied after.entry) last.now page.now) }
    ensures few { IfOk result (λ n. n ≤ length page.now) }
    ensures reached { IfOk result (λ n. IsReached B.Peer target.old target.new) }
    ensures err { IfErr result (CopiesSome A.Peer B.Peer source.old source.new target.old target.new
        (option_copied after.entry) last.now page.now) }
    ensures source_later { A.faults source.old ≤ A.faults source.new }
    ensures target_later { B.faults target.old ≤ B.faults target.new }
    ensures nothing { A.puts source.old [] source.new }
    ensures run { B.follows target.old target.new }
{
    let refs = match lacking_of(alloc, target, after, page, last) {
        Ok(refs) => refs,
        Err(fault) => return Err(SyncFault::Target(fault)),
    };
    match copy_all(source, target, refs.as_slice()) {
        Ok(()) => Ok(refs.len()),
        Err(fault) => Err(fault),
    }
}

// So many more.
fn more(done: Synced, copied: usize, already: usize) -> Synced
    ensures copied { result.copied ≡ min (done.copied + copied) (2 ^ 64 - 1) }
    ensures already { result.already ≡ min (done.already + already) (2 ^ 64 - 1) }
{
    Synced {
        copied: done.copied.saturating_add(copied as u64),
        already: done.already.saturating_add(already as u64),
    }
}
