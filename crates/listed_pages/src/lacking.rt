//! Which refs of a page a peer lacks.
ghost use Rattle.std.specs.Prelude.{◌≡◌, ◌≤◌, [], ℕ, List, false, not, filter, Some, None, Err, IfOk, IfErr, OnOk};
ghost use Rattle.std.specs.Prelude.{option_copied};
ghost use Rattle.std.specs.Option.{ForSome};
ghost use Rattle.std.specs.FinMap.{contains_key};
ghost use Rattle.peer_base.specs.Blobs.{IsPage};
ghost use Rattle.peer_base.specs.Order.{refs_of, last_ref};
ghost use Rattle.listed_pages.specs.Answers.{IsReached, TargetAnswered};
ghost use Rattle.listed_pages.specs.Causes.{ListFault};
ghost use Rattle.listed_pages.specs.Pages.{Page, refs_off, ListsUpTo, StopsListing, AsksOnce};

use crate::pages::{PAGE, last_ref, others, reaches, refs_of};
use blobref::{Listing, Ref};
use peer_base::{Peer, PeerFault};
use std::alloc::Global;

/// The refs of a page that another peer doesn't list, in their order: those that it lacks, where it tells what it
/// holds.
///
/// `after` is the ref that the page follows, and `last` the page's last one. The target is asked for pages of 1,000
/// refs after that ref, one after the other, up to `last`. A fault is what one of these calls answered, or want of
/// memory. Nothing is put. It takes the memory of a page and of the refs, and the time of one walk over both.
pub fn lacking_of<B: Peer>(
    alloc: Global,
    target: &mut B,
    after: Option<&Ref>,
    page: &Listing,
    last: &Ref,
) -> Result<Vec<Ref>, PeerFault>
    requires page { IsPage (option_copied after) 1000 page.now }
    requires last { last_ref page.now ≡ Some last.now }
    ensures lacking { IfOk result (λ refs. ForSome (B.content target.old)
        (λ held. refs.items ≡ filter (λ r. not (contains_key held r)) (refs_of page.now))) }
    ensures listed { IfOk result (λ refs. (pages : List Page)
        × ListsUpTo B.Peer target.old (option_copied after.entry) last.now pages target.new
        × (refs.items ≡ refs_off pages page.now)) }
    ensures stopped { IfErr result (StopsListing B.Peer target.old (option_copied after.entry) target.new) }
    ensures reached { IfOk result (λ refs. IsReached B.Peer target.old target.new) }
    ensures told { B.content target.new ≡ B.content target.old }
    ensures cause { IfErr result (ListFault (B.content target.old) (B.faults target.old) (B.faults target.new)) }
    ensures answered { IfErr result (TargetAnswered B.Peer target.old target.new) }
    ensures later { B.faults target.old ≤ B.faults target.new }
    ensures nothing { B.puts target.old [] target.new }
{
    let Ok(mut refs) = refs_of(alloc, page.as_slice()) else {
        return Err(PeerFault::NoMemory);
    };
    let mut held = match target.list(after, PAGE) {
        Ok(held) => held,
        Err(fault) => return Err(fault),
    };
    let mut end = last_ref(held.as_slice());
    'pages: loop {
        let Some(r) = end else {
            return Ok(refs);
        };
        refs = others(alloc, refs.as_slice(), held.as_slice())?;
        if reaches(&r, last) {
            return Ok(refs);
        }
        held = match target.list(Some(&r), PAGE) {
            Ok(held) => held,
            Err(fault) => return Err(fault),
        };
        end = last_ref(held.as_slice());
    }
}

/// Asks a peer for its first page of 1,000 refs, unless it was asked before. A fault is what it answered. Nothing is
/// put.
pub fn ask_once<B: Peer>(target: &mut B, asked: bool) -> Result<(), PeerFault>
    ensures once { OnOk result (AsksOnce B.Peer asked target.old target.new) }
    ensures stopped { IfErr result (λ e. (asked ≡ false) × B.lists target.old None 1000 (Err e) target.new) }
    ensures reached { OnOk result (asked ≡ false → IsReached B.Peer target.old target.new) }
    ensures told { B.content target.new ≡ B.content target.old }
    ensures cause { IfErr result (ListFault (B.content target.old) (B.faults target.old) (B.faults target.new)) }
    ensures answered { IfErr result (TargetAnswered B.Peer target.old target.new) }
    ensures later { B.faults target.old ≤ B.faults target.new }
    ensures nothing { B.puts target.old [] target.new }
{
    if asked {
        return Ok(());
    }
    match target.list(None, PAGE) {
        Ok(_page) => Ok(()),
        Err(fault) => Err(fault),
    }
}
