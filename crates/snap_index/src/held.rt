//! The writer and the numbers, the content of the lock.
use claim_verify::Verifier;
use histories::{IndexEvent, Insertion};
use logbook::Word;
use snap_copies::{Law, Pusher, SnapEnded};
use std::alloc::Global;
use std::sync::Wait;
use turn_cell::Told;
use work_numbers::WorkNumbers;

pub(crate) mod jobs;
pub(crate) mod turns;

/// What no turn changes: the keys, and the word of memory whose book is that of the Inserts. No value of this type is
/// made.
pub struct About<V> {
    pub keys: V,
    pub head: Word<Insertion, u64, Law>,
}

/// The content of the lock: the writer's end, the part that adds to the list of Inserts, all of which are published,
/// and the numbers.
#[derive(Drop)]
pub struct Held<V, C> {
    pub(crate) alloc: Global,
    pub(crate) desk: C,
    pub(crate) pusher: Pusher,
    pub(crate) numbers: WorkNumbers,
    pub(crate) keys: V,
}

/// The same with its writer.
pub type SnapHeld<V, H> = Held<V, SnapEnded<V, H>>;

impl<V: Verifier + Drop, H: Wait + Drop> Told for Held<V, SnapEnded<V, H>> {
    ghost use Rattle.std.specs.Prelude.{[], drop};
    ghost use Rattle.histories.specs.Indexes.{is_legal_index};
    ghost use Rattle.snap_index.specs.Telling.{HeldTells};

    type Entry = IndexEvent;

    type About = About<V>;

    ghost about = { λ h. record { keys = h.keys; head = h.pusher.head } };

    ghost tells = { λ h log. HeldTells h (λ c. c.writer) (λ w. w.desk.shown.value) (λ w. drop w.behind w.log.items) log };

    ghost begins = { λ h. [] };

    ghost legal = { λ about h. is_legal_index h };

    ghost is_legal = { λ h log t. t.numbers.legal };
}
