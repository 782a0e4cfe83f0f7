//! The blobs that a seat reads ahead.
ghost use Rattle.std.specs.Prelude.{◌≡◌, ◌+◌, [], ◌∷◌, IfSome, IfNone};

use blob_checks::COUNT;
use blobref::{Octets, Ref};
use std::alloc::Global;
use std::collections::VecDeque;

/// The blobs that a seat has read ahead of requests for their numbers: fewer than 64, of at most 8 MiB together.
#[derive(Drop)]
pub struct Ahead {
    // The number of the last request.
    pub(super) last: u64,
    // Blobs of the numbers after it, in their order, each under its own ref.
    pub(super) blobs: VecDeque<(Ref, Octets)>,
    // How many blobs are read in the next turn, including the requested one.
    pub(super) width: u64,
}

impl Ahead {
    /// Nothing was read ahead.
    pub(super) fn nothing(alloc: Global) -> Ahead
        ensures { result.blobs.items ≡ [] }
    {
        Ahead {
            last: 0,
            blobs: VecDeque::new(alloc),
            width: 1,
        }
    }

    /// The blob of a requested number, if it was read ahead. If it wasn't, none is left. Then the next turn reads one
    /// blob, or twice as many as the last turn, up to 64, if the number follows the last requested one.
    pub(super) fn take(&mut self, number: u64) -> Option<(Ref, Octets)>
        ensures last { self.new.last ≡ number }
        ensures taken { IfSome result
            (λ b. (number ≡ self.old.last + 1) × (self.old.blobs.items ≡ b ∷ self.new.blobs.items)) }
        ensures none { IfNone result (self.new.blobs.items ≡ []) }
    {
        let follows = number > self.last && number - self.last == 1;
        self.last = number;
        if !follows {
            self.blobs.clear();
            self.width = 1;
            return None;
        }
        let Some(blob) = self.blobs.pop_front() else {
            self.width = self.width.saturating_mul(2).min(COUNT as u64);
            return None;
        };
        Some(blob)
    }

    /// Keeps the blobs that were read after a number.
    pub(super) fn keep(&mut self, number: u64, blobs: VecDeque<(Ref, Octets)>)
        ensures last { self.new.last ≡ number }
        ensures blobs { self.new.blobs.items ≡ blobs.items }
    {
        self.last = number;
        self.blobs = blobs;
    }
}
