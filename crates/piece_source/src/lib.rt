//! A source in memory that gives its bytes in small pieces: for tests and yardsticks, and no part of the program.
#![tactic(auto)]

ghost use Rattle.std.specs.Prelude.{◌≡◌, ◌<◌, Some};

use blobref::Octets;
use edge_base::{CallList, Failed, MemSource, Source};
use std::alloc::Global;
use std::marker::Model;

/// Bytes to read, in memory, of which a read gives at most so many.
#[derive(Drop)]
pub struct PieceSource {
    source: MemSource,
    most: usize,
}

impl Model for PieceSource {
    ghost use Rattle.std.specs.Prelude.{◌<◌};
    ghost use Rattle.piece_source.specs.Pieces.{Pieces};

    ghost Value = { Pieces };

    ghost view = { λ s. record { left = s.source.left; most = s.most; faults = s.source.calls.faults } };

    ghost invariant = { λ s. 0 < s.most };
}

impl PieceSource {
    /// A source of the bytes, at most `most` of them a read, which is one at least. It never fails.
    pub fn of(alloc: Global, bytes: Octets, most: usize) -> PieceSource
        requires { 0 < most }
        ensures { result ≡ record { left = bytes; most = most; faults = 0 } }
    {
        PieceSource {
            source: MemSource::of(bytes, CallList::empty(alloc)),
            most,
        }
    }
}

impl Source for PieceSource {
    ghost left = { λ s. Some s.left };

    ghost faults = { λ s. s.faults };

    /// Gives as much as is left and the buffer has room for, and at most as much as a read gives.
    fn read(&mut self, buf: &mut [u8]) -> Result<usize, Failed> {
        let room = buf.len().min(self.most);
        self.source.read(&mut buf[..room])
    }

    fn faults(&self) -> u64 {
        self.source.faults()
    }
}
