//! One pack in memory, with what of it is durable.
ghost use Rattle.std.specs.Prelude.{◌≡◌, ◌&&◌, not, OnOk, OnErr, IfOk};
ghost use Rattle.pack_disk.specs.PackState.{fresh, begun, grown, settled};
ghost use Rattle.pack_disk.specs.Left.{left, takes_packs, tail_left};

use crate::loss::Loss;
use crate::remains::Remains;
use blobref::{NoMemory, Octets};
use std::alloc::Global;
use std::marker::Model;

/// The bytes of a pack, and how many of them were there at the last sync. It never gets shorter, so its length is the
/// greatest.
#[derive(Drop)]
pub struct Pack {
    bytes: Vec<u8>,
    synced: usize,
    named: bool,
}

impl Model for Pack {
    ghost use Rattle.std.specs.Prelude.{◌≤◌, take, length};
    ghost use Rattle.pack_disk.specs.PackState.{PackState};

    ghost Value = { PackState };

    ghost view = { λ p. record { now = p.bytes.items; synced = take p.synced p.bytes.items; named = p.named; longest = length p.bytes.items } };

    ghost invariant = { λ p. p.synced ≤ length p.bytes.items };
}

impl Pack {
    /// A pack without bytes, which was never synced.
    pub fn fresh(alloc: Global) -> Pack
        ensures { result ≡ fresh }
    {
        Pack {
            bytes: Vec::new(alloc),
            synced: 0,
            named: false,
        }
    }

    /// A pack as a crash left it.
    pub fn begin(alloc: Global, remains: &Remains) -> Result<Pack, NoMemory>
        ensures { IfOk result (λ pack. pack ≡ begun remains.now) }
    {
        let mut bytes = Vec::from_slice(alloc, remains.synced.as_slice())?;
        let synced = bytes.len();
        bytes.extend_from_slice(remains.tail.as_slice())?;
        Ok(Pack {
            bytes,
            synced,
            named: remains.named,
        })
    }

    /// Adds bytes. After a refusal the pack is as before.
    pub fn append(&mut self, bytes: &[u8]) -> Result<(), NoMemory>
        ensures ok { OnOk result (self.new ≡ grown bytes.now self.old) }
        ensures err { OnErr result (self.new ≡ self.old) }
    {
        self.bytes.extend_from_slice(bytes)?;
        Ok(())
    }

    /// Makes all bytes durable.
    pub fn settle(&mut self)
        ensures { self.new ≡ settled self.old }
    {
        self.synced = self.bytes.len();
        self.named = true;
    }

    /// The bytes.
    pub fn as_slice(&self) -> &[u8]
        ensures { result.now ≡ self.now.now }
    {
        self.bytes.as_slice()
    }

    /// What a crash leaves of the pack, by a choice: `None` if it is missing.
    pub fn left(&self, alloc: Global, choice: u64) -> Result<Option<Remains>, NoMemory>
        ensures { IfOk result (λ remains. remains ≡ left choice self.now) }
    {
        let loss = Loss::of(choice);
        if self.is_lost(loss) {
            return Ok(None);
        }
        let (synced, _) = self.bytes.as_slice().split_at(self.synced);
        Ok(Some(Remains {
            synced: Octets::copy(alloc, synced)?,
            tail: self.tail_left(alloc, loss, choice)?,
            named: self.named,
        }))
    }

    fn is_lost(&self, loss: Loss) -> bool
        ensures { result ≡ (takes_packs loss && not self.now.named) }
    {
        loss.takes_packs() && !self.named
    }

    // What stays of the tail.
    fn tail_left(&self, alloc: Global, loss: Loss, choice: u64) -> Result<Octets, NoMemory>
        ensures { IfOk result (λ bytes. bytes ≡ tail_left loss choice self.now) }
    {
        let (_, tail) = self.bytes.as_slice().split_at(self.synced);
        let mut kept = Vec::from_slice(alloc, &tail[..loss.kept(tail.len())])?;
        loss.spoil(choice, kept.as_mut_slice());
        Ok(Octets::from_vec(kept))
    }
}
