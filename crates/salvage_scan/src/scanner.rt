//! Goes through a pack that comes in pieces.
ghost use Rattle.std.specs.Prelude.{◌≡◌, ◌+◌, ◌≤◌, ◌<◌, ◌^◌, ◌++◌, [], length, drop, true, false, All, IfOk, OnOk};
ghost use Rattle.std.specs.Prelude.{OnErr};
ghost use Rattle.salvage_scan.specs.Pieces.{fresh, fed, is_open, ScanRun, Waits, Tells, Ends, LiesNear, Keeps, IsKept};
ghost use Rattle.salvage_scan.specs.Pieces.{LiesKept, kept_at, longest_piece};

use crate::ahead::BYTES;
use crate::found::{Clean, Found, FoundList};
use crate::scanning::{Told, tell};
use blobref::NoMemory;
use std::alloc::Global;
use std::marker::Model;

// The length of a piece where records are short, or too long to be looked at together.
const PIECE: usize = 65_536;

// The longest record that is short.
const SHORT: usize = 8_192;

/// Scans a pack that is fed in pieces (`docs/formats/packs.md`). What it tells doesn't depend on how the pack is cut.
/// It holds back the bytes of one record or deleted record with its header at most, which are 16,777,372, and keeps
/// those of what it told until the next call: so it never has more than these and one piece.
#[derive(Drop)]
pub struct Scanner {
    alloc: Global,
    // The place of the first byte that is kept.
    from: u64,
    kept: Vec<u8>,
    // How many of them were told.
    told: usize,
    wants: usize,
    clean: Clean,
    spent: bool,
}

impl Model for Scanner {
    ghost use Rattle.std.specs.Prelude.{◌+◌, drop};
    ghost use Rattle.salvage_scan.specs.Pieces.{Scanning, IsScanner};

    ghost Value = { Scanning };

    ghost view = { λ s. record { from = s.from; kept = s.kept.items; at = s.from + s.told; held = drop s.told s.kept.items; clean = s.clean; spent = s.spent } };

    ghost invariant = { λ s. IsScanner s.from s.kept.items s.told };
}

impl Scanner {
    /// A scanner before the first byte of a pack. It takes no memory before the first piece.
    pub fn start(alloc: Global) -> Result<Scanner, NoMemory>
        ensures { IfOk result (λ scanner. scanner ≡ fresh) }
    {
        Ok(Scanner {
            alloc,
            from: 0,
            kept: Vec::new(alloc),
            told: 0,
            wants: 0,
            clean: Clean::Yes,
            spent: false,
        })
    }

    /// Takes the next piece of the pack, and answers what was found that doesn't depend on what follows: each finding
    /// begins at most 16,777,372 bytes before the place at which the piece begins. The bytes of each are kept until the
    /// next call (`bytes`). After `NoMemory` every call answers it. The pieces must have fewer than 2^64 bytes in all.
    ///
    /// Each byte is copied at most twice, and a blob is hashed once it is whole, as `scan` does. Memory is taken for
    /// one record and one piece.
    pub fn feed(&mut self, piece: &[u8]) -> Result<FoundList, NoMemory>
        requires { fed self.old + length piece.now < 2 ^ 64 }
        ensures tells { IfOk result (λ told. Tells self.old piece.now told self.new) }
        ensures near { IfOk result (All (LiesNear (fed self.old) (fed self.new))) }
        ensures fed { OnOk result (fed self.new ≡ fed self.old + length piece.now) }
        ensures keeps { OnOk result (Keeps self.old piece.now self.new) }
        ensures kept { IfOk result (All (IsKept self.new)) }
        ensures spent { OnErr result (self.new.spent ≡ true) }
        ensures again { IfOk result (λ told. self.old.spent ≡ false) }
    {
        self.step(piece, false)
    }

    /// The end of the pack: what else was found, each beginning at most 16,777,372 bytes before the end, and whether
    /// the pack is clean. The bytes of what was found are kept (`bytes`), and nothing waits any more. `NoMemory` comes
    /// also where an earlier call has answered it.
    pub fn finish(&mut self) -> Result<(FoundList, Clean), NoMemory>
        ensures ends { IfOk result (Ends self.old) }
        ensures near { IfOk result (λ told. All (LiesNear (fed self.old) (fed self.old)) told.0) }
        ensures keeps { OnOk result (Keeps self.old [] self.new) }
        ensures kept { IfOk result (λ told. All (IsKept self.new) told.0) }
        ensures all { OnOk result (self.new.held ≡ []) }
        ensures spent { OnErr result (self.new.spent ≡ true) }
        ensures again { IfOk result (λ told. self.old.spent ≡ false) }
    {
        // Reading a field brings the scanner's invariant.
        let _kept = &self.kept;
        let found = self.step(&[], true)?;
        Ok((found, self.clean))
    }

    /// The same as `finish`, where the bytes of what is found aren't asked for.
    pub fn end(self) -> Result<(FoundList, Clean), NoMemory>
        ensures ends { IfOk result (Ends self) }
        ensures near { IfOk result (λ told. All (LiesNear (fed self) (fed self)) told.0) }
        ensures again { IfOk result (λ told. self.spent ≡ false) }
    {
        let mut scanner = self;
        scanner.finish()
    }

    /// How many bytes the next piece should have at most: more where what waits is a record of some length, so that
    /// several whole ones come together and are hashed several at a time. It is a hint: what is told is the same
    /// whatever the pieces are.
    pub fn room(&self) -> usize
        ensures some { 0 < result }
        ensures most { result ≤ longest_piece }
    {
        room_for(self.wants)
    }

    /// The bytes of what the last call told.
    pub fn bytes(&self, found: &Found) -> &[u8]
        requires { LiesKept self.now found.now }
        ensures { result.now ≡ kept_at self.now found.now }
    {
        let start = (found.at - self.from) as usize;
        &self.kept[start..start + found.size as usize]
    }

    // Lets go what was told, and takes a piece behind what waits; behind the last one nothing follows.
    fn step(&mut self, piece: &[u8], last: bool) -> Result<FoundList, NoMemory>
        requires { fed self.old + length piece.now < 2 ^ 64 }
        ensures leads { IfOk result (λ told. ScanRun last self.old.at self.old.clean (self.old.held ++ piece.now) told
            self.new.at self.new.clean self.new.held) }
        ensures keeps { OnOk result (Keeps self.old piece.now self.new) }
        ensures waits { OnOk result (Waits last self.new.held) }
        ensures held { is_open self.old.held ≡ true }
        ensures spent { OnErr result (self.new.spent ≡ true) }
        ensures again { IfOk result (λ told. self.old.spent ≡ false) }
    {
        if self.spent {
            return Err(NoMemory);
        }
        drop_front(&mut self.kept, self.told);
        self.from += self.told as u64;
        self.told = 0;
        match advance(
            self.alloc,
            self.from,
            self.clean,
            self.wants,
            &mut self.kept,
            piece,
            last,
        ) {
            Ok(told) => {
                self.told = told.used;
                self.clean = told.clean;
                self.wants = told.wants;
                Ok(told.found)
            }
            Err(NoMemory) => {
                self.spent = true;
                self.kept.clear();
                Err(NoMemory)
            }
        }
    }
}

// How many bytes the next piece should have, where so many are wanted for the record that waits.
fn room_for(wants: usize) -> usize
    ensures some { 0 < result }
    ensures most { result ≤ longest_piece }
{
    if wants > SHORT && wants <= BYTES {
        BYTES
    } else {
        PIECE
    }
}

// Keeps the piece behind the bytes that are kept, and tells what they tell.
fn advance(
    alloc: Global,
    at: u64,
    clean: Clean,
    wants: usize,
    kept: &mut Vec<u8>,
    piece: &[u8],
    last: bool,
) -> Result<Told, NoMemory>
    requires { at + (length kept.old.items + length piece.now) < 2 ^ 64 }
    ensures kept { OnOk result (kept.new.items ≡ kept.old.items ++ piece.now) }
    ensures used { IfOk result (λ told. told.used ≤ length kept.new.items) }
    ensures leads { IfOk result (λ told. ScanRun last at clean kept.new.items told.found
        (at + told.used) told.clean (drop told.used kept.new.items)) }
    ensures waits { IfOk result (λ told. Waits last (drop told.used kept.new.items)) }
{
    push(kept, wants, piece)?;
    let told = tell(alloc, at, clean, kept, last)?;
    Ok(told)
}

// Puts a piece behind bytes, of which so many are wanted.
fn push(bytes: &mut Vec<u8>, wants: usize, piece: &[u8]) -> Result<(), NoMemory>
    ensures { OnOk result (bytes.new.items ≡ bytes.old.items ++ piece.now) }
{
    if piece.is_empty() {
        return Ok(());
    }
    bytes.reserve_exact(
        wants
            .saturating_sub(bytes.len())
            .saturating_add(piece.len()),
    )?;
    bytes.extend_from_slice(piece)?;
    Ok(())
}

// Takes so many bytes away in front.
fn drop_front(bytes: &mut Vec<u8>, count: usize)
    requires { count ≤ length bytes.old.items }
    ensures { bytes.new.items ≡ drop count bytes.old.items }
{
    if count > 0 {
        let len = bytes.len();
        bytes.copy_within(count..len, 0);
        bytes.truncate(len - count);
    }
}
