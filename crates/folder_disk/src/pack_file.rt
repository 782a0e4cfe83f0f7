//! The files of packs: those that are read, and those that are added to.
ghost use Rattle.std.specs.Prelude.{◌≡◌, ◌≤◌, length, IfOk};

use crate::identity::Identity;
use edge_os::again::{self, uninterrupted};
use std::alloc::Global;
use std::collections::BTreeMap;
use std::fs::{self, File, OpenOptions};
use std::io::{self, ErrorKind, Write};
use std::os::unix::fs::OpenOptionsExt;

// Who may use a file that is made: its owner alone.
const OWNER_ONLY: u32 = 0o600;

/// Opens a regular file. Nothing else is opened, so that nobody waits for the other end of a pipe.
pub fn open_regular(rt: &HostRuntime, how: &OpenOptions, path: &str) -> io::Result<File> {
    if uninterrupted(|| fs::metadata(rt, path))?.is_file() {
        how.open(rt, path)
    } else {
        Err(io::Error::from(ErrorKind::InvalidInput))
    }
}

// How many packs are open for reading at most.
const MAX_OPEN: usize = 64;

/// The packs that were read. Their files stay open, until there are 64 and another one is read.
#[derive(Drop)]
pub(crate) struct OpenPacks {
    open: BTreeMap<u32, File>,
}

impl OpenPacks {
    pub(crate) fn none(alloc: Global) -> OpenPacks {
        OpenPacks {
            open: BTreeMap::new(alloc),
        }
    }

    pub(crate) fn is_open(&self, number: u32) -> bool {
        self.open.contains_key(&number)
    }

    /// Opens the file of a pack.
    pub(crate) fn open(&mut self, rt: &HostRuntime, number: u32, path: &str) -> io::Result<()> {
        let file = open_regular(rt, File::options().read(true), path)?;
        if self.open.len() >= MAX_OPEN {
            self.open.pop_first();
        }
        self.open.insert(number, file)?;
        Ok(())
    }

    /// The file of a pack that is open.
    pub(crate) fn file(&self, number: u32) -> io::Result<&File> {
        match self.open.get(&number) {
            Some(file) => Ok(file),
            None => Err(io::Error::from(ErrorKind::NotFound)),
        }
    }
}

/// Puts the bytes of a file from a place on in front of the buffer, as many as there are and as there is room for.
pub(crate) fn fill(file: &File, at: u64, buf: &mut [u8]) -> io::Result<usize>
    ensures bound { IfOk result (λ n. n ≤ length buf.old) }
{
    let mut filled = 0;
    'pieces: while filled < buf.len() {
        let n = again::read_at(file, &mut buf[filled..], at.saturating_add(filled as u64))?;
        if n == 0 {
            return Ok(filled);
        }
        filled += n;
    }
    Ok(filled)
}

/// The packs that were made or added to. Their files stay open until all that was added is synced, and another pack is
/// made or added to.
#[derive(Drop)]
pub(crate) struct UnsyncedPacks {
    packs: Vec<Grown>,
}

#[derive(Drop)]
struct Grown {
    number: u32,
    file: File,
    // The path of the file, and its identity: so one call tells whether the path still leads to it.
    path: String,
    identity: Identity,
    // How many bytes it had when it was opened, or synced last.
    size: u64,
    // How many were added since.
    added: u64,
    // Whether it was made here, and not synced so far.
    is_fresh: bool,
}

impl Grown {
    // Cuts it back to what was synced of it, which gives the space of the rest back; answers whether that was done.
    fn cut(&self) -> bool {
        self.file.set_len(self.size).is_ok() && self.file.sync_all().is_ok()
    }

    // Whether it has nothing but its name: it was made here, was never synced, and has no bytes.
    fn is_void(&self) -> bool {
        match uninterrupted(|| self.file.metadata()) {
            Ok(found) => self.is_fresh && found.len() == 0,
            Err(_) => false,
        }
    }

    // Removes the file if it has nothing but its name, unless the path leads to another one. Where that fails it stays,
    // empty.
    fn remove_void(&self, rt: &HostRuntime) {
        if self.is_void() && self.identity.is_at(rt, &self.path).unwrap_or(false) {
            let _ = fs::remove_file(rt, &self.path);
        }
    }

    // Adds bytes behind those that it has. Where that fails it is cut back, and removed if it is void then, as well as
    // may be.
    fn add(&mut self, rt: &HostRuntime, bytes: &[u8]) -> io::Result<()> {
        self.added = self.added.saturating_add(bytes.len() as u64);
        let done = self.file.write_all(bytes);
        if done.is_err() {
            self.take_back(rt);
        }
        done
    }

    // Cuts it back, and removes it if it is void then, as well as may be.
    fn take_back(&mut self, rt: &HostRuntime) {
        if self.cut() {
            self.added = 0;
        }
        self.remove_void(rt);
    }
}

impl UnsyncedPacks {
    pub(crate) fn none(alloc: Global) -> UnsyncedPacks {
        UnsyncedPacks {
            packs: Vec::new(alloc),
        }
    }

    /// Makes the file of a pack.
    pub(crate) fn make(&mut self, rt: &HostRuntime, number: u32, path: String) -> io::Result<()> {
        let file = File::options()
            .append(true)
            .create_new(true)
            .mode(OWNER_ONLY)
            .open(rt, &path)?;
        self.keep(number, file, path, true)
    }

    /// Opens the file of a pack, to add to it.
    pub(crate) fn open(&mut self, rt: &HostRuntime, number: u32, path: String) -> io::Result<()> {
        let file = open_regular(rt, File::options().append(true), &path)?;
        self.keep(number, file, path, false)
    }

    // Keeps a file open, and closes those to which nothing was added that isn't synced.
    fn keep(&mut self, number: u32, file: File, path: String, is_fresh: bool) -> io::Result<()> {
        let found = uninterrupted(|| file.metadata())?;
        self.packs.retain(|pack| pack.added > 0);
        self.packs.push(Grown {
            number,
            file,
            path,
            identity: Identity::of(&found),
            size: found.len(),
            added: 0,
            is_fresh,
        })?;
        Ok(())
    }

    /// Adds the bytes behind those of a pack that is open. Where that fails it is cut back, and where it was made here,
    /// and never synced, its file is removed, as well as may be.
    pub(crate) fn add(&mut self, rt: &HostRuntime, number: u32, bytes: &[u8]) -> io::Result<()> {
        for pack in &mut self.packs {
            if pack.number == number {
                return pack.add(rt, bytes);
            }
        }
        Err(io::Error::from(ErrorKind::NotFound))
    }

    /// How many packs have bytes that are neither synced nor cut off.
    pub(crate) fn unsettled(&self) -> usize {
        self.packs.iter().filter(|pack| pack.added > 0).count()
    }

    /// The file of a pack, where the pack is one of these.
    pub(crate) fn file(&self, number: u32) -> Option<&File> {
        Some(&self.find(number)?.file)
    }

    fn find(&self, number: u32) -> Option<&Grown> {
        self.packs.iter().find(|pack| pack.number == number)
    }

    /// Fails unless the path of a pack, where the pack is one of these, leads to its file.
    pub(crate) fn check(&self, rt: &HostRuntime, number: u32) -> io::Result<()> {
        match self.find(number) {
            Some(pack) => pack.identity.check_at(rt, &pack.path),
            None => Ok(()),
        }
    }

    /// The pack was synced.
    pub(crate) fn settle(&mut self, number: u32) {
        for pack in &mut self.packs {
            if pack.number == number {
                pack.size = pack.size.saturating_add(pack.added);
                pack.added = 0;
                pack.is_fresh = false;
            }
        }
    }

    /// The pack couldn't be synced: it is cut back to what was synced of it, and removed where it was made here, was
    /// never synced and holds nothing then, as well as may be.
    pub(crate) fn take_back(&mut self, rt: &HostRuntime, number: u32) {
        for pack in &mut self.packs {
            if pack.number == number && pack.added > 0 {
                pack.take_back(rt);
            }
        }
    }

    /// Cuts the packs back to what was synced of them, and removes those that were made here, were never synced and
    /// hold nothing then, as well as may be.
    pub(crate) fn cut(&self, rt: &HostRuntime) {
        for pack in &self.packs {
            if pack.added > 0 {
                // Where this fails nothing more can be done.
                let _ = pack.cut();
            }
            pack.remove_void(rt);
        }
    }
}
