//! The packs of a folder as a disk (`docs/formats/packs.md`). It doesn't tell what it holds, and counts its failures.
ghost use Rattle.std.specs.Prelude.{◌≡◌, ◌≤◌, length, IfOk, IfSome};
ghost use Rattle.pack_disk.specs.Disk.{last_number};
ghost use Rattle.perkeep_words.specs.Table.{writes_of};
ghost use Rattle.folder_disk.specs.Accesses.{access_of};

use crate::lines::tell_absent;
use crate::listing::{least_from, pack_numbers};
use crate::locking::{check_is_there, lock_folder};
use crate::opening::Opening;
use crate::pack_file::{OpenPacks, UnsyncedPacks, fill};
use crate::trouble::Trouble;
use edge_base::Failed;
use edge_os::again::uninterrupted;
use edge_os::{Screen, counted};
use pack_disk::Disk;
use perkeep_words::Line;
use std::collections::BTreeSet;
use std::fs::{self, File};
use std::io::{self, ErrorKind};
use std::sync::atomic::{AtomicU64, Ordering};

// While so many packs have bytes that are neither synced nor cut off, no further one is made.
const MAX_UNSETTLED: usize = 16;

/// What a command does with a store.
#[derive(Clone, Copy, PartialEq)]
pub enum Access {
    /// It reads. Nothing is made or locked.
    Read,
    /// It also writes, and is the only one that does. The folder is made where it isn't there.
    Write,
}

impl Access {
    /// What the command of a line does: it writes where the command may change the store.
    pub fn of(line: &Line) -> Access
        ensures { result ≡ access_of (writes_of line.now.0) }
    {
        if line.writes() {
            Access::Write
        } else {
            Access::Read
        }
    }
}

/// The packs of a folder: its files `pack-NNNNN.blobs`. Files of other names are ignored. Which there are is looked
/// up at the first call, at which a writer also locks the folder, until the disk is dropped. To a reader a folder
/// that isn't there is a disk without packs.
///
/// What an append that failed has left is cut off at once, as well as may be, and the file of a pack that was made here
/// and never synced goes with it; its number stays taken. Where the disk is dropped the same is done with what was
/// added and not synced, while the folder is still locked: so nobody takes for durable what only seems to stand.
/// Nothing is made, opened or called durable where the path no longer leads to the folder, or to the pack's file. A
/// screen is shown that the folder isn't there or was made, that its lock is waited for, and how far a long opening is.
pub struct FolderDisk<'a> {
    rt: &'a HostRuntime,
    screen: &'a Screen<'a>,
    path: &'a str,
    access: Access,
    // Whether the first call was made, and what is known since: the folder, where it is there, and the numbers of its
    // packs.
    begun: bool,
    folder: Option<File>,
    numbers: BTreeSet<u32>,
    // Whether the names of the packs were made durable since the last pack was made.
    named: bool,
    reading: OpenPacks,
    growing: UnsyncedPacks,
    // Where appends are counted, if anywhere.
    appends: Option<&'a AtomicU64>,
    opening: Opening<'a>,
    // Where it is noted why a call failed.
    trouble: &'a Trouble,
    faults: u64,
}

impl<'a> Drop for FolderDisk<'a> {
    fn drop(self) {
        self.growing.cut(self.rt);
        let FolderDisk {
            rt: _,
            screen: _,
            path: _,
            access: _,
            begun: _,
            folder: _,
            numbers: _,
            named: _,
            reading: _,
            growing: _,
            appends: _,
            opening: _,
            trouble: _,
            faults: _,
        } = self;
    }
}

impl<'a> FolderDisk<'a> {
    /// The packs of the folder under a path. Nothing is looked at before the first call of the disk.
    /// Why one fails is noted in `trouble`.
    pub fn new(
        rt: &'a HostRuntime,
        screen: &'a Screen<'a>,
        trouble: &'a Trouble,
        path: &'a str,
        access: Access,
    ) -> FolderDisk<'a>
        ensures { result.faults ≡ 0 }
    {
        FolderDisk {
            rt,
            screen,
            path,
            access,
            begun: false,
            folder: None,
            numbers: BTreeSet::new(rt.alloc()),
            named: false,
            reading: OpenPacks::none(rt.alloc()),
            growing: UnsyncedPacks::none(rt.alloc()),
            appends: None,
            opening: Opening::new(screen),
            trouble,
            faults: 0,
        }
    }

    /// The same disk, which counts its appends there too, also those that fail: so others see that blobs come.
    pub fn counting(self, appends: &'a AtomicU64) -> FolderDisk<'a>
        ensures { result.faults ≡ self.entry.faults }
    {
        let mut disk = self;
        disk.appends = Some(appends);
        disk
    }

    // The path of something in the folder.
    fn path_to(&self, name: &str) -> io::Result<String> {
        if self.path.is_empty() {
            return Err(io::Error::from(ErrorKind::NotFound));
        }
        Ok(format!(in self.rt.alloc(); "{}/{name}", self.path)?)
    }

    fn pack_path(&self, pack: u32) -> io::Result<String> {
        let name = format!(in self.rt.alloc(); "pack-{pack:05}.blobs")?;
        self.path_to(&name)
    }

    // Opens the folder and looks its packs up, unless that was done.
    fn begin(&mut self) -> io::Result<()>
        ensures faults { self.new.faults ≡ self.old.faults }
    {
        if self.begun {
            return Ok(());
        }
        let entered = self.path_to("")?;
        if self.folder.is_none() {
            self.folder = self.open_folder(&entered)?;
        }
        if self.folder.is_some() {
            self.numbers = uninterrupted(|| pack_numbers(self.rt, &entered))?;
            let size = self.size_of_packs();
            self.opening.begin(size);
        }
        self.begun = true;
        Ok(())
    }

    fn open_folder(&self, entered: &str) -> io::Result<Option<File>> {
        if self.access == Access::Write {
            return Ok(Some(lock_folder(self.rt, self.screen, self.path, entered)?));
        }
        match File::open(self.rt, entered) {
            Ok(folder) => Ok(Some(folder)),
            Err(error) if error.kind() == ErrorKind::NotFound => {
                tell_absent(self.screen, self.path);
                Ok(None)
            }
            Err(error) => Err(error),
        }
    }

    // How many bytes the packs have, as far as that can be told, where it is asked for.
    fn size_of_packs(&self) -> u64 {
        if !self.opening.is_shown() {
            return 0;
        }
        let mut size = 0u64;
        for pack in &self.numbers {
            size = size.saturating_add(self.size_of_file(*pack).unwrap_or(0));
        }
        size
    }

    fn size_of_file(&self, pack: u32) -> io::Result<u64> {
        let path = self.pack_path(pack)?;
        Ok(uninterrupted(|| fs::metadata(self.rt, &path))?.len())
    }

    fn next(&mut self, from: u32) -> io::Result<Option<u32>>
        ensures range { IfOk result (λ o. IfSome o (λ n. (from ≤ n) × (n ≤ last_number))) }
        ensures faults { self.new.faults ≡ self.old.faults }
    {
        self.begin()?;
        Ok(least_from(&self.numbers, from))
    }

    fn length(&mut self, pack: u32) -> io::Result<u64>
        ensures faults { self.new.faults ≡ self.old.faults }
    {
        self.open_pack(pack)?;
        let file = self.reading.file(pack)?;
        Ok(uninterrupted(|| file.metadata())?.len())
    }

    fn bytes_at(&mut self, pack: u32, at: u64, buf: &mut [u8]) -> io::Result<usize>
        ensures bound { IfOk result (λ n. n ≤ length buf.old) }
        ensures faults { self.new.faults ≡ self.old.faults }
    {
        self.open_pack(pack)?;
        let count = fill(self.reading.file(pack)?, at, buf)?;
        self.opening.goes_on(count);
        Ok(count)
    }

    // Opens the file of a pack to read it, unless it is open.
    fn open_pack(&mut self, pack: u32) -> io::Result<()>
        ensures faults { self.new.faults ≡ self.old.faults }
    {
        self.begin()?;
        if !self.reading.is_open(pack) {
            let path = self.pack_path(pack)?;
            self.check_folder()?;
            self.reading.open(self.rt, pack, &path)?;
        }
        Ok(())
    }

    // Makes the file of a pack. The folder's own name is durable before the first pack stands in it.
    fn create(&mut self, pack: u32) -> io::Result<()>
        ensures faults { self.new.faults ≡ self.old.faults }
    {
        self.begin()?;
        if self.growing.unsettled() >= MAX_UNSETTLED {
            return Err(io::Error::from(ErrorKind::StorageFull));
        }
        self.check_folder()?;
        if self.numbers.is_empty() {
            self.sync_above()?;
        }
        let path = self.pack_path(pack)?;
        self.named = false;
        self.growing.make(self.rt, pack, path)?;
        self.numbers.insert(pack)?;
        Ok(())
    }

    // Makes the folder's name durable in the one above. Whoever may not read that one didn't make the folder, and
    // can't do more.
    fn sync_above(&self) -> io::Result<()> {
        match File::open(self.rt, self.path_to("..")?) {
            Ok(above) => above.sync_all(),
            Err(error) if error.kind() == ErrorKind::PermissionDenied => Ok(()),
            Err(error) => Err(error),
        }
    }

    // Adds the bytes behind those of the pack.
    fn add(&mut self, pack: u32, bytes: &[u8]) -> io::Result<()>
        ensures faults { self.new.faults ≡ self.old.faults }
    {
        self.begin()?;
        if let Some(appends) = self.appends {
            appends.fetch_add(1, Ordering::Relaxed);
        }
        if self.growing.file(pack).is_none() {
            let path = self.pack_path(pack)?;
            self.check_folder()?;
            self.growing.open(self.rt, pack, path)?;
        }
        self.growing.add(self.rt, pack, bytes)
    }

    // Fails unless the path leads to the folder that was opened.
    fn check_folder(&self) -> io::Result<()> {
        let entered = self.path_to("")?;
        match &self.folder {
            Some(folder) => check_is_there(self.rt, folder, &entered),
            None => Ok(()),
        }
    }

    // Makes the bytes of a pack durable, and the names of all. Where that fails, what was added is cut off.
    fn settle(&mut self, pack: u32) -> io::Result<()>
        ensures faults { self.new.faults ≡ self.old.faults }
    {
        self.begin()?;
        let done = self.make_durable(pack);
        match &done {
            Ok(()) => self.growing.settle(pack),
            Err(_) => self.growing.take_back(self.rt, pack),
        }
        done
    }

    fn make_durable(&mut self, pack: u32) -> io::Result<()>
        ensures faults { self.new.faults ≡ self.old.faults }
    {
        if let Some(file) = self.growing.file(pack) {
            file.sync_all()?;
        } else {
            self.open_pack(pack)?;
            self.reading.file(pack)?.sync_all()?;
        }
        self.sync_names()?;
        self.growing.check(self.rt, pack)
    }

    // Makes the names durable that stand in the folder, unless they are.
    fn sync_names(&mut self) -> io::Result<()>
        ensures faults { self.new.faults ≡ self.old.faults }
    {
        match &self.folder {
            Some(folder) if !self.named => folder.sync_all()?,
            _ => (),
        }
        self.named = true;
        Ok(())
    }
}

impl<'a> Disk for FolderDisk<'a> {
    ghost use Rattle.std.specs.Prelude.{None};
    ghost use Rattle.folder_disk.specs.Silent.{tells_nothing};

    ghost packs = { λ disk. None };

    ghost images = { λ disk image. ⊥ };

    ghost moment = { λ disk. 0 };

    ghost images_since = { λ disk t image. ⊥ };

    ghost faults = { λ disk. disk.faults };

    ghost finds = { λ a from n b. Unit {0} };

    ghost sizes = { λ a pack n b. Unit {0} };

    ghost gives = { λ a pack at room bytes b. Unit {0} };

    ghost syncs = { λ a pack b. Unit {0} };

    ghost reads = { λ disk held is. tells_nothing held is };

    ghost tells = { λ disk image is. absurd is };

    ghost counts_now = { λ disk t image le is. is };

    ghost only_now = { λ disk image is. is };

    fn packs(&mut self, from: u32) -> Result<Option<u32>, Failed> {
        let least = self.next(from);
        self.trouble.note(&least);
        counted(least, &mut self.faults)
    }

    fn size(&mut self, pack: u32) -> Result<u64, Failed> {
        let size = self.length(pack);
        self.trouble.note(&size);
        counted(size, &mut self.faults)
    }

    fn read(&mut self, pack: u32, at: u64, buf: &mut [u8]) -> Result<usize, Failed> {
        let count = self.bytes_at(pack, at, buf);
        self.trouble.note(&count);
        counted(count, &mut self.faults)
    }

    fn make(&mut self, pack: u32) -> Result<(), Failed> {
        let made = self.create(pack);
        self.trouble.note(&made);
        counted(made, &mut self.faults)
    }

    fn append(&mut self, pack: u32, bytes: &[u8]) -> Result<(), Failed> {
        let added = self.add(pack, bytes);
        self.trouble.note(&added);
        counted(added, &mut self.faults)
    }

    fn sync(&mut self, pack: u32) -> Result<(), Failed> {
        let settled = self.settle(pack);
        self.trouble.note(&settled);
        counted(settled, &mut self.faults)
    }

    fn faults(&self) -> u64 {
        self.faults
    }
}
