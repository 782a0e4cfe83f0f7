//! Records that seem to stand one behind another, whose blobs are hashed several at a time before they are reached.
ghost use Rattle.std.specs.Prelude.{◌≡◌, ◌≤◌, length};
ghost use Rattle.salvage_scan.specs.Ahead.{AreKnown};

use crate::heads::next_header;
use blobref::Ref;
use pack_format::HeaderAt;
use sha_lanes::sha224_all;

// How many headers are looked at together.
const RECORDS: usize = 64;

/// How many bytes the blobs behind them have at most.
pub(crate) const BYTES: usize = 8_388_608;

// After how many blobs it is tried again, where fewer than two records stood one behind another.
const PAUSE: usize = 16;

// What a header of a SHA-224 begins with. The others' blobs are hashed one by one.
const BEGIN: &[u8] = b"[sha224-";

/// Records of some bytes, in the order of their places, with the digests of the blobs behind their headers.
#[derive(Drop)]
pub(crate) struct Ahead {
    pub(crate) places: [usize; 64],
    pub(crate) lens: [usize; 64],
    pub(crate) sizes: [usize; 64],
    pub(crate) said: [Ref; 64],
    pub(crate) digests: [[u8; 28]; 64],
    pub(crate) count: usize,
}

/// What a scan knows of the bytes before it: these records, the number of the next one, and for how many blobs it
/// doesn't look.
#[derive(Drop)]
pub(crate) struct Lookout {
    pub(crate) records: Ahead,
    pub(crate) next: usize,
    pause: usize,
}

impl Lookout {
    /// What is known of some bytes at a place: it looks ahead from there.
    pub(crate) fn over(bytes: &[u8], at: usize) -> Lookout
        requires { at ≤ length bytes.now }
        ensures { AreKnown bytes.now result.records }
    {
        Lookout {
            records: look(bytes, at),
            next: 0,
            pause: 0,
        }
    }

    /// Leaves the records before a place, which is the place of the next bytes to be told.
    pub(crate) fn leave(&mut self, at: usize)
        requires { self.old.records.count ≤ 64 }
        ensures { self.new.records ≡ self.old.records }
    {
        let mut next = self.next;
        'records: while next < self.records.count && self.records.places[next] < at {
            next += 1;
        }
        self.next = next;
    }

    /// The same at a place behind a blob, from where it looks ahead if no record is left: so what is hashed in vain are
    /// at most 8 MiB for each blob that is found, and no blob is hashed twice.
    pub(crate) fn renew(&mut self, bytes: &[u8], at: usize)
        requires at { at ≤ length bytes.now }
        requires known { AreKnown bytes.now self.old.records }
        ensures { AreKnown bytes.now self.new.records }
    {
        self.leave(at);
        if self.next < self.records.count {
            return;
        }
        if self.pause > 0 {
            self.pause -= 1;
            return;
        }
        self.look_from(bytes, at);
    }

    // Looks ahead from a place. It stands apart, since its locals are large.
    #[inline(never)]
    fn look_from(&mut self, bytes: &[u8], at: usize)
        requires { at ≤ length bytes.now }
        ensures { AreKnown bytes.now self.new.records }
    {
        self.records = look(bytes, at);
        self.next = 0;
        self.pause = pause_after(self.records.count);
    }
}

// For how many blobs it doesn't look, after it found so many records.
fn pause_after(count: usize) -> usize {
    if count < 2 { PAUSE } else { 0 }
}

// Reads the headers from a place on, as long as each seems to stand before a blob, and hashes these blobs.
fn look(bytes: &[u8], at: usize) -> Ahead
    requires { at ≤ length bytes.now }
    ensures { AreKnown bytes.now result }
{
    let mut blobs: [&[u8]; RECORDS] = [&[]; RECORDS];
    let mut places = [0; RECORDS];
    let mut lens = [0; RECORDS];
    let mut sizes = [0; RECORDS];
    let mut said = [Ref::least(); RECORDS];
    let mut digests = [[0; 28]; RECORDS];
    let mut count = 0;
    let mut place = at;
    let mut room = BYTES;
    'headers: for i in 0..RECORDS {
        if !bytes[place..].starts_with(BEGIN) {
            break;
        }
        let HeaderAt::Blob { r, size, len } = next_header(&bytes[place..]) else {
            break
        };
        let size = size as usize;
        if len > bytes.len() - place || size > bytes.len() - place - len || size > room {
            break;
        }
        let start = place + len;
        blobs[i] = &bytes[start..start + size];
        places[i] = place;
        lens[i] = len;
        sizes[i] = size;
        said[i] = r;
        count = i + 1;
        room -= size;
        place = start + size;
    }
    sha224_all(&blobs[..count], &mut digests[..count]);
    Ahead {
        places,
        lens,
        sizes,
        said,
        digests,
        count,
    }
}
