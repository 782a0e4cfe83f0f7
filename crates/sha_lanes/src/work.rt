//! A message in each lane, and the next message in the place of one that has ended.
ghost use Rattle.std.specs.Prelude.{◌≡◌, ℕ, List, ◌+◌, ◌-◌, ◌*◌, ◌%◌, ◌<◌, ◌≤◌, ◌^◌, length, replicate, slice_index, slice_index_or, slice_set};
ghost use Rattle.sha2.specs.Sha256.{sha224};
ghost use Rattle.sha_lanes.specs.Lanes.{AreRows};
ghost use Rattle.sha_lanes.specs.Message.{message_at, texts};
ghost use Rattle.sha_lanes.specs.Working.{AreLanes, AreWithin, HaveBlocks, IsBlockAt, IsPut};

use crate::block::compress;
use crate::blocks::hash_blocks;
use crate::constants::INITIAL_HASH;
use crate::lanes::{digest_of, hash_in, put_hash};
use crate::message::{block_at, block_count, put_four, tail_of};
use std::simd::Simd;

// The bytes of a message, and none past the last one.
fn message_at<'a>(messages: &[&'a [u8]], which: usize) -> &'a [u8]
    ensures { result.now ≡ message_at (texts messages.now) which }
{
    if which < messages.len() {
        messages[which]
    } else {
        &[]
    }
}

#[inline(always)]
fn ahead(at: usize, count: usize, blocks: usize) -> usize
    requires { at + blocks ≤ count }
    ensures sum { result ≡ at + blocks }
    ensures fits { result < 2 ^ 64 }
{
    at + blocks
}

// Where each lane is after so many blocks more, which is not past its end.
fn advanced<const N: usize>(at: [usize; N], count: [usize; N], blocks: usize) -> [usize; N]
    requires { (j : ℕ) → j < N → slice_index at j + blocks ≤ slice_index count j }
    ensures moved { (j : ℕ) → j < N → slice_index result j ≡ slice_index at.entry j + blocks }
    ensures fits { (j : ℕ) → j < N → slice_index result j < 2 ^ 64 }
{
    let mut at = at;
    for lane in 0..N {
        at[lane] = ahead(at[lane], count[lane], blocks);
    }
    at
}

/// For each lane which message it has, by its place; of this message how many blocks are hashed, how many it has, and
/// its last blocks with the padding; and the hash value. A lane whose place is past the last message has nothing to do,
/// and never ends.
#[derive(Drop)]
pub(crate) struct Work<const N: usize> {
    which: [usize; N],
    at: [usize; N],
    count: [usize; N],
    tails: [[u8; 128]; N],
    state: [Simd<u32, N>; 8],
}

impl<const N: usize> Work<N> {
    /// Nothing to do, of so many messages, with any hash values.
    pub(crate) fn new(len: usize, state: [Simd<u32, N>; 8]) -> Work<N>
        ensures within { AreWithin N result }
        ensures which { result.which ≡ replicate N len }
    {
        Work {
            which: [len; N],
            at: [0; N],
            count: [usize::MAX; N],
            tails: [[0; 128]; N],
            state,
        }
    }

    /// Which message is in a lane.
    pub(crate) fn which(&self, lane: usize) -> usize
        requires { lane < N }
        ensures { result ≡ slice_index self.now.which lane }
    {
        self.which[lane]
    }

    /// Puts a message into a lane, and nothing to do where the place is past the last one.
    pub(crate) fn put_in(&mut self, messages: &[&[u8]], lane: usize, which: usize)
        requires { lane < N }
        ensures lanes { AreLanes N (texts messages.now) self.old → AreLanes N (texts messages.now) self.new }
        ensures within { AreWithin N self.old → AreWithin N self.new }
        ensures which { self.new.which ≡ slice_set self.old.which lane which }
    {
        self.which[lane] = which;
        self.at[lane] = 0;
        if which < messages.len() {
            let message = message_at(messages, which);
            self.count[lane] = block_count(message.len());
            self.tails[lane] = tail_of(message, 0);
            put_hash(&mut self.state, lane, &INITIAL_HASH);
        } else {
            self.count[lane] = usize::MAX;
        }
    }

    /// Takes over what is in a lane of `from`, at `place`.
    pub(crate) fn take<const M: usize>(&mut self, lane: usize, from: &Work<M>, place: usize)
        requires lane { lane < N }
        requires place { place < M }
        ensures lanes { (ts : List (List ℕ)) → AreLanes N ts self.old → AreLanes M ts from.now
            → AreLanes N ts self.new }
        ensures within { AreWithin N self.old → AreWithin M from.now → AreWithin N self.new }
        ensures which { self.new.which ≡ slice_set self.old.which lane (slice_index from.now.which place) }
    {
        self.which[lane] = from.which[place];
        self.at[lane] = from.at[place];
        self.count[lane] = from.count[place];
        self.tails[lane] = from.tails[place];
        put_hash(&mut self.state, lane, &hash_in(&from.state, place));
    }

    // A lane that has no more blocks left than any other.
    fn least(&self) -> usize
        requires lanes { 0 < N }
        requires within { AreWithin N self.now }
        ensures lane { result < N }
        ensures least { (j : ℕ) → j < N → slice_index self.now.count result - slice_index self.now.at result
            ≤ slice_index self.now.count j - slice_index self.now.at j }
    {
        let mut least = 0;
        for lane in 1..N {
            if self.count[lane] - self.at[lane] < self.count[least] - self.at[least] {
                least = lane;
            }
        }
        least
    }

    // A lane's block that is so many blocks further than the lane is.
    #[inline(always)]
    fn block_of<'a>(&'a self, messages: &[&'a [u8]], further: usize, lane: usize) -> &'a [u8]
        requires room { (j : ℕ) → j < N → slice_index self.now.at j + further < 2 ^ 64 }
        requires lane { lane < N }
        ensures long { length result.now ≡ 64 }
        ensures block { IsBlockAt N (texts messages.now) self.now further result.now lane }
    {
        let message = message_at(messages, self.which[lane]);
        block_at(message, &self.tails[lane], self.at[lane] + further)
    }

    // Loads those of four lanes.
    #[inline(always)]
    fn load_four(&self, messages: &[&[u8]], further: usize, lane: usize, words: &mut [[u32; N]; 16])
        requires room { (j : ℕ) → j < N → slice_index self.now.at j + further < 2 ^ 64 }
        requires rows { AreRows N words.old }
        requires lane { lane + 4 ≤ N }
        ensures rows { AreRows N words.new }
        ensures loaded { HaveBlocks N (texts messages.now) self.now further words.old lane
            → HaveBlocks N (texts messages.now) self.now further words.new (lane + 4) }
    {
        let a = self.block_of(messages, further, lane);
        let b = self.block_of(messages, further, lane + 1);
        let c = self.block_of(messages, further, lane + 2);
        let d = self.block_of(messages, further, lane + 3);
        put_four(words, lane, a, b, c, d)
    }

    // Loads those of all lanes.
    #[inline(never)]
    fn load(&self, messages: &[&[u8]], further: usize, words: &mut [[u32; N]; 16])
        requires width { N % 4 ≡ 0 }
        requires room { (j : ℕ) → j < N → slice_index self.now.at j + further < 2 ^ 64 }
        requires rows { AreRows N words.old }
        ensures { HaveBlocks N (texts messages.now) self.now further words.new N }
    {
        for four in 0..N / 4 {
            self.load_four(messages, further, 4 * four, words);
        }
    }

    // Hashes so many blocks more in each lane.
    fn run(&mut self, messages: &[&[u8]], blocks: usize)
        requires width { (N ≤ 8) × (N % 4 ≡ 0) }
        requires room { (j : ℕ) → j < N → slice_index self.old.at j + blocks ≤ slice_index self.old.count j }
        ensures lanes { AreLanes N (texts messages.now) self.old → AreLanes N (texts messages.now) self.new }
        ensures within { AreWithin N self.new }
        ensures which { self.new.which ≡ self.old.which }
    {
        let ends = advanced(self.at, self.count, blocks);
        'hashing: for i in 0..blocks {
            let mut words = [[0; N]; 16];
            self.load(messages, i, &mut words);
            compress(&mut self.state, &mut words);
        }
        self.at = ends;
    }

    /// Hashes in all lanes until one ends, and says which.
    pub(crate) fn run_to_end(&mut self, messages: &[&[u8]]) -> usize
        requires width { (0 < N) × (N ≤ 8) × (N % 4 ≡ 0) }
        requires within { AreWithin N self.old }
        ensures lane { result < N }
        ensures lanes { AreLanes N (texts messages.now) self.old → AreLanes N (texts messages.now) self.new }
        ensures within { AreWithin N self.new }
        ensures which { self.new.which ≡ self.old.which }
    {
        let lane = self.least();
        let blocks = self.count[lane] - self.at[lane];
        self.run(messages, blocks);
        lane
    }

    /// A lane for one message more, after so many were taken over: one that has had none, or else the one that ends
    /// first.
    pub(crate) fn free(&mut self, messages: &[&[u8]], taken: usize) -> usize
        requires width { (0 < N) × (N ≤ 8) × (N % 4 ≡ 0) }
        requires within { AreWithin N self.old }
        ensures lane { result < N }
        ensures lanes { AreLanes N (texts messages.now) self.old → AreLanes N (texts messages.now) self.new }
        ensures within { AreWithin N self.new }
        ensures which { self.new.which ≡ self.old.which }
    {
        if taken < N {
            taken
        } else {
            self.run_to_end(messages)
        }
    }

    // The digest of a lane's message, of which the blocks that are left are hashed by themselves.
    fn finish(&self, messages: &[&[u8]], lane: usize) -> [u8; 28]
        requires lane { lane < N }
        requires within { AreWithin N self.now }
        ensures { AreLanes N (texts messages.now) self.now
            → slice_index self.now.which lane < length messages.now
            → result ≡ sha224 (message_at (texts messages.now) (slice_index self.now.which lane)) }
    {
        let message = message_at(messages, self.which[lane]);
        let mut state = hash_in(&self.state, lane);
        let left = self.count[lane] - self.at[lane];
        hash_blocks(&mut state, message, &self.tails[lane], self.at[lane], left);
        digest_of(&state)
    }

    /// Puts the digest of a lane's message into its place.
    pub(crate) fn put_out(&self, messages: &[&[u8]], lane: usize, digests: &mut [[u8; 28]])
        requires lane { lane < N }
        requires within { AreWithin N self.now }
        requires places { length digests.old ≡ length messages.now }
        ensures { AreLanes N (texts messages.now) self.now
            → IsPut (texts messages.now) (slice_index self.now.which lane) digests.old digests.new }
    {
        let which = self.which[lane];
        if which < messages.len() {
            digests[which] = self.finish(messages, lane);
        }
    }
}
