//! Any number of messages.
ghost use Rattle.std.specs.Prelude.{◌≡◌, length, map};
ghost use Rattle.sha2.specs.Sha256.{sha224};
ghost use Rattle.sha_lanes.specs.Message.{texts};

use crate::alone::sha224;
use crate::constants::{ENOUGH, FEW_LANES, LANES, LAST};
use crate::work::Work;
use std::simd::{u32x4, u32x8};

/// Writes the SHA-224 of each message into its place. It takes no memory, and some 20 kB of stack.
///
/// Eight messages are hashed side by side, and the next one takes the lane of one that has ended. Once fewer than six
/// are left they go on in four lanes, and the last two one after the other, as by `sha224`: where one is much longer
/// than the others, it had better not be the last. Three or more take less time than one after the other: many take six
/// tenths of it, and three tenths where the program is built for AVX2.
pub fn sha224_all(messages: &[&[u8]], digests: &mut [[u8; 28]])
    requires { length digests.old ≡ length messages.now }
    ensures { digests.new ≡ map sha224 (texts messages.now) }
{
    if messages.len() == 1 {
        digests[0] = sha224(messages[0]);
        return;
    }
    let mut work = Work::new(messages.len(), [u32x8::splat(0); 8]);
    'start: for lane in 0..LANES {
        work.put_in(messages, lane, lane);
    }
    'refill: for next in LANES..messages.len().saturating_add(LANES + 1 - ENOUGH) {
        let lane = work.run_to_end(messages);
        work.put_out(messages, lane, digests);
        work.put_in(messages, lane, next);
    }
    // Fewer than `ENOUGH` messages are left. They move to the narrow vectors.
    let mut few = Work::new(messages.len(), [u32x4::splat(0); 8]);
    let mut taken = 0;
    'few: for lane in 0..LANES {
        if work.which(lane) < messages.len() {
            let to = few.free(messages, taken);
            few.put_out(messages, to, digests);
            few.take(to, &work, lane);
            taken += 1;
        }
    }
    // At each turn one message ends, and none takes its place.
    'drain: for _ in LAST..taken.min(FEW_LANES) {
        let lane = few.run_to_end(messages);
        few.put_out(messages, lane, digests);
        few.put_in(messages, lane, messages.len());
    }
    'rest: for lane in 0..FEW_LANES {
        few.put_out(messages, lane, digests);
    }
}
