//! The boundary of an upload.
ghost use Rattle.std.specs.Prelude.{◌≡◌, ◌<◌, ◌≤◌, ◌++◌, length, codes, drop, IfOk};
ghost use Rattle.peer_requests.specs.Boundaries.{boundary_of, padded, IsFree};

use crate::free_number::least_absent;
use crate::marks::numbers_in;
use blobref::{NoMemory, ShortText};
use itoa::Buffer;
use std::alloc::Global;

/// A boundary: `pk` and eight digits.
pub(crate) type Boundary = ShortText<10>;

/// What stands before a number's digits, where there are fewer.
const ZEROS: &[u8] = b"00000000";

/// The least number whose boundary doesn't stand in a blob. It takes memory only where some boundary does, and the time
/// of one walk over the blob.
pub(crate) fn free_number(alloc: Global, blob: &[u8]) -> Result<usize, NoMemory>
    requires { length blob.now ≤ 16777216 }
    ensures { IfOk result (λ n. IsFree blob.now n) }
{
    let numbers = numbers_in(alloc, blob)?;
    least_absent(alloc, numbers.as_slice())
}

/// The boundary of a number.
pub(crate) fn boundary_of(number: usize) -> Boundary
    requires { number < 100000000 }
    ensures { result ≡ boundary_of number }
{
    boundary_with(Buffer::new().format(number).as_bytes())
}

// The boundary with these digits behind zeros.
fn boundary_with(digits: &[u8]) -> Boundary
    requires { length digits.now ≤ 8 }
    ensures { result ≡ codes "pk" ++ (drop (length digits.now) (codes "00000000") ++ digits.now) }
{
    let (_, zeros) = ZEROS.split_at(digits.len());
    let mut boundary = ShortText::of(b"pk");
    boundary.extend(zeros);
    boundary.extend(digits);
    boundary
}
