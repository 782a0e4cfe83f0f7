//! The functions of FIPS 180-4, 4.1.2, on vectors of words: each clause says what is in each lane.
ghost use Rattle.std.specs.Prelude.{◌≡◌, ℕ, ◌/◌, ◌^◌, ◌<◌, bit_and, bit_xor, slice_index};
ghost use Rattle.std.specs.Int.{w32, rotate_right};
ghost use Rattle.sha2.specs.Sha256.{add32, big_sigma0, big_sigma1, ch, maj, small_sigma0, small_sigma1};

use std::simd::Simd;

#[inline(always)]
pub(crate) fn add<const N: usize>(x: Simd<u32, N>, y: Simd<u32, N>) -> Simd<u32, N>
    ensures { (j : ℕ) → j < N → slice_index result j ≡ add32 (slice_index x.entry j) (slice_index y.entry j) }
{
    x + y
}

#[inline(always)]
fn xor<const N: usize>(x: Simd<u32, N>, y: Simd<u32, N>) -> Simd<u32, N>
    ensures { (j : ℕ) → j < N → slice_index result j ≡ bit_xor (slice_index x.entry j) (slice_index y.entry j) }
{
    x ^ y
}

#[inline(always)]
fn and<const N: usize>(x: Simd<u32, N>, y: Simd<u32, N>) -> Simd<u32, N>
    ensures { (j : ℕ) → j < N → slice_index result j ≡ bit_and (slice_index x.entry j) (slice_index y.entry j) }
{
    x & y
}

#[inline(always)]
fn rotated<const N: usize>(x: Simd<u32, N>, k: u32) -> Simd<u32, N>
    requires { (0 < k) × (k < 32) }
    ensures { (j : ℕ) → j < N → slice_index result j ≡ rotate_right w32 (slice_index x.entry j) k }
{
    (x >> Simd::splat(k)) | (x << Simd::splat(32 - k))
}

#[inline(always)]
fn shifted<const N: usize>(x: Simd<u32, N>, k: u32) -> Simd<u32, N>
    requires { k < 32 }
    ensures { (j : ℕ) → j < N → slice_index result j ≡ slice_index x.entry j / 2 ^ k }
{
    x >> Simd::splat(k)
}

// One operation fewer than the standard's form.
#[inline(always)]
pub(crate) fn ch<const N: usize>(x: Simd<u32, N>, y: Simd<u32, N>, z: Simd<u32, N>) -> Simd<u32, N>
    ensures { (j : ℕ) → j < N
        → slice_index result j ≡ ch (slice_index x.entry j) (slice_index y.entry j) (slice_index z.entry j) }
{
    xor(z, and(x, xor(y, z)))
}

// One round's `x ^ y` is the next round's `y ^ z`, so it is computed once.
#[inline(always)]
pub(crate) fn maj<const N: usize>(x: Simd<u32, N>, y: Simd<u32, N>, z: Simd<u32, N>) -> Simd<u32, N>
    ensures { (j : ℕ) → j < N
        → slice_index result j ≡ maj (slice_index x.entry j) (slice_index y.entry j) (slice_index z.entry j) }
{
    xor(y, and(xor(x, y), xor(y, z)))
}

// Rotations of rotations. Where an operation overwrites an operand, as without AVX, they need fewer copies of `x` than
// the standard's form. The small functions would gain less by it than they would lose with AVX2, where each operation
// would wait for the one before.
#[inline(always)]
pub(crate) fn big_sigma0<const N: usize>(x: Simd<u32, N>) -> Simd<u32, N>
    ensures { (j : ℕ) → j < N → slice_index result j ≡ big_sigma0 (slice_index x.entry j) }
{
    rotated(xor(x, rotated(xor(x, rotated(x, 9)), 11)), 2)
}

#[inline(always)]
pub(crate) fn big_sigma1<const N: usize>(x: Simd<u32, N>) -> Simd<u32, N>
    ensures { (j : ℕ) → j < N → slice_index result j ≡ big_sigma1 (slice_index x.entry j) }
{
    rotated(xor(x, rotated(xor(x, rotated(x, 14)), 5)), 6)
}

#[inline(always)]
pub(crate) fn small_sigma0<const N: usize>(x: Simd<u32, N>) -> Simd<u32, N>
    ensures { (j : ℕ) → j < N → slice_index result j ≡ small_sigma0 (slice_index x.entry j) }
{
    xor(xor(rotated(x, 7), rotated(x, 18)), shifted(x, 3))
}

#[inline(always)]
pub(crate) fn small_sigma1<const N: usize>(x: Simd<u32, N>) -> Simd<u32, N>
    ensures { (j : ℕ) → j < N → slice_index result j ≡ small_sigma1 (slice_index x.entry j) }
{
    xor(xor(rotated(x, 17), rotated(x, 19)), shifted(x, 10))
}
