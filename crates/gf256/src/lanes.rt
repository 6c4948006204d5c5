//! The products of sixteen bytes at once, by their halves.

ghost use Rattle.std.specs.Prelude.{ℕ, ◌≡◌, ◌+◌, ◌*◌, ◌<◌, ◌≤◌, length, map, slice_index, bit_xor};
ghost use lib.Lanes.{chunk, put_chunk, zip2};
ghost use Rattle.gf256.specs.Field.{product};
ghost use Rattle.gf256.specs.Inner.Lanes.{AreProducts};

use crate::element::Gf;
use crate::halves::PRODUCTS;
use std::simd::prelude::*;

/// How many elements one step takes.
pub(crate) const LANES: usize = 16;

/// The products of `by` with the low halves of bytes: 0, 1, .., 15.
#[inline(always)]
pub(crate) fn low_products(by: Gf) -> u8x16
    ensures { (j : ℕ) → j < 16 → slice_index result j ≡ product by.0 j }
{
    sixteen(&PRODUCTS, 32 * usize::from(by.0))
}

/// The products of `by` with the high halves of bytes: 0, 16, .., 240.
#[inline(always)]
pub(crate) fn high_products(by: Gf) -> u8x16
    ensures { (j : ℕ) → j < 16 → slice_index result j ≡ product by.0 (16 * j) }
{
    sixteen(&PRODUCTS, 32 * usize::from(by.0) + 16)
}

/// Adds the factor's products with sixteen elements of `src` to those of `dst`, from the place `at` on. The factor
/// is the one that both tables are of.
#[inline(always)]
pub(crate) fn add_lanes(dst: &mut [u8], src: &[u8], at: usize, low: u8x16, high: u8x16)
    requires dst { at + 16 ≤ length dst.old }
    requires src { at + 16 ≤ length src.now }
    ensures { (by : ℕ) → by < 256 → AreProducts by low high
        → dst.new ≡ put_chunk at dst.old (zip2 bit_xor (chunk at 16 dst.old) (map (product by) (chunk at 16 src.now))) }
{
    let sums = u8x16::from_slice(&dst[at..]) ^ times(low, high, u8x16::from_slice(&src[at..]));
    sums.copy_to_slice(&mut dst[at..]);
}

/// The factor's products with sixteen elements: that with the low half of each, and that with its high half.
#[inline(always)]
fn times(low: u8x16, high: u8x16, elements: u8x16) -> u8x16
    ensures { (by : ℕ) → by < 256 → AreProducts by low high → result ≡ map (product by) elements }
{
    low.swizzle_dyn(elements & u8x16::splat(15)) ^ high.swizzle_dyn(elements >> u8x16::splat(4))
}

/// Sixteen bytes of the slice from a place on.
#[inline(always)]
fn sixteen(table: &[u8], at: usize) -> u8x16
    requires { at + 16 ≤ length table.now }
    ensures { result ≡ chunk at 16 table.now }
{
    u8x16::from_slice(&table[at..])
}
