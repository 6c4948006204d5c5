//! Products of distances between points, from which the weights are made.
ghost use Rattle.std.specs.Prelude.{ℕ, ◌≡◌, ◌≢◌, ◌-◌, ◌<◌, ◌≤◌, length};
ghost use Rattle.gf256.specs.Field.{product};
ghost use Rattle.gf256.specs.Polynomial.{power};
ghost use Rattle.rs_code.specs.Interpolation.{factor, others};
ghost use Rattle.rs_code.specs.Weights.{ArePlaces, point_of};
ghost use Rattle.rs_code.specs.Inner.Shares.{IsShare};

use gf256::{Gf, add, inv, mul, power};

/// The element at which a block's polynomials have the values of symbol `esi`: alpha^esi (RFC 5510, section 8.2).
pub(crate) fn point(esi: u8) -> Gf
    ensures { result.0 ≡ power esi }
{
    power(u32::from(esi))
}

/// The product of the distances of `x` from the points of all places, but for the place in position `i`. A position
/// past the end leaves none out.
pub(crate) fn over_others(places: &[u8], i: usize, x: Gf) -> Gf
    ensures { result.0 ≡ others (point_of places.now) (length places.now) i x.0 }
{
    let mut product = Gf(1);
    for m in 0..places.len() {
        product = mul(product, factor_of(places, i, m, x));
    }
    product
}

/// The distance of `x` from the point of the place in position `m`, but 1 for position `i`.
fn factor_of(places: &[u8], i: usize, m: usize, x: Gf) -> Gf
    requires { m < length places.now }
    ensures { result.0 ≡ factor (point_of places.now) i m x.0 }
{
    if m == i {
        Gf(1)
    } else {
        add(x, point(places[m]))
    }
}

/// The share of the place in position `i`: the inverse of the product of its point's distances from the others.
pub(crate) fn share(places: &[u8], i: usize) -> Gf
    requires places { ArePlaces places.now }
    requires within { i < length places.now }
    ensures { IsShare places.now i result.0 }
{
    inv(over_others(places, i, point(places[i])))
}

/// The share of source symbol `i` of `k`, from that of the one before it.
pub(crate) fn next_share(k: u8, i: u8, share: Gf) -> Gf
    requires some { 1 ≤ i }
    requires below { i < k }
    ensures { product (others power k (i - 1) (power (i - 1))) share.0 ≡ 1 → product (others power k i (power i)) result.0 ≡ 1 }
{
    let x = point(i);
    let gained = add(x, point(k));
    let lost = mul(point(k - 1), add(x, Gf(1)));
    mul(mul(share, gained), inv(lost))
}

/// The weight of a place at a point: of the product of the point's distances from all places, its distance from this
/// place, and the place's share. At its own point a place has the weight 1.
pub(crate) fn weight(all: Gf, distance: Gf, share: Gf) -> Gf
    ensures own { distance.0 ≡ 0 → result.0 ≡ 1 }
    ensures other { (rest : ℕ) → rest < 256 → distance.0 ≢ 0 → all.0 ≡ product rest distance.0 → result.0 ≡ product rest share.0 }
{
    if distance.0 == 0 {
        Gf(1)
    } else {
        mul(mul(all, inv(distance)), share)
    }
}
