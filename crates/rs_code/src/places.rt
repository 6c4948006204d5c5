//! Places whose values are known, and the weights with which they make the value at another.

ghost use Rattle.std.specs.Prelude.{◌≡◌, ◌≤◌, ◌<◌, ◌≢◌, All, length, slice_index, IfSome, IfNone};
ghost use Rattle.std.specs.List.{range_with_len};
ghost use Rattle.gf256.specs.Field.{product};
ghost use Rattle.gf256.specs.Polynomial.{power};
ghost use Rattle.rs_code.specs.Interpolation.{others};
ghost use Rattle.rs_code.specs.Weights.{ArePlaces, AreWeights};
ghost use Rattle.rs_code.specs.Inner.Shares.{AreShares};

use crate::distances::{next_share, over_others, point, share, weight};
use arrayvec::ArrayVec;
use gf256::{Gf, add};
use std::marker::Model;

/// Places whose values are known: 1 to 255 distinct encoding symbol IDs below 255. Each place's share of the weights
/// is kept, which is the same wherever a value is wanted.
#[derive(Drop)]
pub struct Places {
    places: ArrayVec<u8, 255>,
    shares: ArrayVec<u8, 255>,
}

impl Model for Places {
    ghost use Rattle.std.specs.Prelude.{ℕ, List};
    ghost use Rattle.rs_code.specs.Weights.{ArePlaces};
    ghost use Rattle.rs_code.specs.Inner.Shares.{AreShares};

    ghost Value = { List ℕ };

    ghost view = { λ a. a.places.items };

    ghost invariant = { λ a. ArePlaces a.places.items × AreShares a.places.items a.shares.items };
}

impl Places {
    /// The places, in k * k steps for k places.
    pub fn new(places: &[u8]) -> Places
        requires { ArePlaces places.now }
        ensures { result ≡ places.now }
    {
        let mut held = ArrayVec::new();
        let mut shares = ArrayVec::new();
        for i in 0..places.len() {
            held.push(places[i]);
            shares.push(share(places, i).0);
        }
        Places {
            places: held,
            shares,
        }
    }

    /// The places of the `k` source symbols of a block, 0 to k - 1, in 3 * k steps.
    pub fn sources(k: u8) -> Places
        requires { 1 ≤ k }
        ensures { result ≡ range_with_len 0 k }
    {
        let places = source_places(k);
        let shares = source_shares(k, share(places.as_slice(), 0));
        Places { places, shares }
    }

    /// How many places there are.
    pub fn len(&self) -> usize
        ensures length { result ≡ length self.now }
        ensures places { ArePlaces self.now }
    {
        self.places.len()
    }

    /// The position of a place among them, if it is one of them.
    pub fn position(&self, place: u8) -> Option<usize>
        ensures some { IfSome result (λ i. (i < length self.now) × (slice_index self.now i ≡ place)) }
        ensures none { IfNone result (All (λ p. p ≢ place) self.now) }
    {
        self.places.as_slice().iter().position(|p| *p == place)
    }

    /// Leaves in `out` the weight of each place at the point of `at`, in 2 * k steps for k places.
    pub fn weights(&self, at: u8, out: &mut ArrayVec<u8, 255>)
        requires { at < 255 }
        ensures { AreWeights self.now at out.new.items }
    {
        let places = self.places.as_slice();
        let x = point(at);
        let all = over_others(places, places.len(), x);
        out.clear();
        for i in 0..places.len() {
            out.push(weight(all, add(x, point(places[i])), Gf(self.shares[i])).0);
        }
    }
}

/// Leaves in `out` the one list of weights with which the values of a polynomial of `places.len()` coefficients at
/// alpha^places[i] make its value at alpha^at. There are 1 to 255 places, distinct and below 255.
pub fn weights(places: &[u8], at: u8, out: &mut ArrayVec<u8, 255>)
    requires places { ArePlaces places.now }
    requires at { at < 255 }
    ensures { AreWeights places.now at out.new.items }
{
    Places::new(places).weights(at, out);
}

/// The numbers below `k`.
fn source_places(k: u8) -> ArrayVec<u8, 255>
    ensures { result.items ≡ range_with_len 0 k }
{
    let mut places = ArrayVec::new();
    for place in 0..k {
        places.push(place);
    }
    places
}

/// The shares of the places below `k`, each from the one before it.
fn source_shares(k: u8, first: Gf) -> ArrayVec<u8, 255>
    requires some { 1 ≤ k }
    requires first { product (others power k 0 (power 0)) first.0 ≡ 1 }
    ensures { AreShares (range_with_len 0 k) result.items }
{
    let mut shares = ArrayVec::new();
    let mut last = first;
    shares.push(last.0);
    for i in 1..k {
        last = next_share(k, i, last);
        shares.push(last.0);
    }
    shares
}
