//! The weights of a block's rows in a repair symbol.

ghost use Rattle.std.specs.Prelude.{◌≡◌, ◌≤◌, ◌<◌};
ghost use Rattle.std.specs.List.{range_with_len};
ghost use Rattle.rs_code.specs.Weights.{AreWeights};

use arrayvec::ArrayVec;
use rs_code::Places;

/// The weights that were made last: those of the rows of a block of `k` source symbols in its encoding symbol
/// `esi`. There are none yet where `k` is 0. They hold for each block of that size, of whatever object.
#[derive(Drop)]
pub struct WeightRow {
    pub(crate) k: u8,
    pub(crate) esi: u8,
    pub(crate) weights: ArrayVec<u8, 255>,
    ghost are: { 1 ≤ k → AreWeights (range_with_len 0 k) esi weights.items },
}

impl WeightRow {
    /// No weights yet.
    pub fn new() -> WeightRow {
        WeightRow {
            k: 0,
            esi: 0,
            weights: ArrayVec::new(),
        }
    }

    /// Makes these weights, unless they are the ones that were made last.
    pub(crate) fn make(&mut self, k: u8, esi: u8)
        requires some { 1 ≤ k }
        requires esi { esi < 255 }
        ensures k { self.new.k ≡ k }
        ensures esi { self.new.esi ≡ esi }
    {
        if self.k == k && self.esi == esi {
            return;
        }
        let mut weights = ArrayVec::new();
        Places::sources(k).weights(esi, &mut weights);
        *self = WeightRow { k, esi, weights };
    }
}
