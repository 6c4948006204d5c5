//! Sums of rows, sixteen bytes at a step.

ghost use Rattle.std.specs.Prelude.{◌≡◌, length};
ghost use Rattle.gf256.specs.Row.{added_row};

use crate::element::{Gf, add, mul};
use crate::lanes::{LANES, add_lanes, high_products, low_products};

/// Adds `by` times the element of `src` at each place to that of `dst`. The rows have one length.
pub fn row_add(dst: &mut [u8], src: &[u8], by: Gf)
    requires { length src.now ≡ length dst.old }
    ensures { dst.new ≡ added_row by.0 src.now dst.old }
{
    let low = low_products(by);
    let high = high_products(by);
    let mut at = 0;
    while dst.len() - at >= LANES {
        add_lanes(dst, src, at, low, high);
        at += LANES;
    }
    while at < dst.len() {
        dst[at] = add(Gf(dst[at]), mul(by, Gf(src[at]))).0;
        at += 1;
    }
}
