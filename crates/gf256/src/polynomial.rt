//! Values of polynomials over the field.

ghost use Rattle.std.specs.Prelude.{◌≡◌};
ghost use Rattle.gf256.specs.Polynomial.{value};

use crate::element::{Gf, add, mul};

/// The value at `x` of the polynomial with these coefficients, that of x^0 first: the sum of `coefs[i]` times
/// x^i, and zero for no coefficients.
pub fn eval(coefs: &[u8], x: Gf) -> Gf
    ensures { result.0 ≡ value coefs.now x.0 }
{
    let mut sum = Gf(0);
    let mut power = Gf(1);
    for coef in coefs {
        sum = add(sum, mul(Gf(*coef), power));
        power = mul(power, x);
    }
    sum
}
