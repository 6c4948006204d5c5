//! Elements of the field: sums, products, inverses and powers of alpha.

ghost use Rattle.std.specs.Prelude.{◌≡◌, ◌≢◌, bit_xor};
ghost use Rattle.gf256.specs.Field.{product};
ghost use Rattle.gf256.specs.Polynomial.{power};

use crate::logarithm::{ORDER, log, power_at};

/// An element of GF(256), a polynomial over two values: bit i is the coefficient of x^i. Products are reduced by
/// x^8 + x^4 + x^3 + x^2 + 1 (RFC 5510, section 8.1).
#[derive(Clone, Copy, PartialEq, Eq, Debug)]
pub struct Gf(pub u8);

/// The sum of two elements, which is their difference too.
pub fn add(a: Gf, b: Gf) -> Gf
    ensures { result.0 ≡ bit_xor a.0 b.0 }
{
    Gf(a.0 ^ b.0)
}

/// The product of two elements.
pub fn mul(a: Gf, b: Gf) -> Gf
    ensures { result.0 ≡ product a.0 b.0 }
{
    if a.0 == 0 || b.0 == 0 {
        Gf(0)
    } else {
        Gf(power_at(log(a) + log(b)))
    }
}

/// The element whose product with `a` is 1.
pub fn inv(a: Gf) -> Gf
    requires { a.0 ≢ 0 }
    ensures { product a.0 result.0 ≡ 1 }
{
    Gf(power_at(ORDER - log(a)))
}

/// The power alpha^j, for any j. Alpha is 2.
pub fn power(j: u32) -> Gf
    ensures { result.0 ≡ power j }
{
    Gf(power_at(j % ORDER))
}
