//! What headers, objects and symbols share: lists of bytes, numbers in bytes, zero fill, the first of several faults,
//! and counts and sums over the numbers below a bound. Most of it is definitions and laws; no call takes memory.
#![tactic(auto)]

ghost use Rattle.std.specs.Prelude.{◌≡◌};
ghost use Rattle.wire_bytes.specs.Bytes.{are_zero};

pub mod laws;

/// Whether each byte is zero, as the filling of an object's last symbol or of a header's last word has to be.
pub fn is_zero(bytes: &[u8]) -> bool
    ensures { result ≡ are_zero bytes.now }
{
    bytes.iter().all(|byte| *byte == 0)
}
