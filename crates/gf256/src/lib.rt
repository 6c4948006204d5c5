//! The field GF(256) over which RFC 5510 builds its Reed-Solomon code: its elements, powers of alpha, values
//! of polynomials, and sums of rows. Nothing here takes memory or refuses.
#![tactic(auto)]

mod element;
mod halves;
mod lanes;
pub mod laws;
mod logarithm;
mod polynomial;
mod row;

pub use element::{Gf, add, inv, mul, power};
pub use polynomial::eval;
pub use row::row_add;
