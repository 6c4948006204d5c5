//! One source row of a block that is solved.

ghost use Rattle.std.specs.Prelude.{ℕ, ◌≡◌, ◌≤◌, ◌<◌, ◌+◌, ◌-◌, ◌*◌, ◌^◌, ◌==◌, slice_index, if◌then◌else◌, length, min};
ghost use Rattle.std.specs.List.{list_any};
ghost use Rattle.rs_code.specs.SourceRows.{column, cut};
ghost use Rattle.rs_code.specs.Weights.{weighed_bytes};
ghost use Rattle.rs_solve.specs.Solution.{row_at};
ghost use Rattle.rs_solve.specs.Inner.Values.{IsRowAt};

use crate::steps::Steps;
use arrayvec::ArrayVec;
use gf256::Gf;
use rs_code::Places;

/// Leaves in `out` source row `m`: a copy, if it is among the rows, else the sum of all rows, each with its weight.
pub(crate) fn source_row<L>(
    places: &Places,
    size: usize,
    rows: &[u8],
    m: u8,
    out: &mut [u8],
    steps: &mut Steps<L>,
)
    requires size { 1 ≤ size }
    requires rows { length rows.now ≡ length places.now * size }
    requires place { m < 255 }
    requires within { m < length places.now }
    requires long { length out.old ≡ size }
    ensures row { IsRowAt size places.now rows.now m out.new }
    ensures count { steps.new.count ≡ (if list_any (λ p. p == m) places.now then steps.old.count else min (steps.old.count + length places.now) (2 ^ 64 - 1)) }
    ensures ledger { steps.new.ledger ≡ steps.old.ledger }
{
    match places.position(m) {
        Some(i) => out.copy_from_slice(row_of(size, rows, i)),
        None => {
            let mut weights = ArrayVec::new();
            places.weights(m, &mut weights);
            weigh_rows(weights.as_slice(), size, rows, out, steps);
        }
    }
}

/// Leaves in `out` the sum of the rows, each times its weight, and counts a step for each.
fn weigh_rows<L>(weights: &[u8], size: usize, rows: &[u8], out: &mut [u8], steps: &mut Steps<L>)
    requires rows { length rows.now ≡ length weights.now * size }
    requires long { length out.old ≡ size }
    ensures long { length out.new ≡ size }
    ensures sums { (at : ℕ) → at < size → slice_index out.new at ≡ weighed_bytes weights.now (column (cut (length weights.now) size rows.now) at) (length weights.now) }
    ensures count { steps.new.count ≡ min (steps.old.count + length weights.now) (2 ^ 64 - 1) }
    ensures ledger { steps.new.ledger ≡ steps.old.ledger }
{
    let _before = steps.count();
    out.fill(0);
    for i in 0..weights.len() {
        steps.row(out, row_of(size, rows, i), Gf(weights[i]));
    }
}

/// Row `i` of rows of `size` bytes.
fn row_of(size: usize, rows: &[u8], i: usize) -> &[u8]
    requires { i * size + size ≤ length rows.now }
    ensures { result.now ≡ row_at size rows.now i }
{
    &rows[i * size..i * size + size]
}
