//! A block from any k of its encoding symbols.

ghost use Rattle.std.specs.Prelude.{◌≡◌, ◌≤◌, ◌<◌, ◌+◌, ◌-◌, ◌*◌, ◌^◌, ℕ, length, min, IfOk, OnOk, OnErr};
ghost use Rattle.rs_code.specs.Weights.{ArePlaces};
ghost use Rattle.rs_solve.specs.Solution.{IsSolution, missing, row_at};
ghost use Rattle.rs_solve.specs.Inner.Values.{IsRowAt};

use crate::source::source_row;
use crate::steps::Steps;
use rs_code::Places;
use std::alloc::{AllocError, Global};

/// The one block whose symbols at these places are these rows, as k source rows of `size` bytes. There are k places,
/// 1 to 255 distinct symbol IDs below 255, and `rows` has a row of `size` bytes for each, in the same order.
///
/// A source row that is among the rows is copied. Each other one takes k row steps.
///
/// # Errors
/// `AllocError` where there is no memory for the block. No step is counted then.
pub fn solve<L>(
    alloc: Global,
    size: usize,
    places: &[u8],
    rows: &[u8],
    steps: &mut Steps<L>,
) -> Result<Vec<u8>, AllocError>
    requires places { ArePlaces places.now }
    requires size { 1 ≤ size }
    requires rows { length rows.now ≡ length places.now * size }
    ensures block { IfOk result (λ v. IsSolution size places.now rows.now v.items) }
    ensures count { OnOk result (steps.new.count ≡ min (steps.old.count + missing places.now * length places.now) (2 ^ 64 - 1)) }
    ensures ledger { steps.new.ledger ≡ steps.old.ledger }
    ensures memory { OnErr result (steps.new.count ≡ steps.old.count) }
{
    let mut block = vec![in alloc; 0; rows.len()]?;
    solve_rows(
        &Places::new(places),
        size,
        rows,
        block.as_mut_slice(),
        steps,
    );
    Ok(block)
}

/// Leaves in `block` the source rows, from the first on.
fn solve_rows<L>(places: &Places, size: usize, rows: &[u8], block: &mut [u8], steps: &mut Steps<L>)
    requires size { 1 ≤ size }
    requires rows { length rows.now ≡ length places.now * size }
    requires block { length block.old ≡ length rows.now }
    ensures whole { length block.new ≡ length block.old }
    ensures rows { (m : ℕ) → m < length places.now → IsRowAt size places.now rows.now m (row_at size block.new m) }
    ensures count { steps.new.count ≡ min (steps.old.count + missing places.now * length places.now) (2 ^ 64 - 1) }
    ensures ledger { steps.new.ledger ≡ steps.old.ledger }
{
    let _before = steps.count();
    for m in 0..places.len() as u8 {
        let start = usize::from(m) * size;
        source_row(
            places,
            size,
            rows,
            m,
            &mut block[start..start + size],
            steps,
        );
    }
}
