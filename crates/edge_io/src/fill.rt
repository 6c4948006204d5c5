//! Reading until a buffer is full, however the reads are cut.

ghost use Rattle.std.specs.Prelude.{length, ◌≤◌, ◌<◌, ◌^◌, IfOk, OnOk, IsErr};
ghost use Rattle.edge_io.specs.Faults.{Rose};
ghost use Rattle.edge_io.specs.Reads.{Filled};

use crate::{Bytes, Failed};

/// Reads until the buffer is full or no byte is left, and answers how many bytes were read.
pub fn fill<B: Bytes>(source: &mut B, out: &mut [u8]) -> Result<usize, Failed>
    ensures within { IfOk result (λ n. n ≤ length out.new) }
    ensures filled { IfOk result (λ n. B.told source.old → Filled n out.new (B.left source.old) (B.left source.new)) }
    ensures fewer { OnOk result (B.told source.old → 0 < length out.old → length (B.left source.old) < 2 ^ 64) }
    ensures told { OnOk result (B.told source.old → B.told source.new) }
    ensures rose { IsErr result → Rose (B.faults source.old) (B.faults source.new) }
    ensures grows { B.faults source.old ≤ B.faults source.new }
{
    let mut got: usize = 0;
    while got < out.len() {
        let count = source.read(&mut out[got..])?;
        if count == 0 {
            break;
        }
        got += count;
    }
    Ok(got)
}
