//! Row steps and their count.

ghost use Rattle.std.specs.Prelude.{◌≡◌, ◌+◌, ◌-◌, ◌^◌, length, min};
ghost use Rattle.gf256.specs.Row.{added_row};

use gf256::{Gf, row_add};

/// A count of row steps: sums of one weighed row of a symbol's length. The ledger is a value of a type that the
/// counting caller picks: code that is generic in `L` has no second one, so it can't put a fresh count in the place of
/// the one that it was lent.
#[derive(Drop)]
pub struct Steps<L> {
    ledger: L,
    count: u64,
}

impl<L> Steps<L> {
    /// No steps, under the ledger.
    pub fn start(ledger: L) -> Steps<L>
        ensures ledger { result.ledger ≡ ledger }
        ensures count { result.count ≡ 0 }
    {
        Steps { ledger, count: 0 }
    }

    /// How many steps were taken. The count stays at 2^64 - 1 once there.
    pub fn count(&self) -> u64
        ensures { result ≡ self.now.count }
    {
        self.count
    }

    /// Adds `by` times the row `src` to the row `dst` of one length, and counts one step.
    pub fn row(&mut self, dst: &mut [u8], src: &[u8], by: Gf)
        requires { length src.now ≡ length dst.old }
        ensures row { dst.new ≡ added_row by.0 src.now dst.old }
        ensures count { self.new.count ≡ min (self.old.count + 1) (2 ^ 64 - 1) }
        ensures ledger { self.new.ledger ≡ self.old.ledger }
    {
        row_add(dst, src, by);
        self.count = self.count.saturating_add(1);
    }
}
