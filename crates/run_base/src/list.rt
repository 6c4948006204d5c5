//! Taking the datagrams of a list, one after another, as far as a bound goes.
ghost use Rattle.std.specs.Prelude.{◌≡◌, ◌≤◌, IfOk, length};
ghost use Rattle.edge_io.specs.Faults.{Rose};
ghost use Rattle.run_base.specs.Answers.{Blames};
ghost use Rattle.run_base.specs.Steps.{Fits, Steps, Takes};

use crate::bound::Bound;
use crate::ending::Ending;
use crate::fault::Fault;
use edge_io::{Datagrams, Next};

/// A datagram that is taken, or how the taking ends.
#[derive(Clone, Copy, PartialEq, Eq, Debug)]
pub enum Step {
    /// A datagram of this many bytes, which stand at the front of the buffer.
    Got(usize),
    /// The taking ended so.
    Ended(Ending),
}

/// The next datagram that is taken, or how the taking ends. `bound` says how many may still be taken, and is one less where one is.
/// The buffer has room for 65,535 bytes.
///
/// # Errors
///
/// `Datagrams` where the source failed.
pub fn next_within<D: Datagrams>(
    datagrams: &mut D,
    bound: &mut Bound,
    buffer: &mut [u8],
) -> Result<Step, Fault>
    requires { 65535 ≤ length buffer.old }
    ensures fits { IfOk result (λ step. Fits step buffer.new bound.old bound.new) }
    ensures answer { IfOk result (λ step. D.told datagrams.old →
        Steps step buffer.new bound.old (D.left datagrams.old) (D.torn datagrams.old) (D.left datagrams.new) (D.torn datagrams.new) (D.told datagrams.new)) }
    ensures place { D.connected datagrams.new ≡ D.connected datagrams.old }
    ensures blames { Blames result (Rose (D.faults datagrams.old) (D.faults datagrams.new)) ⊥ ⊥ ⊥ ⊥ }
    ensures grows { D.faults datagrams.old ≤ D.faults datagrams.new }
{
    if let Bound::Count(0) = bound {
        return Ok(Step::Ended(Ending::End));
    }
    match datagrams.next(buffer) {
        Next::Got(size) => Ok(take_one(bound, size)),
        Next::End => Ok(Step::Ended(Ending::End)),
        Next::Torn(at) => Ok(Step::Ended(Ending::Torn(at))),
        Next::Failed => Err(Fault::Datagrams),
    }
}

/// Takes a datagram that came, where one may still be taken.
fn take_one(bound: &mut Bound, size: usize) -> Step
    ensures { Takes result size bound.old bound.new }
{
    match bound.one_less() {
        Some(left) => {
            *bound = left;
            Step::Got(size)
        }
        None => Step::Ended(Ending::TooMany),
    }
}
