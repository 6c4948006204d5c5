//! The datagrams of a session, sent one after another.
ghost use Rattle.std.specs.Prelude.{◌≡◌, ◌≤◌, Some, OnOk, IsErrOf};
ghost use Rattle.edge_io.specs.Faults.{Rose};
ghost use Rattle.sender_schedule.specs.Schedule.{schedule};
ghost use Rattle.run_send.specs.Inner.Stages.{Sends};

use edge_io::{Emit, Place, Trouble};
use sender_plan::Session;
use sender_schedule::Schedule;
use std::alloc::Global;

/// Connects the sink to the place, and sends all datagrams of the session.
#[tactic(auto, using(run_base::proofs::Public::nothing_added))]
pub fn transmit<E: Emit>(
    alloc: Global,
    place: &Place,
    session: &Session,
    emit: &mut E,
) -> Result<(), Trouble>
    ensures sends { E.told emit.old → Sends result (schedule session.now) (E.sent emit.old) (E.sent emit.new) }
    ensures place { OnOk result (E.connected emit.new ≡ Some place.now) }
    ensures rose { IsErrOf result Trouble.Failed → Rose (E.faults emit.old) (E.faults emit.new) }
{
    emit.connect(place)?;
    send_all(alloc, session, emit)
}

/// Sends all datagrams of the session.
#[tactic(auto, using(crate::proofs::Sends::sends_none, crate::proofs::Sends::sends_more, crate::proofs::Sends::sends_all, crate::proofs::Sends::sends_part))]
fn send_all<E: Emit>(alloc: Global, session: &Session, emit: &mut E) -> Result<(), Trouble>
    ensures sends { E.told emit.old → Sends result (schedule session.now) (E.sent emit.old) (E.sent emit.new) }
    ensures place { E.connected emit.new ≡ E.connected emit.old }
    ensures rose { IsErrOf result Trouble.Failed → Rose (E.faults emit.old) (E.faults emit.new) }
    ensures grows { E.faults emit.old ≤ E.faults emit.new }
{
    let mut schedule = Schedule::new(session);
    let mut datagram = Vec::new(alloc);
    while schedule.next(&mut datagram)? {
        emit.send(datagram.as_slice())?;
    }
    Ok(())
}
