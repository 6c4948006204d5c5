//! The receiver of a drill.
ghost use Rattle.std.specs.Prelude.{◌≡◌, ◌≤◌, ◌<◌, ◌+◌, ◌-◌, ◌^◌, ◌∷◌, ◌++◌, ◌⊎◌, [], ℕ, List, min, OnOk, OnErr};
ghost use Rattle.held_packets.specs.Verdict.{held_after, steps_of};
ghost use Rattle.receiver_core.specs.Classes.{packets_of, steps_with};
ghost use Rattle.run_drill.specs.Drill.{HoldsPart};
ghost use Rattle.run_receive.specs.HasTaken.{HasTaken};

use compound_object::Blob;
use receiver_core::Receiver;
use rs_solve::Steps;
use std::alloc::AllocError;

/// Has a receiver that has taken nothing take the datagrams, and settle after each.
pub fn feed<L>(
    receiver: &mut Receiver,
    steps: &mut Steps<L>,
    datagrams: &[Blob],
) -> Result<(), AllocError>
    requires tsi { receiver.old.tsi ≡ 1 }
    requires budget { receiver.old.budget ≡ 67108864 }
    requires fresh { HasTaken receiver.old [] }
    ensures tsi { receiver.new.tsi ≡ 1 }
    ensures budget { receiver.new.budget ≡ 67108864 }
    ensures taken { OnOk result (HasTaken receiver.new datagrams.now) }
    ensures part { OnErr result (HoldsPart datagrams.now receiver.new.held) }
    ensures count { OnOk result (steps.new.count ≡ min (steps.old.count + steps_of 67108864 (packets_of 1 datagrams.now)) (2 ^ 64 - 1)) }
{
    // Read, so that its range is known where there is no datagram.
    let _count = steps.count();
    for datagram in datagrams {
        feed_one(receiver, steps, datagram.as_slice())?;
    }
    Ok(())
}

/// Has the receiver take one datagram more, and settle.
fn feed_one<L>(
    receiver: &mut Receiver,
    steps: &mut Steps<L>,
    datagram: &[u8],
) -> Result<(), AllocError>
    requires tsi { receiver.old.tsi ≡ 1 }
    requires budget { receiver.old.budget ≡ 67108864 }
    ensures tsi { receiver.new.tsi ≡ 1 }
    ensures budget { receiver.new.budget ≡ 67108864 }
    ensures drops { receiver.new.drops ≤ receiver.old.drops + 1 }
    ensures taken { OnOk result ((ds : List (List ℕ)) → receiver.old.drops < 2 ^ 64 - 1 → HasTaken receiver.old ds → HasTaken receiver.new (ds ++ datagram.now ∷ [])) }
    ensures part { OnErr result ((ds : List (List ℕ)) → HasTaken receiver.old ds →
        (receiver.new.held ≡ held_after 67108864 (packets_of 1 ds)) ⊎ (receiver.new.held ≡ held_after 67108864 (packets_of 1 (ds ++ datagram.now ∷ [])))) }
    ensures count { OnOk result (steps.new.count ≡ min (steps.old.count + steps_with receiver.old.tsi receiver.old.budget receiver.old.held datagram.now) (2 ^ 64 - 1)) }
{
    receiver.take(datagram, steps)?;
    receiver.settle()?;
    Ok(())
}
