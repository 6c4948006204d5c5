//! The event of what became of a datagram.
ghost use Rattle.std.specs.Prelude.{◌≡◌};
ghost use Rattle.run_receive.specs.Events.{event_of, event_of_packet};

use receiver_core::{Kept, Taken};
use watch_list::Event;

/// The event of what became of a datagram.
pub fn event_of(taken: &Taken) -> Event
    ensures { result ≡ event_of taken.now }
{
    match taken {
        Taken::Refused(refusal) => Event::Refused {
            code: refusal.code(),
            detail: refusal.detail(),
        },
        Taken::Elsewhere { tsi } => Event::Elsewhere { tsi: *tsi },
        Taken::Control { close } => Event::Control { close: *close },
        Taken::Packet {
            toi,
            sbn,
            esi,
            kept,
        } => event_of_packet(*toi, *sbn, *esi, kept),
    }
}

/// The event of a packet's verdict.
fn event_of_packet(toi: u128, sbn: u32, esi: u8, kept: &Kept) -> Event
    ensures { result ≡ event_of_packet toi sbn esi kept.now }
{
    match kept {
        Kept::New {
            block_done,
            object_done,
        } => Event::New {
            toi,
            sbn,
            esi,
            block_done: *block_done,
            object_done: *object_done,
        },
        Kept::Repeat => Event::Repeat { toi, sbn, esi },
        Kept::Spare => Event::Spare { toi, sbn, esi },
        Kept::OtiDiffers(_) => Event::OtiDiffers { toi },
        Kept::SymbolDiffers { at } => Event::SymbolDiffers {
            toi,
            sbn,
            esi,
            at: *at,
        },
        Kept::OverBudget { count, charge } => Event::OverBudget {
            toi,
            sbn,
            esi,
            count: *count,
            charge: *charge,
        },
    }
}
