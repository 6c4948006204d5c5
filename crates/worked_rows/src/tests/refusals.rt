//! Datagrams that are cut or have another byte in their header.

use super::rows::{Wanted, datagrams};
use std::alloc::{AllocError, Global};
use std::process::Abort;
use std::test::Fail;
use watch_list::Event;
use worked_runs::logs::EMPTY_INSTANCE_DATAGRAM;
use worked_runs::packets::with_byte;
use worked_runs::playing::INSTALLS_NOTHING;

/// The datagram alone is told as this event, and installs nothing.
fn is_told(
    rt: &impl Abort,
    alloc: Global,
    datagram: &[u8],
    event: Event,
    row: u32,
) -> Result<(), AllocError> {
    let wanted = Wanted {
        outcome: INSTALLS_NOTHING,
        events: &[event],
    };
    datagrams(rt, alloc, &["replay"], &[datagram], wanted, row)
}

fn refused(code: u8, detail: u64) -> Event {
    Event::Refused { code, detail }
}

#[test]
fn datagrams_that_are_cut(rt: HostRuntime) -> Result<(), Fail> {
    let rows = [
        (1u32, 28usize, Event::Control { close: false }),
        // No FEC Payload ID, and a symbol of no bytes.
        (2, 30, refused(16, 0)),
        (3, 32, refused(19, 0)),
    ];
    for (row, length, event) in rows {
        let cut = EMPTY_INSTANCE_DATAGRAM.as_slice().get(..length);
        is_told(&rt, rt.alloc(), cut.ok_or("cut")?, event, row)?;
    }
    Ok(())
}

#[test]
fn other_bytes_of_the_header(rt: HostRuntime) -> Result<(), Fail> {
    let rows = [
        // The header ends inside EXT_FTI, in front of it, and in front of the TOI.
        (4u32, 2usize, 6u8, refused(5, 16)),
        (5, 2, 4, refused(8, 0)),
        (6, 2, 3, refused(3, 0)),
        // Another FEC encoding.
        (7, 3, 6, refused(6, 6)),
    ];
    for (row, at, byte, event) in rows {
        let datagram = with_byte(rt.alloc(), at, byte)?;
        is_told(&rt, rt.alloc(), datagram.as_slice(), event, row)?;
    }
    Ok(())
}
