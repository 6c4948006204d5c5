//! What the watchers of a run are told.

use super::same::same;
use std::alloc::{AllocError, Global};
use std::process::Abort;
use std::test::Fail;
use watch_list::Event;
use worked_runs::logs::{
    EMPTY_INSTANCE_DATAGRAM, empty_instance, log_of, log_of_copies, log_of_packets,
};
use worked_runs::packets::{with_byte, zero_packets};
use worked_runs::pieces::Piece::{Cut, List};
use worked_runs::pieces::packets_of;
use worked_runs::telling::{new, told};

/// Asserts that a run of these words over this log tells its watchers these events.
fn tells(
    rt: &impl Abort,
    alloc: Global,
    words: &[&str],
    log: &[u8],
    events: &[Event],
    row: u32,
) -> Result<(), AllocError> {
    let heard = told(alloc, words, log, &[])?;
    same(rt, &heard.events.as_slice(), &events, row);
    same(rt, &heard.count, &Some(events.len() as u64), row);
    Ok(())
}

#[test]
fn each_class_is_told(rt: HostRuntime) -> Result<(), Fail> {
    let alloc = rt.alloc();
    let one = EMPTY_INSTANCE_DATAGRAM;
    let foreign = with_byte(alloc, 11, 2)?;
    let other_symbol = with_byte(alloc, 59, 1)?;
    let other_information = with_byte(alloc, 27, 2)?;
    let datagrams: [&[u8]; 9] = [
        &one[..30],
        &one[..32],
        foreign.as_slice(),
        &one[..28],
        &one,
        &one,
        other_symbol.as_slice(),
        other_information.as_slice(),
        &one[..3],
    ];
    let log = log_of(alloc, &datagrams)?;
    let expected = [
        Event::Refused {
            code: 16,
            detail: 0,
        },
        Event::Refused {
            code: 19,
            detail: 0,
        },
        Event::Elsewhere { tsi: 2 },
        Event::Control { close: false },
        new(1, 0, true, true),
        Event::Installed { number: 1 },
        Event::Repeat {
            toi: 1,
            sbn: 0,
            esi: 0,
        },
        Event::SymbolDiffers {
            toi: 1,
            sbn: 0,
            esi: 0,
            at: 27,
        },
        Event::OtiDiffers { toi: 1 },
        Event::Refused { code: 1, detail: 0 },
    ];
    tells(&rt, alloc, &["replay"], log.as_slice(), &expected, 1)?;
    Ok(())
}

#[test]
fn installed_comes_where_another_instance_is(rt: HostRuntime) -> Result<(), Fail> {
    let three = empty_instance(3, 3);
    let two = empty_instance(2, 2);
    let four = empty_instance(4, 4);
    let log = log_of(rt.alloc(), &[&three, &two, &four])?;
    let expected = [
        new(3, 0, true, true),
        Event::Installed { number: 3 },
        // A lower number changes nothing.
        new(2, 0, true, true),
        new(4, 0, true, true),
        Event::Installed { number: 4 },
    ];
    tells(&rt, rt.alloc(), &["replay"], log.as_slice(), &expected, 2)?;
    Ok(())
}

#[test]
fn a_symbol_too_many_is_spare(rt: HostRuntime) -> Result<(), Fail> {
    let packets = packets_of(rt.alloc(), &[List(0), List(2), Cut])?;
    let log = log_of_packets(rt.alloc(), packets.as_slice())?;
    let expected = [
        new(2, 0, false, false),
        new(2, 2, true, true),
        Event::Spare {
            toi: 2,
            sbn: 0,
            esi: 1,
        },
    ];
    tells(&rt, rt.alloc(), &["replay"], log.as_slice(), &expected, 3)?;
    Ok(())
}

// Three symbols of 1,000 bytes are within the budget, with 256 for their object and 64 for their block.
#[test]
fn a_packet_over_the_budget_is_told(rt: HostRuntime) -> Result<(), Fail> {
    let packets = zero_packets(rt.alloc(), 1_000, 4)?;
    let log = log_of_packets(rt.alloc(), packets.as_slice())?;
    let expected = [
        new(1, 0, false, false),
        new(1, 1, false, false),
        new(1, 2, false, false),
        Event::OverBudget {
            toi: 1,
            sbn: 0,
            esi: 3,
            count: 3_320,
            charge: 1_000,
        },
    ];
    let words = ["replay", "--budget", "4096"];
    tells(&rt, rt.alloc(), &words, log.as_slice(), &expected, 4)?;
    Ok(())
}

/// The diary is deaf at this call, and is dropped; the counter hears all.
fn drops_the_diary(
    rt: &impl Abort,
    alloc: Global,
    log: &[u8],
    call: u32,
) -> Result<(), AllocError> {
    let heard = told(alloc, &["replay"], log, &[call])?;
    let row = 10u32.saturating_add(call);
    same(rt, &heard.watchers, &1, row);
    same(rt, &heard.count, &Some(3), row);
    Ok(())
}

#[test]
fn a_deaf_watcher_is_dropped(rt: HostRuntime) -> Result<(), Fail> {
    let log = log_of_copies(rt.alloc(), 2)?;
    for call in [1u32, 2, 3] {
        drops_the_diary(&rt, rt.alloc(), log.as_slice(), call)?;
    }
    Ok(())
}

#[test]
fn other_commands_tell_nothing(rt: HostRuntime) -> Result<(), Fail> {
    let log = log_of_copies(rt.alloc(), 1)?;
    let rows: [(u32, &[&str]); 3] = [(21, &["dump"]), (22, &[]), (23, &["replay", "--most", "0"])];
    for (row, words) in rows {
        tells(&rt, rt.alloc(), words, log.as_slice(), &[], row)?;
    }
    Ok(())
}
