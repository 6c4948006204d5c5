//! What the budget keeps out, and what watchers hear of it.

use super::rows::{Wanted, packets};
use std::alloc::{AllocError, Global};
use std::process::Abort;
use std::test::Fail;
use watch_list::Event;
use worked_runs::packets::{Coding, packet, zero_packets};
use worked_runs::playing::{INSTALLS_NOTHING, NOTHING, Outcome};
use worked_runs::telling::new;

/// The words that replay a log within the least budget.
const LEAST: [&str; 3] = ["replay", "--budget", "4096"];

/// A run that kept packets out, with this line.
fn kept_out(line: &str) -> Outcome<'_> {
    Outcome {
        status: 7,
        best: NOTHING,
        rest: line,
        ..INSTALLS_NOTHING
    }
}

/// The eight source symbols of one block, of which the budget leaves so many, with this count then.
fn keeps_of_eight(
    rt: &impl Abort,
    alloc: Global,
    symbol: u16,
    kept: u8,
    count: u64,
    line: &str,
    row: u32,
) -> Result<(), AllocError> {
    let mut events = Vec::new(alloc);
    for esi in 0..8 {
        events.push(if esi < kept {
            new(1, esi, false, false)
        } else {
            over_budget(1, esi, count, u64::from(symbol))
        })?;
    }
    let wanted = Wanted {
        outcome: kept_out(line),
        events: events.as_slice(),
    };
    let list = zero_packets(alloc, symbol, 8)?;
    packets(rt, alloc, &LEAST, list.as_slice(), wanted, row)
}

fn over_budget(toi: u128, esi: u8, count: u64, charge: u64) -> Event {
    Event::OverBudget {
        toi,
        sbn: 0,
        esi,
        count,
        charge,
    }
}

#[test]
fn symbols_of_one_block(rt: HostRuntime) -> Result<(), Fail> {
    // 256 and 64, and three times 1,000, are 3,320; four times 944 fill the budget.
    let alloc = rt.alloc();
    keeps_of_eight(&rt, alloc, 1_000, 3, 3_320, "over budget 5\n", 1)?;
    keeps_of_eight(&rt, alloc, 944, 4, 4_096, "over budget 4\n", 2)?;
    Ok(())
}

/// The first symbol of an object of eight bytes, a byte a symbol.
fn first_symbol(alloc: Global, toi: u32) -> Result<Vec<u8>, AllocError> {
    let coding = Coding {
        toi,
        length: 8,
        symbol: 1,
        max_block: 8,
        max_n: 8,
    };
    packet(alloc, coding, 0, &[0])
}

/// Each object costs 256, 64 and 1, so twelve of them come to 3,852.
#[test]
fn a_thousand_objects(rt: HostRuntime) -> Result<(), Fail> {
    let alloc = rt.alloc();
    let mut list = Vec::new(alloc);
    let mut events = Vec::new(alloc);
    for toi in 1..=1_000u32 {
        list.push(first_symbol(alloc, toi)?)?;
        events.push(if toi <= 12 {
            new(u128::from(toi), 0, false, false)
        } else {
            over_budget(u128::from(toi), 0, 3_852, 321)
        })?;
    }
    let wanted = Wanted {
        outcome: kept_out("over budget 988\n"),
        events: events.as_slice(),
    };
    packets(&rt, alloc, &LEAST, list.as_slice(), wanted, 3)?;
    Ok(())
}
