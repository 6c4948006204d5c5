//! What the budget keeps out.

use super::rows::plays_log;
use std::alloc::{AllocError, Global};
use std::process::Abort;
use std::test::Fail;
use worked_runs::logs::log_of_packets;
use worked_runs::packets::zero_packets;
use worked_runs::playing::{NOTHING, Outcome};

/// Replays the eight packets of a block with symbols of this length within the budget, which ends with this status and
/// line.
fn replays_eight(
    rt: &impl Abort,
    alloc: Global,
    symbol: u16,
    budget: &str,
    ended: (u8, &str),
    row: u32,
) -> Result<(), AllocError> {
    let packets = zero_packets(alloc, symbol, 8)?;
    let log = log_of_packets(alloc, packets.as_slice())?;
    let (status, rest) = ended;
    let outcome = Outcome {
        status,
        best: NOTHING,
        rest,
        shelf: None,
    };
    let words = ["replay", "--budget", budget];
    plays_log(rt, alloc, &words, log.as_slice(), &outcome, row)
}

const ROWS: [(u32, u16, &str, (u8, &str)); 4] = [
    // 256 and 64, and three times 1,000, are 3,320.
    (1, 1000, "4096", (7, "over budget 5\n")),
    // Four times 944 fill the budget.
    (2, 944, "4096", (7, "over budget 4\n")),
    // 8,320 hold all eight, and one byte less keeps the last out.
    (3, 1000, "8319", (7, "over budget 1\n")),
    (4, 1000, "8320", (2, "")),
];

#[test]
fn packets_over_the_budget_are_counted(rt: HostRuntime) -> Result<(), Fail> {
    for (row, symbol, budget, ended) in ROWS {
        replays_eight(&rt, rt.alloc(), symbol, budget, ended, row)?;
    }
    Ok(())
}
