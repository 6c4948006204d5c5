//! When a sender that keeps to a rate may send.

use super::same::same;
use edge_real::Pace;
use std::process::Abort;
use std::test::Fail;

/// Compares the waits of datagrams of so many bytes at these times.
fn compare(rt: &impl Abort, rate: u64, sent: &[(u64, u16, u64)], row: u32) {
    let mut pace = Pace::new(rate);
    for (now, bytes, wait) in sent {
        same(rt, &pace.wait(*now, *bytes), wait, row);
    }
}

/// At 1,000,000 bytes a second a byte takes 1,000 ns. After a pause the datagrams of 10 ms go out
/// at once, and the next one waits.
#[test]
fn datagrams_wait_for_their_time(rt: HostRuntime) -> Result<(), Fail> {
    let first = [
        (0, 500, 0),
        (0, 512, 1_012_000 - 500_000),
        (0, 600, 1_024_000),
        (1_024_000, 1, 600_000),
        (3_000_000, 1, 0),
    ];
    compare(&rt, 1_000_000, &first, 1);
    let late = 60_000_000_000;
    let paused = [
        (0, 1_000, 0),
        (late, 10_000, 0),
        (late, 1_000, 0),
        (late, 1_000, 1_000_000),
        (late, 1_000, 2_000_000),
    ];
    compare(&rt, 1_000_000, &paused, 2);
    compare(&rt, 0, &[(0, 65_507, 0), (0, 65_507, 0), (0, 65_507, 0)], 3);
    compare(&rt, 1, &[(0, 512, 0), (0, 512, 512_000_000_000)], 4);
    Ok(())
}
