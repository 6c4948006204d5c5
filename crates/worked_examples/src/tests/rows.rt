//! A row of a test: a run, and what it comes to.

use super::same::same;
use std::alloc::{AllocError, Global};
use std::process::Abort;
use worked_runs::playing::{Outcome, comes_to, log_comes_to, packets_come_to};

/// Asserts that these words over a log of these datagrams come to this.
pub fn plays(
    rt: &impl Abort,
    alloc: Global,
    words: &[&str],
    datagrams: &[&[u8]],
    outcome: &Outcome<'_>,
    row: u32,
) -> Result<(), AllocError> {
    same(rt, &comes_to(alloc, words, datagrams, outcome)?, &true, row);
    Ok(())
}

/// Asserts that a replay of a log of these datagrams comes to this.
pub fn replays(
    rt: &impl Abort,
    alloc: Global,
    datagrams: &[&[u8]],
    outcome: &Outcome<'_>,
    row: u32,
) -> Result<(), AllocError> {
    plays(rt, alloc, &["replay"], datagrams, outcome, row)
}

/// Asserts that a replay of a log of these packets comes to this.
pub fn replays_packets(
    rt: &impl Abort,
    alloc: Global,
    packets: &[Vec<u8>],
    outcome: &Outcome<'_>,
    row: u32,
) -> Result<(), AllocError> {
    let found = packets_come_to(alloc, &["replay"], packets, outcome)?;
    same(rt, &found, &true, row);
    Ok(())
}

/// Asserts that these words over this log come to this.
pub fn plays_log(
    rt: &impl Abort,
    alloc: Global,
    words: &[&str],
    log: &[u8],
    outcome: &Outcome<'_>,
    row: u32,
) -> Result<(), AllocError> {
    same(rt, &log_comes_to(alloc, words, log, outcome)?, &true, row);
    Ok(())
}
