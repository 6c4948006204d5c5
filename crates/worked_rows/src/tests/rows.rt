//! A row of a test: a run, and all that it comes to.

use super::same::same;
use super::watched::watch;
use std::alloc::{AllocError, Global};
use std::process::Abort;
use watch_list::Event;
use worked_runs::logs::{log_of, log_of_packets};
use worked_runs::playing::{Outcome, is};

/// What a run comes to: its status, its report, what stands on the shelf; and what its watcher hears.
#[derive(Clone, Copy)]
pub struct Wanted<'a> {
    pub outcome: Outcome<'a>,
    pub events: &'a [Event],
}

/// Asserts that these words over this log come to this, whether it is read as a whole or byte by byte.
pub fn logs(
    rt: &impl Abort,
    alloc: Global,
    words: &[&str],
    log: &[u8],
    wanted: Wanted<'_>,
    row: u32,
) -> Result<(), AllocError> {
    for one_by_one in [false, true] {
        let watched = watch(alloc, words, log, one_by_one, &[&[]])?;
        same(rt, &watched.events(0), &wanted.events, row);
        same(rt, &is(&watched.ran, &wanted.outcome), &true, row);
    }
    Ok(())
}

/// Asserts that these words over a log of these datagrams come to this.
pub fn datagrams(
    rt: &impl Abort,
    alloc: Global,
    words: &[&str],
    datagrams: &[&[u8]],
    wanted: Wanted<'_>,
    row: u32,
) -> Result<(), AllocError> {
    let log = log_of(alloc, datagrams)?;
    logs(rt, alloc, words, log.as_slice(), wanted, row)
}

/// Asserts that these words over a log of these packets come to this.
pub fn packets(
    rt: &impl Abort,
    alloc: Global,
    words: &[&str],
    packets: &[Vec<u8>],
    wanted: Wanted<'_>,
    row: u32,
) -> Result<(), AllocError> {
    let log = log_of_packets(alloc, packets)?;
    logs(rt, alloc, words, log.as_slice(), wanted, row)
}
