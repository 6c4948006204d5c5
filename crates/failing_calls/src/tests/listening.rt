//! Runs of `listen`, with one reader.

use super::devices::Device::{Shelf, Source, Text};
use super::devices::{Ended, Failing, Log, fails, log_reader, outside, sink};
use super::left::{Left, UNTOUCHED, leaves};
use edge_io::{LogReader, MemBytes, MemEmit};
use fcast_run::{Wide, run_listen};
use std::alloc::{AllocError, Global};
use std::process::Abort;
use std::sync::{Arc, Wait};
use std::test::Fail;
use std::thread::Threads;
use std::time::Clock;
use worked_runs::logs::log_of_copies;
use worked_runs::playing::{REPORT_OF_1, labels_of};

/// Listens to this log with one reader.
fn listen<R: Threads + Wait + Clock + Copy + Send + 'static>(
    rt: &R,
    alloc: Global,
    log: &[u8],
    failing: Failing,
) -> Result<Ended<LogReader<MemBytes>, MemEmit>, AllocError> {
    let log = Log {
        bytes: log,
        one_by_one: false,
    };
    let datagrams = log_reader(alloc, log, failing)?;
    let emit = sink(alloc, failing)?;
    let mut edge = outside(alloc, datagrams, emit, &[], failing)?;
    let words = labels_of(alloc, &["listen"])?;
    let mut watchers = Vec::new(alloc);
    let gate = Arc::new(alloc, Wide)?;
    let status = run_listen(rt, alloc, words.as_slice(), &mut edge, &mut watchers, &gate);
    Ok(Ended { status, edge })
}

/// A listening to the log of an empty instance leaves this.
fn listens<R: Threads + Wait + Abort + Clock + Copy + Send + 'static>(
    rt: &R,
    alloc: Global,
    failing: Failing,
    left: &Left<'_>,
    row: u32,
) -> Result<(), AllocError> {
    let log = log_of_copies(alloc, 1)?;
    let ended = listen(rt, alloc, log.as_slice(), failing)?;
    leaves(rt, &ended, failing, left, row);
    Ok(())
}

/// The magic, the length, the datagram, and the end.
#[test]
fn the_source(rt: HostRuntime) -> Result<(), Fail> {
    for call in 1..=4u32 {
        let left = Left {
            status: 4,
            text: "",
            shelf: UNTOUCHED,
            made: [u64::from(call), 0, 0, 0, 0],
        };
        listens(&rt, rt.alloc(), fails(Source, call), &left, call)?;
    }
    Ok(())
}

/// `begin` and `finish`; and the report, and the line of the reader behind it.
#[test]
fn shelf_and_text(rt: HostRuntime) -> Result<(), Fail> {
    let begin = Left {
        status: 6,
        text: "",
        shelf: UNTOUCHED,
        made: [4, 0, 0, 1, 0],
    };
    listens(&rt, rt.alloc(), fails(Shelf, 1), &begin, 11)?;
    let finish = Left {
        shelf: (None, 1, 0),
        made: [4, 0, 0, 2, 0],
        ..begin
    };
    listens(&rt, rt.alloc(), fails(Shelf, 2), &finish, 12)?;
    let report = Left {
        status: 5,
        shelf: (Some(1), 1, 0),
        made: [4, 0, 0, 2, 1],
        ..begin
    };
    listens(&rt, rt.alloc(), fails(Text, 1), &report, 13)?;
    let line = Left {
        text: REPORT_OF_1,
        made: [4, 0, 0, 2, 2],
        ..report
    };
    listens(&rt, rt.alloc(), fails(Text, 2), &line, 14)?;
    Ok(())
}
