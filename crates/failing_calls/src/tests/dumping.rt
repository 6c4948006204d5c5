//! Dumps and drills.

use super::devices::Device::{Source, Text};
use super::devices::{Failing, Log, NONE, fails, log_reader, outside, run_words, sink, source};
use super::left::{Left, UNTOUCHED, leaves};
use std::alloc::{AllocError, Global};
use std::process::Abort;
use std::test::Fail;
use worked_runs::logs::{EMPTY_INSTANCE_DATAGRAM, log_of_copies};
use worked_runs::texts::joined;

/// The line of the empty instance's datagram, but for its place.
const LINE: &str =
    " symbol tsi 1 toi 1 sbn 0 esi 0 length 28 size 28 block 1 maxn 1 bytes 28 close 0 data 03009afa0000001946636173742d4349\n";

/// What is left with this status and text, where source and text were called so often.
fn left(status: u8, text: &str, sources: u64, texts: u64) -> Left<'_> {
    Left {
        status,
        text,
        shelf: UNTOUCHED,
        made: [sources, 0, 0, 0, texts],
    }
}

/// A run over a log leaves this.
fn plays(
    rt: &impl Abort,
    alloc: Global,
    words: &[&str],
    log: &[u8],
    failing: Failing,
    left: &Left<'_>,
    row: u32,
) -> Result<(), AllocError> {
    let log = Log {
        bytes: log,
        one_by_one: false,
    };
    let datagrams = log_reader(alloc, log, failing)?;
    let emit = sink(alloc, failing)?;
    let edge = outside(alloc, datagrams, emit, &[], failing)?;
    let ended = run_words(alloc, words, edge)?;
    leaves(rt, &ended, failing, left, row);
    Ok(())
}

#[test]
fn a_dump_of_one(rt: HostRuntime) -> Result<(), Fail> {
    let alloc = rt.alloc();
    let log = log_of_copies(alloc, 1)?;
    let log = log.as_slice();
    let line = joined(alloc, &["0", LINE])?;
    let line = line.as_str();
    plays(&rt, alloc, &["dump"], log, NONE, &left(0, line, 4, 1), 1)?;
    // The magic, the length and the datagram; and the end, with which the line is out.
    for (call, text) in [(1u32, ""), (2, ""), (3, ""), (4, line)] {
        let wanted = left(4, text, u64::from(call), u64::from(call / 4));
        plays(&rt, alloc, &["dump"], log, fails(Source, call), &wanted, 2)?;
    }
    let wanted = left(5, "", 3, 1);
    plays(&rt, alloc, &["dump"], log, fails(Text, 1), &wanted, 3)?;
    Ok(())
}

/// A whole list has no line of its end, and nothing is written there.
#[test]
fn the_end_of_a_whole_list(rt: HostRuntime) -> Result<(), Fail> {
    let alloc = rt.alloc();
    let none = log_of_copies(alloc, 0)?;
    let none = none.as_slice();
    plays(&rt, alloc, &["dump"], none, NONE, &left(0, "", 2, 0), 4)?;
    Ok(())
}

/// The lines of two datagrams, and of the end of a list that isn't whole.
#[test]
fn a_dump_of_more(rt: HostRuntime) -> Result<(), Fail> {
    let alloc = rt.alloc();
    let mut log = log_of_copies(alloc, 2)?;
    let most = ["dump", "--most", "1"];
    let first = joined(alloc, &["0", LINE])?;
    let first = first.as_str();
    let wanted = left(5, first, 5, 2);
    plays(
        &rt,
        alloc,
        &["dump"],
        log.as_slice(),
        fails(Text, 2),
        &wanted,
        5,
    )?;
    plays(
        &rt,
        alloc,
        &most,
        log.as_slice(),
        fails(Text, 2),
        &wanted,
        6,
    )?;
    log.truncate(80);
    let wanted = left(5, first, 6, 2);
    plays(
        &rt,
        alloc,
        &["dump"],
        log.as_slice(),
        fails(Text, 2),
        &wanted,
        7,
    )?;
    Ok(())
}

/// A dump of the datagram in memory leaves this.
fn takes(
    rt: &impl Abort,
    alloc: Global,
    failing: Failing,
    left: &Left<'_>,
    row: u32,
) -> Result<(), AllocError> {
    let one = Vec::from_slice(alloc, &EMPTY_INSTANCE_DATAGRAM)?;
    let list = vec![in alloc; one]?;
    let datagrams = source(alloc, list.as_slice(), failing)?;
    let emit = sink(alloc, failing)?;
    let edge = outside(alloc, datagrams, emit, &[], failing)?;
    let ended = run_words(alloc, &["dump"], edge)?;
    leaves(rt, &ended, failing, left, row);
    Ok(())
}

/// `connect`, the datagram, and the end.
#[test]
fn a_dump_of_datagrams(rt: HostRuntime) -> Result<(), Fail> {
    let alloc = rt.alloc();
    let line = joined(alloc, &["0", LINE])?;
    let line = line.as_str();
    takes(&rt, alloc, NONE, &left(0, line, 3, 1), 11)?;
    for (call, text, texts) in [(1u32, "", 0u64), (2, "", 0), (3, line, 1)] {
        let wanted = left(4, text, u64::from(call), texts);
        takes(&rt, alloc, fails(Source, call), &wanted, 12)?;
    }
    takes(&rt, alloc, fails(Text, 1), &left(5, "", 2, 1), 13)?;
    Ok(())
}

/// A drill touches the text alone.
#[test]
fn a_drill(rt: HostRuntime) -> Result<(), Fail> {
    let words = ["drill", "--start", "0"];
    let wanted = left(5, "", 0, 1);
    plays(&rt, rt.alloc(), &words, b"", fails(Text, 1), &wanted, 21)?;
    Ok(())
}
