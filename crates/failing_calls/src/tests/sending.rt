//! Runs that send.

use super::devices::Device::{Files, Sink, Text};
use super::devices::{Ended, Failing, Log, NONE, fails, log_reader, outside, run_words, sink};
use super::left::{Left, UNTOUCHED, leaves};
use super::same::same;
use edge_io::{LogReader, LogWriter, MemBytes, MemEmit, MemText};
use std::alloc::{AllocError, Global};
use std::process::Abort;
use std::test::Fail;
use worked_runs::logs::log_of_packets;
use worked_runs::pieces::{ALL, packets_of};
use worked_runs::sending::are_first;

/// An instance with one file.
pub const CATALOG: (&str, &[u8]) = ("c", b"instance\t1\nfile\tf\ta\n");

/// That file.
pub const HI: (&str, &[u8]) = ("f", b"hi");

/// The words that send it in blocks of two symbols of 25 bytes, with one repair symbol each.
pub const SEND: [&str; 9] = [
    "send",
    "--catalog",
    "c",
    "--symbol",
    "25",
    "--block",
    "2",
    "--maxn",
    "3",
];

/// There is nothing to receive.
const NO_LOG: Log<'static> = Log {
    bytes: b"",
    one_by_one: false,
};

/// What a send leaves with this status and line, where files, sink and text were called so often.
fn left(status: u8, text: &str, files: u64, sinks: u64, texts: u64) -> Left<'_> {
    Left {
        status,
        text,
        shelf: UNTOUCHED,
        made: [0, sinks, files, 0, texts],
    }
}

/// A send to a sink in memory.
fn send(
    alloc: Global,
    files: &[(&str, &[u8])],
    words: &[&str],
    failing: Failing,
) -> Result<Ended<LogReader<MemBytes>, MemEmit>, AllocError> {
    let datagrams = log_reader(alloc, NO_LOG, failing)?;
    let emit = sink(alloc, failing)?;
    let edge = outside(alloc, datagrams, emit, files, failing)?;
    run_words(alloc, words, edge)
}

/// The file is sent, which leaves this, and the first datagrams, so many.
fn sends(
    rt: &impl Abort,
    alloc: Global,
    failing: Failing,
    wanted: &Left<'_>,
    count: usize,
    row: u32,
) -> Result<(), AllocError> {
    let ended = send(alloc, &[CATALOG, HI], &SEND, failing)?;
    leaves(rt, &ended, failing, wanted, row);
    let all = packets_of(alloc, &ALL)?;
    let sent = ended.edge.emit.sent();
    same(rt, &sent.len(), &count, row);
    same(rt, &are_first(sent, all.as_slice()), &true, row);
    let connected = ended.edge.emit.sink.connected.is_some();
    same(rt, &connected, &(wanted.made[1] > 1), row);
    Ok(())
}

#[test]
fn files_and_sink(rt: HostRuntime) -> Result<(), Fail> {
    let alloc = rt.alloc();
    sends(&rt, alloc, NONE, &left(0, "", 2, 7, 0), 6, 1)?;
    // The catalog, and the file. The sink isn't even connected.
    for call in [1u32, 2] {
        let wanted = left(12, "", u64::from(call), 0, 0);
        sends(&rt, alloc, fails(Files, call), &wanted, 0, 2)?;
    }
    // `connect`, and six datagrams.
    for call in 1..=7u32 {
        let wanted = left(5, "", 2, u64::from(call), 0);
        let count = call.saturating_sub(2) as usize;
        sends(&rt, alloc, fails(Sink, call), &wanted, count, 3)?;
    }
    Ok(())
}

/// The file is sent as a log, of which the first bytes, so many, are written.
fn writes(
    rt: &impl Abort,
    alloc: Global,
    failing: Failing,
    wanted: &Left<'_>,
    length: usize,
    row: u32,
) -> Result<(), AllocError> {
    let log = MemText::new(Vec::new(alloc), failing.calls_of(alloc, Sink)?);
    let datagrams = log_reader(alloc, NO_LOG, failing)?;
    let emit = LogWriter::new(alloc, log);
    let edge = outside(alloc, datagrams, emit, &[CATALOG, HI], failing)?;
    let ended = run_words(alloc, &SEND, edge)?;
    leaves(rt, &ended, failing, wanted, row);
    let packets = packets_of(alloc, &ALL)?;
    let whole = log_of_packets(alloc, packets.as_slice())?;
    let written = ended.edge.emit.sink.written();
    let first = whole.as_slice().get(..length);
    same(rt, &Some(written), &first, row);
    Ok(())
}

/// Where the writes of a log end: that of the magic, and that of each of six items of 59 bytes.
const WRITTEN: [usize; 8] = [0, 8, 67, 126, 185, 244, 303, 362];

#[test]
fn a_log(rt: HostRuntime) -> Result<(), Fail> {
    let alloc = rt.alloc();
    writes(&rt, alloc, NONE, &left(0, "", 2, 7, 0), 362, 11)?;
    for (call, length) in (1..=7u32).zip(WRITTEN) {
        let wanted = left(5, "", 2, u64::from(call), 0);
        writes(&rt, alloc, fails(Sink, call), &wanted, length, 12)?;
    }
    Ok(())
}

/// A send that is refused: the row, the catalog, the status, the line, and how many files are read.
type Refused = (u32, &'static [u8], u8, &'static str, u64);

const REFUSED: [Refused; 4] = [
    (
        21,
        b"file\tf\ta\n",
        8,
        "catalog refused: line 1 cause 4\n",
        1,
    ),
    (
        22,
        b"instance\t2\ninstance\t1\n",
        8,
        "plan refused: cause 1 at 2\n",
        1,
    ),
    (23, b"instance\t1\nfile\tg\tb\n", 10, "no such file: g\n", 2),
    (
        24,
        b"instance\t1\nfile\tf \ta\n",
        8,
        "catalog refused: line 2 cause 5\n",
        1,
    ),
];

/// The line of a refusal, or a text that fails at it. The sink isn't even connected.
fn refuses(rt: &impl Abort, alloc: Global, refused: &Refused) -> Result<(), AllocError> {
    let (row, catalog, status, line, files) = *refused;
    let ended = send(alloc, &[("c", catalog), HI], &SEND, NONE)?;
    leaves(rt, &ended, NONE, &left(status, line, files, 0, 1), row);
    let failing = fails(Text, 1);
    let ended = send(alloc, &[("c", catalog), HI], &SEND, failing)?;
    leaves(rt, &ended, failing, &left(5, "", files, 0, 1), row);
    Ok(())
}

#[test]
fn lines_of_refusals(rt: HostRuntime) -> Result<(), Fail> {
    for refused in &REFUSED {
        refuses(&rt, rt.alloc(), refused)?;
    }
    Ok(())
}
