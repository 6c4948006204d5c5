//! Runs that receive.

use super::devices::Device::{self, Shelf, Source, Text};
use super::devices::{Failing, Log, NONE, fails, log_reader, outside, run_words, sink, source};
use super::left::{Held, Left, UNTOUCHED, leaves};
use std::alloc::{AllocError, Global};
use std::process::Abort;
use std::test::Fail;
use worked_runs::logs::{log_of_copies, log_of_packets};
use worked_runs::pieces::Piece::{File, List};
use worked_runs::pieces::{Piece, packets_of};

/// What is left of a file and its descriptor, which is enough for both.
const PIECES: [Piece; 4] = [List(1), List(2), File(1), File(2)];

/// The report of that file.
const REPORT: &str = "instance 1\ndescriptor 2\nfiles 1\nfile 1 2\nlocation a\n";

/// What the shelf holds after the first of its three calls, after the second, and after all.
const BEGUN: Held = (None, 1, 0);

const PUT: Held = (None, 1, 1);

const FINISHED: Held = (Some(1), 1, 1);

/// A run over this log leaves this.
fn plays(
    rt: &impl Abort,
    alloc: Global,
    words: &[&str],
    log: Log<'_>,
    failing: Failing,
    left: &Left<'_>,
    row: u32,
) -> Result<(), AllocError> {
    let datagrams = log_reader(alloc, log, failing)?;
    let emit = sink(alloc, failing)?;
    let edge = outside(alloc, datagrams, emit, &[], failing)?;
    let ended = run_words(alloc, words, edge)?;
    leaves(rt, &ended, failing, left, row);
    Ok(())
}

/// A run over these datagrams leaves this.
fn takes(
    rt: &impl Abort,
    alloc: Global,
    words: &[&str],
    datagrams: &[Vec<u8>],
    failing: Failing,
    left: &Left<'_>,
    row: u32,
) -> Result<(), AllocError> {
    let datagrams = source(alloc, datagrams, failing)?;
    let emit = sink(alloc, failing)?;
    let edge = outside(alloc, datagrams, emit, &[], failing)?;
    let ended = run_words(alloc, words, edge)?;
    leaves(rt, &ended, failing, left, row);
    Ok(())
}

/// What is left where the source fails at its n-th call: nothing but the calls.
fn at_source(call: u32) -> Left<'static> {
    Left {
        status: 4,
        text: "",
        shelf: UNTOUCHED,
        made: [u64::from(call), 0, 0, 0, 0],
    }
}

/// The call that fails behind the source (0 for none), the status, the text, what the shelf holds, and how often shelf
/// and text were called.
type Later = (Device, u32, u8, &'static str, Held, (u64, u64));

/// Where an instance with one file is installed.
const LATER: [Later; 5] = [
    (Shelf, 1, 6, "", UNTOUCHED, (1, 0)),
    (Shelf, 2, 6, "", BEGUN, (2, 0)),
    (Shelf, 3, 6, "", PUT, (3, 0)),
    (Text, 1, 5, "", FINISHED, (3, 1)),
    (Text, 0, 0, REPORT, FINISHED, (3, 1)),
];

/// The call that fails, and what it leaves, where the source was called so often.
fn left_later(later: &Later, calls: u32) -> (Failing, Left<'static>) {
    let (device, call, status, text, shelf, (shelves, texts)) = *later;
    let left = Left {
        status,
        text,
        shelf,
        made: [u64::from(calls), 0, 0, shelves, texts],
    };
    (fails(device, call), left)
}

/// The log of the file, which takes so many reads, with each call of each device failing in turn.
fn fails_over_log(
    rt: &impl Abort,
    alloc: Global,
    log: Log<'_>,
    reads: u32,
    row: u32,
) -> Result<(), AllocError> {
    for call in 1..=reads {
        let failing = fails(Source, call);
        plays(rt, alloc, &["replay"], log, failing, &at_source(call), row)?;
    }
    for later in &LATER {
        let (failing, left) = left_later(later, reads);
        plays(rt, alloc, &["replay"], log, failing, &left, row)?;
    }
    Ok(())
}

#[test]
fn a_log(rt: HostRuntime) -> Result<(), Fail> {
    let packets = packets_of(rt.alloc(), &PIECES)?;
    let log = log_of_packets(rt.alloc(), packets.as_slice())?;
    let whole = Log {
        bytes: log.as_slice(),
        one_by_one: false,
    };
    let single = Log {
        one_by_one: true,
        ..whole
    };
    // The magic, a length and a datagram four times, and the end; or 244 bytes and the end.
    fails_over_log(&rt, rt.alloc(), whole, 10, 1)?;
    fails_over_log(&rt, rt.alloc(), single, 245, 2)?;
    Ok(())
}

/// The log of an empty instance, read byte by byte: its 70 bytes, and the end.
#[test]
fn a_log_of_one_datagram(rt: HostRuntime) -> Result<(), Fail> {
    let log = log_of_copies(rt.alloc(), 1)?;
    let single = Log {
        bytes: log.as_slice(),
        one_by_one: true,
    };
    for call in 1..=71u32 {
        let failing = fails(Source, call);
        plays(
            &rt,
            rt.alloc(),
            &["replay"],
            single,
            failing,
            &at_source(call),
            9,
        )?;
    }
    Ok(())
}

/// The datagrams of the file, which take so many calls, with each call of each device failing in turn.
fn fails_over_datagrams(
    rt: &impl Abort,
    alloc: Global,
    words: &[&str],
    datagrams: &[Vec<u8>],
    calls: u32,
    row: u32,
) -> Result<(), AllocError> {
    for call in 1..=calls {
        let failing = fails(Source, call);
        takes(rt, alloc, words, datagrams, failing, &at_source(call), row)?;
    }
    for later in &LATER {
        let (failing, left) = left_later(later, calls);
        takes(rt, alloc, words, datagrams, failing, &left, row)?;
    }
    Ok(())
}

/// The words that take four datagrams of an address.
const FOUR: [&str; 7] = [
    "recv",
    "--addr",
    "127.0.0.1",
    "--port",
    "4000",
    "--count",
    "4",
];

#[test]
fn datagrams(rt: HostRuntime) -> Result<(), Fail> {
    let packets = packets_of(rt.alloc(), &PIECES)?;
    let packets = packets.as_slice();
    // `connect`, four datagrams and the end, after which a receiver that counts doesn't ask.
    fails_over_datagrams(&rt, rt.alloc(), &["replay"], packets, 6, 3)?;
    fails_over_datagrams(&rt, rt.alloc(), &FOUR, packets, 5, 4)?;
    Ok(())
}

/// A run that isn't read to its end leaves the shelf alone, and the text fails or has the report.
fn cut_short(
    rt: &impl Abort,
    alloc: Global,
    words: &[&str],
    log: &[u8],
    reads: u32,
    wanted: (u8, &str),
    row: u32,
) -> Result<(), AllocError> {
    let log = Log {
        bytes: log,
        one_by_one: false,
    };
    for call in 1..=reads {
        let failing = fails(Source, call);
        plays(rt, alloc, words, log, failing, &at_source(call), row)?;
    }
    let (status, text) = wanted;
    let made = [u64::from(reads), 0, 0, 0, 1];
    let failed = Left {
        status: 5,
        text: "",
        shelf: UNTOUCHED,
        made,
    };
    plays(rt, alloc, words, log, fails(Text, 1), &failed, row)?;
    let left = Left {
        status,
        text,
        ..failed
    };
    plays(rt, alloc, words, log, NONE, &left, row)
}

#[test]
fn a_torn_log_and_a_limit(rt: HostRuntime) -> Result<(), Fail> {
    let alloc = rt.alloc();
    let mut torn = log_of_copies(alloc, 1)?;
    torn.extend_from_slice(&[0, 0x3C, 1, 2, 3, 4, 5, 6, 7, 8, 9, 10])?;
    let wanted = (3, "instance 1\ndescriptor 1\nfiles 0\ntorn at 70\n");
    cut_short(&rt, alloc, &["replay"], torn.as_slice(), 6, wanted, 5)?;
    let two = log_of_copies(alloc, 2)?;
    let words = ["replay", "--most", "1"];
    let wanted = (
        11,
        "instance 1\ndescriptor 1\nfiles 0\ntoo many datagrams\n",
    );
    cut_short(&rt, alloc, &words, two.as_slice(), 5, wanted, 6)?;
    Ok(())
}

/// Words that are no command get the usage line, and touch nothing else.
#[test]
fn the_usage_line(rt: HostRuntime) -> Result<(), Fail> {
    let log = Log {
        bytes: b"",
        one_by_one: false,
    };
    let left = Left {
        status: 1,
        text: "usage: replay, recv, send, dump, drill or listen\n",
        shelf: UNTOUCHED,
        made: [0, 0, 0, 0, 1],
    };
    plays(&rt, rt.alloc(), &[], log, NONE, &left, 7)?;
    let failed = Left {
        status: 5,
        text: "",
        ..left
    };
    plays(&rt, rt.alloc(), &[], log, fails(Text, 1), &failed, 8)?;
    Ok(())
}
