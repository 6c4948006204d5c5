//! What `send` sends.

use super::same::same;
use edge_io::Place;
use std::alloc::{AllocError, Global};
use std::process::Abort;
use std::test::Fail;
use worked_runs::logs::{EMPTY_INSTANCE_DATAGRAM, log_of, log_of_packets};
use worked_runs::packets::zeros;
use worked_runs::pieces::{ALL, packets_of};
use worked_runs::sending::{Sent, are_first, send, sent_log};

/// An instance with one file.
const ONE_FILE: (&str, &[u8]) = ("c", b"instance\t1\nfile\tf\ta\n");

/// That file.
const HI: (&str, &[u8]) = ("f", b"hi");

/// The words that send a catalog's file in blocks of two symbols of 25 bytes, with one repair symbol each.
const SMALL: [&str; 9] = [
    "send",
    "--catalog",
    "c",
    "--symbol",
    "25",
    "--block",
    "2",
    "--maxn",
    "3",
];

/// The words that send a catalog.
const PLAIN: [&str; 3] = ["send", "--catalog", "c"];

/// How a send ended: its status, how many datagrams were sent, and its text.
fn ended(sent: &Sent) -> (u8, usize, &[u8]) {
    let count = sent.edge.emit.sent().len();
    (sent.status, count, sent.edge.text.written())
}

/// A run of these words over these files ends so.
fn sends(
    rt: &impl Abort,
    alloc: Global,
    words: &[&str],
    files: &[(&str, &[u8])],
    wanted: (u8, usize, &str),
    row: u32,
) -> Result<(), AllocError> {
    let sent = send(alloc, words, files)?;
    let (status, count, text) = wanted;
    same(rt, &ended(&sent), &(status, count, text.as_bytes()), row);
    Ok(())
}

/// Six datagrams are those of the file and its first descriptor.
fn are_six(rt: &impl Abort, six: Option<&[Vec<u8>]>, once: &[Vec<u8>], row: u32) {
    let alike = match six {
        Some(six) => are_first(six, once),
        None => false,
    };
    same(rt, &alike, &true, row);
}

#[test]
fn a_file_is_sent(rt: HostRuntime) -> Result<(), Fail> {
    let expected = packets_of(rt.alloc(), &ALL)?;
    let sent = send(rt.alloc(), &SMALL, &[ONE_FILE, HI])?;
    same(&rt, &ended(&sent), &(0, 6, b"".as_slice()), 1);
    are_six(&rt, sent.edge.emit.sent().get(0..6), expected.as_slice(), 2);
    Ok(())
}

/// What these words write over these files is this log.
fn writes(
    rt: &impl Abort,
    alloc: Global,
    words: &[&str],
    files: &[(&str, &[u8])],
    expected: &[u8],
    row: u32,
) -> Result<(), AllocError> {
    let log = sent_log(alloc, words, files)?;
    same(rt, &log.as_slice(), &expected, row);
    Ok(())
}

/// The words that send a catalog in symbols of 28 bytes, one a block.
const WHOLE: [&str; 9] = [
    "send",
    "--catalog",
    "c",
    "--symbol",
    "28",
    "--block",
    "1",
    "--maxn",
    "1",
];

#[test]
fn logs_that_are_sent(rt: HostRuntime) -> Result<(), Fail> {
    let alloc = rt.alloc();
    let packets = packets_of(alloc, &ALL)?;
    let of_hi = log_of_packets(alloc, packets.as_slice())?;
    same(&rt, &of_hi.len(), &362, 11);
    writes(&rt, alloc, &SMALL, &[ONE_FILE, HI], of_hi.as_slice(), 12)?;
    // An instance without files.
    let of_empty = log_of(alloc, &[&EMPTY_INSTANCE_DATAGRAM])?;
    let empty: (&str, &[u8]) = ("c", b"instance\t1\n");
    writes(&rt, alloc, &WHOLE, &[empty], of_empty.as_slice(), 13)?;
    // A catalog without instances.
    let nothing: (&str, &[u8]) = ("c", b"# nothing yet\n");
    writes(&rt, alloc, &PLAIN, &[nothing], b"FCASTLG1", 14)?;
    sends(&rt, alloc, &PLAIN, &[("c", b"")], (0, 0, ""), 15)?;
    Ok(())
}

/// The words that send two cycles of a catalog, otherwise as `SMALL`.
const TWO_CYCLES: [&str; 11] = [
    "send",
    "--catalog",
    "c",
    "--symbol",
    "25",
    "--block",
    "2",
    "--maxn",
    "3",
    "--cycles",
    "2",
];

/// Two instances that share a file.
const SHARED: (&str, &[u8]) = ("c", b"instance\t1\nfile\tf\ta\ninstance\t2\nfile\tf\ta\n");

#[test]
fn two_instances_share_a_file(rt: HostRuntime) -> Result<(), Fail> {
    let alloc = rt.alloc();
    // Each cycle of an instance has the three symbols of its descriptor and the three of the file.
    let sent = send(alloc, &TWO_CYCLES, &[SHARED, HI])?;
    same(&rt, &ended(&sent), &(0, 24, b"".as_slice()), 21);
    let once = packets_of(alloc, &ALL)?;
    let datagrams = sent.edge.emit.sent();
    are_six(&rt, datagrams.get(0..6), once.as_slice(), 22);
    are_six(&rt, datagrams.get(6..12), once.as_slice(), 23);
    Ok(())
}

/// Catalogs that are refused, with the line.
const REFUSED: [(u32, &[u8], &str); 4] = [
    (31, b"file\tf\ta\n", "catalog refused: line 1 cause 4\n"),
    (
        32,
        b"instance\t1\n\nfile\tf\n",
        "catalog refused: line 3 cause 2\n",
    ),
    (
        33,
        b"instance\t2\ninstance\t1\n",
        "plan refused: cause 1 at 2\n",
    ),
    // The catalog is looked at as a whole before any file is.
    (
        34,
        b"instance\t2\nfile\tg\tb\ninstance\t2\n",
        "plan refused: cause 1 at 2\n",
    ),
];

/// Words of a block with more source symbols than encoding symbols.
const SMALL_N: [&str; 7] = ["send", "--catalog", "c", "--block", "4", "--maxn", "3"];

#[test]
fn catalogs_are_refused(rt: HostRuntime) -> Result<(), Fail> {
    for (row, catalog, line) in REFUSED {
        sends(
            &rt,
            rt.alloc(),
            &PLAIN,
            &[("c", catalog)],
            (8, 0, line),
            row,
        )?;
    }
    let line = "plan refused: cause 4 at 0\n";
    sends(&rt, rt.alloc(), &SMALL_N, &[ONE_FILE], (8, 0, line), 35)?;
    Ok(())
}

/// A catalog with a file, and another one.
const TWO_FILES: (&str, &[u8]) = ("c", b"instance\t1\nfile\tbig\ta\nfile\tnone\tb\n");

#[test]
fn files_that_are_absent_or_too_large(rt: HostRuntime) -> Result<(), Fail> {
    let alloc = rt.alloc();
    sends(
        &rt,
        alloc,
        &PLAIN,
        &[ONE_FILE],
        (10, 0, "no such file: f\n"),
        41,
    )?;
    sends(&rt, alloc, &PLAIN, &[HI], (10, 0, "no such file: c\n"), 42)?;
    let large = zeros(alloc, 16_777_217)?;
    // The file behind the one that is too large isn't there either.
    let files = [TWO_FILES, ("big", large.as_slice())];
    sends(
        &rt,
        alloc,
        &PLAIN,
        &files,
        (10, 0, "file too large: big\n"),
        43,
    )?;
    let most = large.as_slice().get(..16_777_216).ok_or("most")?;
    let files = [TWO_FILES, ("big", most)];
    sends(
        &rt,
        alloc,
        &PLAIN,
        &files,
        (10, 0, "no such file: none\n"),
        44,
    )?;
    Ok(())
}

/// The words that send a catalog to an address.
const TO_AN_ADDRESS: [&str; 7] = [
    "send",
    "--catalog",
    "c",
    "--addr",
    "127.0.0.1",
    "--port",
    "5000",
];

#[test]
fn the_address_is_connected(rt: HostRuntime) -> Result<(), Fail> {
    let sent = send(rt.alloc(), &TO_AN_ADDRESS, &[ONE_FILE, HI])?;
    same(&rt, &sent.status, &0, 51);
    let address = Place::Udp {
        ip: [127, 0, 0, 1],
        port: 5000,
    };
    same(&rt, &sent.edge.emit.sink.connected, &Some(address), 52);
    Ok(())
}

/// Words that are no send.
const OTHER_WORDS: [(u32, &[&str]); 3] = [
    (61, &["send"]),
    (62, &["send", "--catalog", "c", "--port", "5000"]),
    (63, &["send", "--catalog", "c", "--symbol", "7"]),
];

#[test]
fn other_words_of_send(rt: HostRuntime) -> Result<(), Fail> {
    let usage = "usage: replay, recv, send, dump, drill or listen\n";
    for (row, words) in OTHER_WORDS {
        sends(&rt, rt.alloc(), words, &[ONE_FILE, HI], (1, 0, usage), row)?;
    }
    Ok(())
}
