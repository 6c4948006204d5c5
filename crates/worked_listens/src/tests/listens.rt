//! What `listen` writes, whenever its readers look.

use super::same::same;
use fcast_run::{Wide, run_listen};
use std::alloc::{AllocError, Global};
use std::process::Abort;
use std::sync::{Arc, Wait};
use std::test::Fail;
use std::thread::Threads;
use std::time::Clock;
use worked_runs::logs::log_of_copies;
use worked_runs::playing::{MemEdge, NONE, REPORT_OF_1, edge_of, labels_of};

/// How a run of `listen` ended.
#[derive(Drop)]
struct Listened {
    status: u8,
    edge: MemEdge,
}

/// Runs these words over this log, with a gate that is always open.
fn listen<R: Threads + Wait + Clock + Copy + Send + 'static>(
    rt: &R,
    alloc: Global,
    words: &[&str],
    log: &[u8],
) -> Result<Listened, AllocError> {
    let labels = labels_of(alloc, words)?;
    let mut edge = edge_of(alloc, log, false, NONE)?;
    let mut watchers = Vec::new(alloc);
    let gate = Arc::new(alloc, Wide)?;
    let status = run_listen(
        rt,
        alloc,
        labels.as_slice(),
        &mut edge,
        &mut watchers,
        &gate,
    );
    Ok(Listened { status, edge })
}

/// Words over a log end with this status and this text.
fn ends_with<R: Threads + Wait + Abort + Clock + Copy + Send + 'static>(
    rt: &R,
    alloc: Global,
    words: &[&str],
    log: &[u8],
    wanted: (u8, &str),
    row: u32,
) -> Result<(), AllocError> {
    let listened = listen(rt, alloc, words, log)?;
    let (status, text) = wanted;
    same(rt, &listened.status, &status, row);
    same(rt, &listened.edge.text.written(), &text.as_bytes(), row);
    Ok(())
}

/// The lines of two readers of which each has seen instance 1 or not.
const LINES_OF_TWO: [&str; 4] = [
    "reader 1 saw none last 1\nreader 2 saw none last 1\n",
    "reader 1 saw none last 1\nreader 2 saw 1 last 1\n",
    "reader 1 saw 1 last 1\nreader 2 saw none last 1\n",
    "reader 1 saw 1 last 1\nreader 2 saw 1 last 1\n",
];

/// Whether the text is the report of instance 1 and the lines of two readers.
fn is_of_two(text: &[u8]) -> bool {
    let report = REPORT_OF_1.as_bytes();
    let rest = text.get(report.len()..).unwrap_or(b"");
    for lines in LINES_OF_TWO {
        if rest == lines.as_bytes() {
            return text.get(..report.len()) == Some(report);
        }
    }
    false
}

/// Words over a log have two readers look, and install instance 1.
fn has_two_look<R: Threads + Wait + Abort + Clock + Copy + Send + 'static>(
    rt: &R,
    alloc: Global,
    words: &[&str],
    log: &[u8],
    row: u32,
) -> Result<(), AllocError> {
    let listened = listen(rt, alloc, words, log)?;
    same(rt, &listened.status, &0, row);
    same(rt, &is_of_two(listened.edge.text.written()), &true, row);
    let finished = listened.edge.shelf.finished();
    let number = finished.map(|instance| instance.number());
    same(rt, &number, &Some(1), row);
    Ok(())
}

/// The words that count one datagram of an address.
const COUNTED: [&str; 9] = [
    "listen",
    "--addr",
    "127.0.0.1",
    "--port",
    "4000",
    "--count",
    "1",
    "--readers",
    "2",
];

#[test]
fn two_readers_are_told_what_is_installed(rt: HostRuntime) -> Result<(), Fail> {
    let log = log_of_copies(rt.alloc(), 1)?;
    let words = ["listen", "--readers", "2"];
    has_two_look(&rt, rt.alloc(), &words, log.as_slice(), 1)?;
    // Behind the one datagram that is asked for the list is torn, which nobody sees.
    let mut log = log_of_copies(rt.alloc(), 2)?;
    log.truncate(80);
    has_two_look(&rt, rt.alloc(), &COUNTED, log.as_slice(), 2)?;
    Ok(())
}

/// One reader of nothing, and of a torn log.
#[test]
fn a_reader_has_a_line(rt: HostRuntime) -> Result<(), Fail> {
    let alloc = rt.alloc();
    let nothing = log_of_copies(alloc, 0)?;
    let text = "nothing installed\nreader 1 saw none last none\n";
    ends_with(&rt, alloc, &["listen"], nothing.as_slice(), (2, text), 11)?;
    let mut torn = log_of_copies(alloc, 1)?;
    torn.truncate(40);
    let text = "nothing installed\ntorn at 8\nreader 1 saw none last none\n";
    ends_with(&rt, alloc, &["listen"], torn.as_slice(), (3, text), 12)?;
    Ok(())
}

/// How many lines a text has.
fn lines_of(text: &[u8]) -> usize {
    text.iter().filter(|byte| **byte == b'\n').count()
}

#[test]
fn each_of_sixteen_has_a_line(rt: HostRuntime) -> Result<(), Fail> {
    let log = log_of_copies(rt.alloc(), 0)?;
    let words = ["listen", "--readers", "16"];
    let listened = listen(&rt, rt.alloc(), &words, log.as_slice())?;
    same(&rt, &listened.status, &2, 21);
    same(&rt, &lines_of(listened.edge.text.written()), &17, 22);
    Ok(())
}

/// Words that are no listening.
const OTHER_WORDS: [(u32, &[&str]); 3] = [
    (41, &["replay"]),
    (42, &["listen", "--readers", "17"]),
    (43, &[]),
];

#[test]
fn other_words_are_no_listening(rt: HostRuntime) -> Result<(), Fail> {
    let log = log_of_copies(rt.alloc(), 1)?;
    let usage = "usage: replay, recv, send, dump, drill or listen\n";
    for (row, words) in OTHER_WORDS {
        ends_with(&rt, rt.alloc(), words, log.as_slice(), (1, usage), row)?;
    }
    Ok(())
}
