//! Calls for which there is no memory.

use super::devices::Device::{self, Files, Shelf, Sink, Text};
use super::devices::{Failing, NONE, OLD, fails, old_instance};
use super::left::Held;
use super::same::same;
use super::sending::{CATALOG, HI, SEND};
use super::wanting::{WantingEmit, WantingFiles, WantingShelf, WantingText, WantingWatcher};
use edge_io::{Calls, LogReader, SureBytes, SureEmit, SureFiles, SureShelf, SureText};
use fcast_run::{Edge, run};
use std::alloc::{AllocError, Global};
use std::process::Abort;
use std::test::Fail;
use watch_list::{Diary, Watch};
use worked_runs::given::named;
use worked_runs::logs::{log_of_copies, log_of_packets};
use worked_runs::pieces::Piece::{File, List};
use worked_runs::pieces::{ALL, packets_of};
use worked_runs::playing::labels_of;
use worked_runs::sending::are_first;

/// The outside, which has no memory at one call.
type Outside = Edge<LogReader<SureBytes>, WantingEmit, WantingFiles, WantingShelf, WantingText>;

/// The calls of this device, of which one may have no memory.
fn calls(alloc: Global, wanting: Failing, device: Device) -> Result<Calls, AllocError> {
    Ok(Calls::new(wanting.calls_of(alloc, device)?))
}

/// The outside around this log and these files.
fn outside(
    alloc: Global,
    log: &[u8],
    files: &[(&str, &[u8])],
    wanting: Failing,
) -> Result<Outside, AllocError> {
    Ok(Edge {
        datagrams: LogReader::new(SureBytes::new(Vec::from_slice(alloc, log)?)),
        emit: WantingEmit {
            sink: SureEmit::new(alloc),
            calls: calls(alloc, wanting, Sink)?,
        },
        files: WantingFiles {
            files: SureFiles::new(named(alloc, files)?),
            calls: calls(alloc, wanting, Files)?,
        },
        shelf: WantingShelf {
            shelf: SureShelf::new(alloc, Some(old_instance(alloc)?)),
            calls: calls(alloc, wanting, Shelf)?,
        },
        text: WantingText {
            text: SureText::new(Vec::new(alloc)),
            calls: calls(alloc, wanting, Text)?,
        },
    })
}

/// Runs these words, and answers the status.
fn run_words(alloc: Global, words: &[&str], edge: &mut Outside) -> Result<u8, AllocError> {
    let words = labels_of(alloc, words)?;
    let mut watchers: Vec<Box<dyn Watch>> = Vec::new(alloc);
    Ok(run(alloc, words.as_slice(), edge, &mut watchers))
}

/// What the shelf holds.
fn held(shelf: &SureShelf) -> Held {
    let finished = shelf.finished().map(|instance| instance.number());
    (finished, shelf.number, shelf.files.len())
}

/// The log of a file and its descriptor, which leaves the shelf so where there is no memory at this call. Nothing is
/// written.
fn replays(
    rt: &impl Abort,
    alloc: Global,
    wanting: Failing,
    shelf: Held,
    row: u32,
) -> Result<(), AllocError> {
    let packets = packets_of(alloc, &[List(1), List(2), File(1), File(2)])?;
    let log = log_of_packets(alloc, packets.as_slice())?;
    let mut edge = outside(alloc, log.as_slice(), &[], wanting)?;
    same(rt, &run_words(alloc, &["replay"], &mut edge)?, &9, row);
    same(rt, &held(&edge.shelf.shelf), &shelf, row);
    same(rt, &edge.text.text.written(), &b"".as_slice(), row);
    Ok(())
}

/// `begin`, `put` and `finish`, and the report: as where they fail.
#[test]
fn shelf_and_report(rt: HostRuntime) -> Result<(), Fail> {
    let alloc = rt.alloc();
    replays(&rt, alloc, fails(Shelf, 1), (Some(OLD), 0, 0), 1)?;
    replays(&rt, alloc, fails(Shelf, 2), (None, 1, 0), 2)?;
    replays(&rt, alloc, fails(Shelf, 3), (None, 1, 1), 3)?;
    replays(&rt, alloc, fails(Text, 1), (Some(1), 1, 1), 4)?;
    Ok(())
}

/// A send that has no memory at this call sends the first datagrams, so many.
fn sends(
    rt: &impl Abort,
    alloc: Global,
    wanting: Failing,
    count: usize,
    row: u32,
) -> Result<(), AllocError> {
    let mut edge = outside(alloc, b"", &[CATALOG, HI], wanting)?;
    same(rt, &run_words(alloc, &SEND, &mut edge)?, &9, row);
    let all = packets_of(alloc, &ALL)?;
    let sent = edge.emit.sink.sent.as_slice();
    same(rt, &sent.len(), &count, row);
    same(rt, &are_first(sent, all.as_slice()), &true, row);
    Ok(())
}

#[test]
fn files_and_sink(rt: HostRuntime) -> Result<(), Fail> {
    let alloc = rt.alloc();
    sends(&rt, alloc, fails(Files, 1), 0, 11)?;
    sends(&rt, alloc, fails(Files, 2), 0, 12)?;
    for call in 1..=7u32 {
        let count = call.saturating_sub(2) as usize;
        sends(&rt, alloc, fails(Sink, call), count, 13)?;
    }
    Ok(())
}

/// A line of these words for which there is no memory: the text has what stands before it, so many lines.
fn lines(
    rt: &impl Abort,
    alloc: Global,
    words: &[&str],
    call: u32,
    count: usize,
    row: u32,
) -> Result<(), AllocError> {
    let log = log_of_copies(alloc, 2)?;
    let mut edge = outside(alloc, log.as_slice(), &[], fails(Text, call))?;
    same(rt, &run_words(alloc, words, &mut edge)?, &9, row);
    let written = edge.text.text.written();
    let found = written.iter().filter(|byte| **byte == b'\n').count();
    same(rt, &found, &count, row);
    Ok(())
}

#[test]
fn lines_of_other_commands(rt: HostRuntime) -> Result<(), Fail> {
    let alloc = rt.alloc();
    lines(&rt, alloc, &["dump"], 1, 0, 21)?;
    lines(&rt, alloc, &["dump"], 2, 1, 22)?;
    lines(&rt, alloc, &["dump", "--most", "1"], 2, 1, 23)?;
    lines(&rt, alloc, &["drill", "--start", "0"], 1, 0, 24)?;
    lines(&rt, alloc, &[], 1, 0, 25)?;
    lines(&rt, alloc, &["send", "--catalog", "c"], 1, 0, 26)?;
    lines(&rt, alloc, &["replay", "--most", "1"], 1, 0, 27)?;
    Ok(())
}

/// A watcher that has no memory at this event is dropped, and the next one hears all.
fn drops_a_watcher(
    rt: &impl Abort,
    alloc: Global,
    log: &[u8],
    call: u32,
) -> Result<(), AllocError> {
    let words = labels_of(alloc, &["replay"])?;
    let mut edge = outside(alloc, log, &[], NONE)?;
    let mut watchers: Vec<Box<dyn Watch>> = Vec::new(alloc);
    let wanting = WantingWatcher::new(Vec::from_slice(alloc, &[call])?);
    watchers.push(Box::new(alloc, wanting)?)?;
    watchers.push(Box::new(alloc, Diary::new(Vec::new(alloc)))?)?;
    let status = run(alloc, words.as_slice(), &mut edge, &mut watchers);
    same(rt, &(status, watchers.len()), &(0, 1), call);
    let tally = watchers.as_slice().first().map(|watcher| watcher.tally());
    same(rt, &tally, &Some(3), call);
    Ok(())
}

#[test]
fn a_watcher(rt: HostRuntime) -> Result<(), Fail> {
    let log = log_of_copies(rt.alloc(), 2)?;
    for call in [1u32, 2, 3] {
        drops_a_watcher(&rt, rt.alloc(), log.as_slice(), call)?;
    }
    Ok(())
}
