//! Runs over forms in memory.
ghost use Rattle.std.specs.Prelude.{◌≤◌, All, IfOk};

use crate::logs::{log_of, log_of_packets};
use edge_io::{LogReader, MemBytes, MemShelf, MemText, ShelvedFile, SureEmit, SureFiles};
use fcast_run::{Edge, run};
use meta_text::Label;
use std::alloc::{AllocError, Global};
use watch_list::{Counter, Watch};

/// The outside in memory, around a packet log.
pub type MemEdge = Edge<LogReader<MemBytes>, SureEmit, SureFiles, MemShelf, MemText>;

/// The calls of each device that are to fail, counted from 1.
#[derive(Clone, Copy)]
pub struct Failing<'a> {
    pub bytes: &'a [u32],
    pub shelf: &'a [u32],
    pub text: &'a [u32],
}

/// No call fails.
pub const NONE: Failing<'static> = Failing {
    bytes: &[],
    shelf: &[],
    text: &[],
};

/// How a run ended.
#[derive(Drop)]
pub struct Ran {
    pub status: u8,
    pub edge: MemEdge,
    /// How many events the watcher that was handed in has heard.
    pub heard: Option<u64>,
}

/// Runs these words over this log, which is read as a whole, or byte by byte.
pub fn play(
    alloc: Global,
    words: &[&str],
    log: &[u8],
    one_by_one: bool,
    failing: Failing<'_>,
) -> Result<Ran, AllocError> {
    let labels = labels_of(alloc, words)?;
    let mut edge = edge_of(alloc, log, one_by_one, failing)?;
    let mut watchers: Vec<Box<dyn Watch>> = Vec::new(alloc);
    watchers.push(Box::new(alloc, Counter::new())?)?;
    let status = run(alloc, labels.as_slice(), &mut edge, &mut watchers);
    let heard = match watchers.as_slice() {
        [watcher] => Some(watcher.tally()),
        _ => None,
    };
    Ok(Ran {
        status,
        edge,
        heard,
    })
}

/// The words, as a run takes them.
pub fn labels_of(alloc: Global, words: &[&str]) -> Result<Vec<Label>, AllocError> {
    let mut labels = Vec::new(alloc);
    for word in words {
        labels.push(Label::new(String::from_str(alloc, word)?))?;
    }
    Ok(labels)
}

/// The outside in memory, around this log.
pub fn edge_of(
    alloc: Global,
    log: &[u8],
    one_by_one: bool,
    failing: Failing<'_>,
) -> Result<MemEdge, AllocError> {
    let bytes = Vec::from_slice(alloc, log)?;
    let sizes = sizes_of(alloc, one_by_one, log.len())?;
    let source = MemBytes::new(bytes, sizes, Vec::from_slice(alloc, failing.bytes)?);
    Ok(Edge {
        datagrams: LogReader::new(source),
        emit: SureEmit::new(alloc),
        files: SureFiles::new(Vec::new(alloc)),
        shelf: MemShelf::new(alloc, None, Vec::from_slice(alloc, failing.shelf)?),
        text: MemText::new(Vec::new(alloc), Vec::from_slice(alloc, failing.text)?),
    })
}

/// The sizes of reads of one byte each, or none for reads without a limit.
fn sizes_of(alloc: Global, one_by_one: bool, count: usize) -> Result<Vec<usize>, AllocError>
    ensures { IfOk result (λ v. All (λ n. 1 ≤ n) v.items) }
{
    let mut sizes = Vec::new(alloc);
    if one_by_one {
        push_ones(&mut sizes, count)?;
    }
    Ok(sizes)
}

fn push_ones(sizes: &mut Vec<usize>, count: usize) -> Result<(), AllocError>
    requires { All (λ n. 1 ≤ n) sizes.old.items }
    ensures { All (λ n. 1 ≤ n) sizes.new.items }
{
    for _read in 0..count {
        sizes.push(1)?;
    }
    Ok(())
}

/// What a run is to come to: its status, the report's first lines, which are the manifest too, and its other lines; the
/// number of the finished instance on the shelf, and its files.
#[derive(Clone, Copy)]
pub struct Outcome<'a> {
    pub status: u8,
    pub best: &'a str,
    pub rest: &'a str,
    pub shelf: Option<(u32, &'a [(u128, &'a [u8])])>,
}

/// The report where nothing is installed.
pub const NOTHING: &str = "nothing installed\n";

/// The report of instance 1 with an empty list, from object 1.
pub const REPORT_OF_1: &str = "instance 1\ndescriptor 1\nfiles 0\n";

/// Nothing is installed, and nothing went wrong.
pub const INSTALLS_NOTHING: Outcome<'static> = Outcome {
    status: 2,
    best: NOTHING,
    rest: "",
    shelf: None,
};

/// Instance 1 with an empty list is installed from object 1.
pub const INSTALLS_1: Outcome<'static> = Outcome {
    status: 0,
    best: REPORT_OF_1,
    rest: "",
    shelf: Some((1, &[])),
};

/// Whether the words over a log of these datagrams come to this.
pub fn comes_to(
    alloc: Global,
    words: &[&str],
    datagrams: &[&[u8]],
    outcome: &Outcome<'_>,
) -> Result<bool, AllocError> {
    let log = log_of(alloc, datagrams)?;
    log_comes_to(alloc, words, log.as_slice(), outcome)
}

/// Whether the words over a log of these packets come to this.
pub fn packets_come_to(
    alloc: Global,
    words: &[&str],
    packets: &[Vec<u8>],
    outcome: &Outcome<'_>,
) -> Result<bool, AllocError> {
    let log = log_of_packets(alloc, packets)?;
    log_comes_to(alloc, words, log.as_slice(), outcome)
}

/// Whether the words over this log come to this.
pub fn log_comes_to(
    alloc: Global,
    words: &[&str],
    log: &[u8],
    outcome: &Outcome<'_>,
) -> Result<bool, AllocError> {
    let ran = play(alloc, words, log, false, NONE)?;
    Ok(is(&ran, outcome))
}

/// Whether the run came to this.
pub fn is(ran: &Ran, outcome: &Outcome<'_>) -> bool {
    ran.status == outcome.status
        && is_report(ran.edge.text.written(), outcome)
        && is_shelf(&ran.edge.shelf, outcome)
}

fn is_report(written: &[u8], outcome: &Outcome<'_>) -> bool {
    let best = outcome.best.as_bytes();
    written.get(..best.len()) == Some(best)
        && written.get(best.len()..) == Some(outcome.rest.as_bytes())
}

fn is_shelf(shelf: &MemShelf, outcome: &Outcome<'_>) -> bool {
    match (shelf.finished(), outcome.shelf) {
        (None, None) => true,
        (Some(finished), Some((number, files))) => {
            finished.number() == number
                && finished.manifest() == outcome.best.as_bytes()
                && are_files(finished.files(), files)
        }
        _ => false,
    }
}

fn are_files(held: &[ShelvedFile], files: &[(u128, &[u8])]) -> bool {
    for (one, (toi, body)) in held.iter().zip(files) {
        if one.toi() != *toi || one.body() != *body {
            return false;
        }
    }
    held.len() == files.len()
}
