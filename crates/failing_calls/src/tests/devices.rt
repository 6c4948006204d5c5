//! The devices around a run, of which one fails at one call.

ghost use Rattle.std.specs.Prelude.{◌≤◌, All, IfOk};

use edge_io::{
    Calls, Datagrams, Emit, FinishedInstance, LogReader, LogWriter, MemBytes, MemDatagrams,
    MemEmit, MemFiles, MemShelf, MemText, ShelvedFile,
};
use fcast_run::{Edge, run};
use std::alloc::{AllocError, Global};
use watch_list::Watch;
use worked_runs::given::{named, short};
use worked_runs::playing::labels_of;

/// A device whose calls are counted.
#[derive(Clone, Copy, PartialEq, Eq)]
pub enum Device {
    Source,
    Sink,
    Files,
    Shelf,
    Text,
}

/// All of them.
pub const DEVICES: [Device; 5] = [
    Device::Source,
    Device::Sink,
    Device::Files,
    Device::Shelf,
    Device::Text,
];

/// The call of a device that fails, counted from 1. With 0 none does.
#[derive(Clone, Copy)]
pub struct Failing {
    pub device: Device,
    pub call: u32,
}

/// No call fails.
pub const NONE: Failing = Failing {
    device: Device::Source,
    call: 0,
};

/// The call of this number of the device fails.
pub fn fails(device: Device, call: u32) -> Failing {
    Failing { device, call }
}

impl Failing {
    /// The calls of this device that fail.
    pub fn calls_of(&self, alloc: Global, device: Device) -> Result<Vec<u32>, AllocError> {
        if self.device == device {
            Vec::from_slice(alloc, &[self.call])
        } else {
            Ok(Vec::new(alloc))
        }
    }

    /// How many calls of this device fail.
    pub fn count_of(&self, device: Device) -> u64 {
        if self.device == device && self.call > 0 {
            1
        } else {
            0
        }
    }
}

/// A device that shows its calls.
pub trait Counted {
    /// How many calls were made, and how many of them failed.
    fn counts(&self) -> (u64, u64);
}

fn counts_of(calls: &Calls) -> (u64, u64) {
    (calls.made, calls.failed)
}

impl Counted for MemDatagrams {
    fn counts(&self) -> (u64, u64) {
        counts_of(&self.calls)
    }
}

impl Counted for LogReader<MemBytes> {
    fn counts(&self) -> (u64, u64) {
        counts_of(&self.source.calls)
    }
}

impl Counted for MemEmit {
    fn counts(&self) -> (u64, u64) {
        counts_of(&self.calls)
    }
}

impl Counted for LogWriter<MemText> {
    fn counts(&self) -> (u64, u64) {
        counts_of(&self.sink.calls)
    }
}

/// The outside of these runs: where datagrams come from and go to, and files, shelf and text in memory.
pub type Outside<D, E> = Edge<D, E, MemFiles, MemShelf, MemText>;

/// How a run ended.
#[derive(Drop)]
pub struct Ended<D, E> {
    pub status: u8,
    pub edge: Outside<D, E>,
}

impl<D: Counted, E: Counted> Ended<D, E> {
    /// How many calls of this device were made, and how many of them failed.
    pub fn counts(&self, device: Device) -> (u64, u64) {
        match device {
            Device::Source => self.edge.datagrams.counts(),
            Device::Sink => self.edge.emit.counts(),
            Device::Files => counts_of(&self.edge.files.calls),
            Device::Shelf => counts_of(&self.edge.shelf.calls),
            Device::Text => counts_of(&self.edge.text.calls),
        }
    }
}

/// The number of the instance that stands on the shelf before a run.
pub const OLD: u32 = 7;

/// That instance, with one file.
pub fn old_instance(alloc: Global) -> Result<FinishedInstance, AllocError> {
    let mut files = Vec::new(alloc);
    files.push(ShelvedFile::new(3, Vec::from_slice(alloc, b"old")?))?;
    let manifest = Vec::from_slice(alloc, b"instance 7\n")?;
    Ok(FinishedInstance::new(OLD, files, manifest))
}

/// The outside around this source, this sink and these files.
pub fn outside<D: Datagrams + Drop, E: Emit + Drop>(
    alloc: Global,
    datagrams: D,
    emit: E,
    files: &[(&str, &[u8])],
    failing: Failing,
) -> Result<Outside<D, E>, AllocError> {
    let fails = failing.calls_of(alloc, Device::Files)?;
    let files = MemFiles::new(named(alloc, files)?, fails);
    let fails = failing.calls_of(alloc, Device::Shelf)?;
    let shelf = MemShelf::new(alloc, Some(old_instance(alloc)?), fails);
    let fails = failing.calls_of(alloc, Device::Text)?;
    let text = MemText::new(Vec::new(alloc), fails);
    Ok(Edge {
        datagrams,
        emit,
        files,
        shelf,
        text,
    })
}

/// Runs these words.
pub fn run_words<D: Datagrams + Drop, E: Emit + Drop>(
    alloc: Global,
    words: &[&str],
    mut edge: Outside<D, E>,
) -> Result<Ended<D, E>, AllocError> {
    let words = labels_of(alloc, words)?;
    let mut watchers: Vec<Box<dyn Watch>> = Vec::new(alloc);
    let status = run(alloc, words.as_slice(), &mut edge, &mut watchers);
    Ok(Ended { status, edge })
}

/// A log that is read as a whole or byte by byte.
#[derive(Clone, Copy)]
pub struct Log<'a> {
    pub bytes: &'a [u8],
    pub one_by_one: bool,
}

/// The datagrams of the log.
pub fn log_reader(
    alloc: Global,
    log: Log<'_>,
    failing: Failing,
) -> Result<LogReader<MemBytes>, AllocError> {
    let sizes = if log.one_by_one { log.bytes.len() } else { 0 };
    let sizes = ones(alloc, sizes)?;
    let fails = failing.calls_of(alloc, Device::Source)?;
    let bytes = Vec::from_slice(alloc, log.bytes)?;
    Ok(LogReader::new(MemBytes::new(bytes, sizes, fails)))
}

/// So many reads of one byte.
fn ones(alloc: Global, count: usize) -> Result<Vec<usize>, AllocError>
    ensures { IfOk result (λ v. All (λ n. 1 ≤ n) v.items) }
{
    vec![in alloc; 1usize; count]
}

/// A sink in memory.
pub fn sink(alloc: Global, failing: Failing) -> Result<MemEmit, AllocError> {
    let fails = failing.calls_of(alloc, Device::Sink)?;
    Ok(MemEmit::new(Vec::new(alloc), fails))
}

/// These datagrams in memory.
pub fn source(
    alloc: Global,
    datagrams: &[Vec<u8>],
    failing: Failing,
) -> Result<MemDatagrams, AllocError> {
    let fails = failing.calls_of(alloc, Device::Source)?;
    Ok(MemDatagrams::new(short(alloc, datagrams)?, None, fails))
}
