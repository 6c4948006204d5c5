//! A reader and a writer that are cut short and fail at stated calls.

use super::same::same;
use edge_io::{Bytes, SureBytes};
use edge_real::Failures;
use std::alloc::{AllocError, Global};
use std::io;
use std::io::{ErrorKind, Read, Write};
use std::process::Abort;

/// The calls of a device that fail, counted from 1, and how.
#[derive(Clone, Copy, Drop)]
pub struct Fault {
    pub first: u32,
    pub last: u32,
    pub kind: ErrorKind,
}

impl Fault {
    /// Whether the call of this number fails.
    fn holds(&self, call: u32) -> bool {
        self.first <= call && call <= self.last
    }
}

/// A reader that gives at most `size` bytes a call.
#[derive(Drop)]
pub struct FaultyReader {
    pub source: SureBytes,
    pub size: usize,
    pub fault: Fault,
    pub call: u32,
}

impl Read for FaultyReader {
    fn read(&mut self, out: &mut [u8]) -> io::Result<usize> {
        self.call = self.call.saturating_add(1);
        if self.fault.holds(self.call) {
            return Err(io::Error::from(self.fault.kind));
        }
        let most = out.len().min(self.size);
        match self.source.read(&mut out[..most]) {
            Ok(count) => Ok(count),
            Err(_) => Ok(0),
        }
    }
}

/// A writer that takes at most `size` bytes a call. Its flushes fail as its calls do.
#[derive(Drop)]
pub struct FaultyWriter {
    pub bytes: Vec<u8>,
    pub size: usize,
    pub fault: Fault,
    pub call: u32,
    pub flushes: u32,
}

impl Write for FaultyWriter {
    fn write(&mut self, bytes: &[u8]) -> io::Result<usize> {
        self.call = self.call.saturating_add(1);
        if self.fault.holds(self.call) {
            return Err(io::Error::from(self.fault.kind));
        }
        let most = bytes.len().min(self.size);
        self.bytes.extend_from_slice(&bytes[..most])?;
        Ok(most)
    }

    fn flush(&mut self) -> io::Result<()> {
        self.call = self.call.saturating_add(1);
        if self.fault.holds(self.call) {
            return Err(io::Error::from(self.fault.kind));
        }
        self.flushes = self.flushes.saturating_add(1);
        Ok(())
    }
}

/// No call fails.
pub const NONE: Fault = Fault {
    first: 0,
    last: 0,
    kind: ErrorKind::Other,
};

/// A signal interrupts each call.
pub const ALWAYS: Fault = Fault {
    first: 1,
    last: u32::MAX,
    kind: ErrorKind::Interrupted,
};

/// The call of this number fails in this way.
pub fn at(call: u32, kind: ErrorKind) -> Fault {
    Fault {
        first: call,
        last: call,
        kind,
    }
}

/// A reader of these bytes, one a call.
pub fn reader(alloc: Global, bytes: &[u8], fault: Fault) -> Result<FaultyReader, AllocError> {
    Ok(FaultyReader {
        source: SureBytes::new(Vec::from_slice(alloc, bytes)?),
        size: 1,
        fault,
        call: 0,
    })
}

/// A writer that takes so many bytes a call.
pub fn writer(alloc: Global, size: usize, fault: Fault) -> FaultyWriter {
    FaultyWriter {
        bytes: Vec::new(alloc),
        size,
        fault,
        call: 0,
        flushes: 0,
    }
}

/// Compares how many calls failed, and how the last of them did.
pub fn compare_failures(
    rt: &impl Abort,
    failures: &Failures,
    count: u64,
    last: Option<ErrorKind>,
    row: u32,
) {
    let kind = match &failures.last {
        Some(error) => Some(error.kind()),
        None => None,
    };
    same(rt, &failures.count, &count, row);
    same(rt, &kind, &last, row);
}
