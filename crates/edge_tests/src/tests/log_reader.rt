//! Logs that are read, however the reads are cut, and wherever a log is torn.

ghost use Rattle.std.specs.Prelude.{◌≤◌, length, All, IfOk};

use super::same::same;
use super::texts::{datagram, text};
use edge_io::{Bytes, Datagrams, LogReader, MemBytes, Next, Place, SureBytes};
use std::alloc::{AllocError, Global};
use std::process::Abort;
use std::test::Fail;

/// The datagrams up to another answer, and that answer.
pub fn drained<B: Bytes>(
    alloc: Global,
    reader: &mut LogReader<B>,
    buffer: &mut [u8],
) -> Result<(Vec<Vec<u8>>, Next), AllocError>
    requires { 65535 ≤ length buffer.old }
{
    let mut datagrams = Vec::new(alloc);
    for _ in 0..100 {
        match reader.next(buffer) {
            Next::Got(count) => datagrams.push(Vec::from_slice(alloc, &buffer[..count])?)?,
            other => return Ok((datagrams, other)),
        }
    }
    Ok((datagrams, Next::Got(0)))
}

/// The lengths of these datagrams.
fn lengths_of(alloc: Global, datagrams: &[Vec<u8>]) -> Result<Vec<usize>, AllocError> {
    let mut lengths = Vec::new(alloc);
    for datagram in datagrams {
        lengths.push(datagram.len())?;
    }
    Ok(lengths)
}

/// Compares the lengths of the datagrams of a text, the answer after them, and the answer after that.
fn compare<B: Bytes + Drop>(
    rt: &impl Abort,
    alloc: Global,
    source: B,
    lengths: &[usize],
    last: (Next, Next),
    row: u32,
) -> Result<(), AllocError> {
    let mut buffer = [0u8; 65_535];
    let mut reader = LogReader::new(source);
    let (datagrams, answer) = drained(alloc, &mut reader, &mut buffer)?;
    let again = reader.next(&mut buffer);
    let found = lengths_of(alloc, datagrams.as_slice())?;
    same(rt, &found.as_slice(), &lengths, row);
    same(rt, &(answer, again), &last, row);
    Ok(())
}

/// Compares those of these bytes, where the answer after them stays.
fn compare_text(
    rt: &impl Abort,
    alloc: Global,
    bytes: &[u8],
    lengths: &[usize],
    last: Next,
    row: u32,
) -> Result<(), AllocError> {
    let source = SureBytes::new(Vec::from_slice(alloc, bytes)?);
    compare(rt, alloc, source, lengths, (last, last), row)
}

#[test]
fn texts_that_are_no_whole_log_are_torn(rt: HostRuntime) -> Result<(), Fail> {
    let alloc = rt.alloc();
    compare_text(&rt, alloc, b"FCASTLG1", &[], Next::End, 1)?;
    compare_text(&rt, alloc, b"", &[], Next::Torn(0), 2)?;
    compare_text(&rt, alloc, b"FCASTLG", &[], Next::Torn(0), 3)?;
    compare_text(&rt, alloc, b"FCASTLG2\x00\x00", &[], Next::Torn(0), 4)?;
    compare_text(&rt, alloc, b"FCASTLG1\x00\x00", &[0], Next::End, 5)?;
    compare_text(&rt, alloc, b"FCASTLG1\x01", &[], Next::Torn(8), 6)?;
    Ok(())
}

#[test]
fn last_item_must_be_whole(rt: HostRuntime) -> Result<(), Fail> {
    let alloc = rt.alloc();
    let mut cut = text(alloc, b"FCASTLG1", b"")?;
    let _last = cut.pop();
    compare_text(&rt, alloc, &cut, &[], Next::Torn(8), 7)?;
    let more = text(alloc, b"FCASTLG1", b"\x00\x3C0123456789")?;
    compare_text(&rt, alloc, &more, &[60], Next::Torn(70), 8)?;
    let after_empty = text(alloc, b"FCASTLG1\x00\x00", b"\x00")?;
    compare_text(&rt, alloc, &after_empty, &[0, 60], Next::Torn(72), 9)?;
    Ok(())
}

/// So many reads of one byte.
fn ones(alloc: Global, count: usize) -> Result<Vec<usize>, AllocError>
    ensures { IfOk result (λ v. All (λ n. 1 ≤ n) v.items) }
{
    vec![in alloc; 1usize; count]
}

/// The log of one datagram, whose reads give one byte each up to so many, and of which one fails.
fn failing(alloc: Global, single: usize, call: u32) -> Result<MemBytes, AllocError> {
    let bytes = text(alloc, b"FCASTLG1", b"")?;
    let fails = Vec::from_slice(alloc, &[call])?;
    Ok(MemBytes::new(bytes, ones(alloc, single)?, fails))
}

/// Reads the one datagram of a log whose reads give one byte each up to so many.
fn read_one(rt: &impl Abort, alloc: Global, single: usize, row: u32) -> Result<(), AllocError> {
    let mut buffer = [0u8; 65_535];
    let mut reader = LogReader::new(failing(alloc, single, 0)?);
    same(rt, &reader.connect(&Place::Log), &Ok(()), row);
    let (datagrams, last) = drained(alloc, &mut reader, &mut buffer)?;
    same(rt, &(datagrams.len(), last), &(1, Next::End), row);
    if let [found] = datagrams.as_slice() {
        same(rt, &found.as_slice(), &datagram().as_slice(), row);
    }
    Ok(())
}

#[test]
fn log_is_read_however_the_reads_are_cut(rt: HostRuntime) -> Result<(), Fail> {
    let alloc = rt.alloc();
    read_one(&rt, alloc, 0, 10)?;
    read_one(&rt, alloc, 71, 11)?;
    Ok(())
}

/// Compares a log whose read of this number fails. Afterwards it is torn at this place.
fn fail(
    rt: &impl Abort,
    alloc: Global,
    (single, call): (usize, u32),
    lengths: &[usize],
    place: u64,
    row: u32,
) -> Result<(), AllocError> {
    let source = failing(alloc, single, call)?;
    compare(
        rt,
        alloc,
        source,
        lengths,
        (Next::Failed, Next::Torn(place)),
        row,
    )
}

/// The magic, the length, the datagram and the end are a read each. After a failure the log is
/// torn where the item begins that was being read.
#[test]
fn failure_of_each_read_is_reported(rt: HostRuntime) -> Result<(), Fail> {
    let alloc = rt.alloc();
    fail(&rt, alloc, (0, 1), &[], 0, 12)?;
    fail(&rt, alloc, (0, 2), &[], 8, 13)?;
    fail(&rt, alloc, (0, 3), &[], 8, 14)?;
    fail(&rt, alloc, (0, 4), &[60], 70, 15)?;
    Ok(())
}

#[test]
fn failure_at_each_byte_is_reported(rt: HostRuntime) -> Result<(), Fail> {
    let alloc = rt.alloc();
    for call in 1..9 {
        fail(&rt, alloc, (71, call), &[], 0, 100 + call)?;
    }
    for call in 9..71 {
        fail(&rt, alloc, (71, call), &[], 8, 100 + call)?;
    }
    fail(&rt, alloc, (71, 71), &[60], 70, 171)?;
    Ok(())
}
