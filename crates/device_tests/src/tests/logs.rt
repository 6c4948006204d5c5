//! Packet logs on readers and writers that are cut short and fail.

ghost use Rattle.std.specs.Prelude.{◌≤◌, length};

use super::devices::{Fault, FaultyWriter, NONE, at, reader, writer};
use super::same::same;
use edge_io::{Bytes, Datagrams, Emit, LogReader, LogWriter, Next, Place, Trouble};
use edge_real::{ReaderBytes, WriterText};
use std::alloc::Global;
use std::io;
use std::io::{BufReader, BufWriter, ErrorKind};
use std::process::Abort;
use std::test::Fail;

/// Compares the first four answers of a log.
fn compare<B: Bytes>(rt: &impl Abort, log: &mut LogReader<B>, wanted: [Next; 4], row: u32) {
    let mut buffer = [0u8; 65_535];
    for answer in wanted {
        same(rt, &log.next(&mut buffer), &answer, row);
    }
}

/// The log of one datagram of two bytes, read byte by byte: each failing read is reported, and
/// only the datagrams before it are given. After it the log counts as torn where the item begins
/// that was being read.
#[test]
fn failed_read_ends_a_log_as_failed(rt: HostRuntime) -> Result<(), Fail> {
    let alloc = rt.alloc();
    let (start, item, end) = (Next::Torn(0), Next::Torn(8), Next::Torn(12));
    for (call, wanted) in [
        (1, [Next::Failed, start, start, start]),
        (8, [Next::Failed, start, start, start]),
        (9, [Next::Failed, item, item, item]),
        (12, [Next::Failed, item, item, item]),
        (13, [Next::Got(2), Next::Failed, end, end]),
    ] {
        let fault = at(call, ErrorKind::IsADirectory);
        let source = reader(alloc, b"FCASTLG1\x00\x02hi", fault)?;
        let mut log = LogReader::new(ReaderBytes::new(source));
        compare(&rt, &mut log, wanted, call);
        same(&rt, &log.source.failures.count, &1, call);
    }
    Ok(())
}

/// A buffer in between changes nothing of what is read.
#[test]
fn log_is_read_in_large_pieces(rt: HostRuntime) -> Result<(), Fail> {
    let alloc = rt.alloc();
    let mut source = reader(alloc, b"FCASTLG1\x00\x02hi\x00\x00\x00\x01o", NONE)?;
    source.size = 64;
    let input = BufReader::with_capacity(alloc, 64, source)?;
    let mut log = LogReader::new(ReaderBytes::new(input));
    let wanted = [Next::Got(2), Next::Got(0), Next::Got(1), Next::End];
    compare(&rt, &mut log, wanted, 14);
    same(&rt, &log.source.reader.get_ref().call, &2, 15);
    Ok(())
}

/// A log on a device through a buffer of so many bytes.
type HeldLog = LogWriter<WriterText<BufWriter<FaultyWriter>>>;

fn held(alloc: Global, capacity: usize, fault: Fault) -> io::Result<HeldLog> {
    let device = writer(alloc, 100, fault);
    let output = BufWriter::with_capacity(alloc, capacity, device)?;
    Ok(LogWriter::new(alloc, WriterText::new(output)))
}

/// Two datagrams go out at `finish`, and not before.
fn finish_two(rt: &impl Abort, log: &mut HeldLog) {
    same(rt, &log.connect(&Place::Log), &Ok(()), 16);
    same(rt, &log.send(b"hi"), &Ok(()), 17);
    same(rt, &log.send(b""), &Ok(()), 18);
    same(rt, &log.sink.writer.get_ref().call, &0, 19);
    same(rt, &log.sink.finish(), &Ok(()), 20);
    let device = log.sink.writer.get_ref();
    let wanted = b"FCASTLG1\x00\x02hi\x00\x00".as_slice();
    same(rt, &device.bytes.as_slice(), &wanted, 21);
    same(rt, &device.flushes, &1, 22);
}

/// A log on a writer goes out in large pieces: nothing before `finish`, and then all.
#[test]
fn log_is_written_in_large_pieces(rt: HostRuntime) -> Result<(), Fail> {
    let mut log = held(rt.alloc(), 64, NONE)?;
    finish_two(&rt, &mut log);
    Ok(())
}

/// How both `send` and `finish` answer.
fn fail(rt: &impl Abort, log: &mut HeldLog, wanted: [Result<(), Trouble>; 3], row: u32) {
    same(rt, &log.connect(&Place::Log), &Ok(()), row);
    same(rt, &log.send(b"hi"), &wanted[0], row);
    same(rt, &log.send(b"hello!"), &wanted[1], row);
    same(rt, &log.sink.finish(), &wanted[2], row);
    same(rt, &log.sink.failures.count, &1, row);
}

/// The second datagram finds no room in the buffer of 16 bytes, so what it holds goes out first.
/// The rest goes out at `finish`, and then the device is flushed.
#[test]
fn failed_write_of_a_log_is_a_failure(rt: HostRuntime) -> Result<(), Fail> {
    let alloc = rt.alloc();
    let failed = Err(Trouble::Failed);
    for (call, wanted) in [
        (1, [Ok(()), failed, Ok(())]),
        (2, [Ok(()), Ok(()), failed]),
        (3, [Ok(()), Ok(()), failed]),
    ] {
        let mut log = held(alloc, 16, at(call, ErrorKind::StorageFull))?;
        fail(&rt, &mut log, wanted, 22 + call);
    }
    Ok(())
}
