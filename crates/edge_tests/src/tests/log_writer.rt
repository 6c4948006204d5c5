//! What a log writer writes, and when.

ghost use Rattle.std.specs.Prelude.{◌≤◌, length};

use super::log_reader::drained;
use super::same::same;
use super::texts::{datagram, text};
use edge_io::{Emit, LogReader, LogWriter, MemText, Next, Place, SureBytes, Trouble};
use std::alloc::{AllocError, Global};
use std::process::Abort;
use std::test::Fail;

/// A UDP address.
const UDP: Place = Place::Udp {
    ip: [127, 0, 0, 1],
    port: 4001,
};

/// A log writer over a text, of which the write of this number fails.
fn writer(alloc: Global, call: u32) -> Result<LogWriter<MemText>, AllocError> {
    let text = MemText::new(Vec::new(alloc), Vec::from_slice(alloc, &[call])?);
    Ok(LogWriter::new(alloc, text))
}

/// Compares what was written, and how many writes it took.
fn compare(rt: &impl Abort, log: &LogWriter<MemText>, wanted: &[u8], writes: u64, row: u32) {
    same(rt, &log.sink.written(), &wanted, row);
    same(rt, &log.sink.calls.made, &writes, row);
}

/// Connects, and compares the answer and the place that is connected then.
fn connect(
    rt: &impl Abort,
    log: &mut LogWriter<MemText>,
    place: Place,
    wanted: Result<(), Trouble>,
    row: u32,
) {
    same(rt, &log.connect(&place), &wanted, row);
    let connected = if wanted.is_ok() { Some(place) } else { None };
    same(rt, &log.connected, &connected, row);
}

/// Sends, and compares the answer.
fn send(
    rt: &impl Abort,
    log: &mut LogWriter<MemText>,
    datagram: &[u8],
    wanted: Result<(), Trouble>,
    row: u32,
)
    requires { length datagram.now ≤ 65535 }
{
    same(rt, &log.send(datagram), &wanted, row);
}

#[test]
fn first_connect_writes_the_magic(rt: HostRuntime) -> Result<(), Fail> {
    let mut log = writer(rt.alloc(), 0)?;
    compare(&rt, &log, b"", 0, 1);
    connect(&rt, &mut log, UDP, Ok(()), 2);
    compare(&rt, &log, b"FCASTLG1", 1, 3);
    send(&rt, &mut log, b"hi", Ok(()), 4);
    compare(&rt, &log, b"FCASTLG1\x00\x02hi", 2, 5);
    connect(&rt, &mut log, Place::Log, Ok(()), 6);
    compare(&rt, &log, b"FCASTLG1\x00\x02hi", 2, 7);
    send(&rt, &mut log, b"", Ok(()), 8);
    compare(&rt, &log, b"FCASTLG1\x00\x02hi\x00\x00", 3, 9);
    Ok(())
}

#[test]
fn send_before_connect_writes_the_magic_in_front(rt: HostRuntime) -> Result<(), Fail> {
    let mut log = writer(rt.alloc(), 0)?;
    send(&rt, &mut log, b"hi", Ok(()), 10);
    compare(&rt, &log, b"FCASTLG1\x00\x02hi", 1, 11);
    same(&rt, &log.connected, &None, 12);
    connect(&rt, &mut log, Place::Log, Ok(()), 13);
    compare(&rt, &log, b"FCASTLG1\x00\x02hi", 1, 14);
    Ok(())
}

/// A failed write leaves nothing, so that the next one writes the magic.
#[test]
fn failed_write_leaves_the_magic_due(rt: HostRuntime) -> Result<(), Fail> {
    let mut log = writer(rt.alloc(), 1)?;
    connect(&rt, &mut log, Place::Log, Err(Trouble::Failed), 15);
    compare(&rt, &log, b"", 1, 16);
    connect(&rt, &mut log, Place::Log, Ok(()), 17);
    compare(&rt, &log, b"FCASTLG1", 2, 18);

    let mut unconnected = writer(rt.alloc(), 1)?;
    send(&rt, &mut unconnected, b"a", Err(Trouble::Failed), 19);
    compare(&rt, &unconnected, b"", 1, 20);
    send(&rt, &mut unconnected, b"b", Ok(()), 21);
    compare(&rt, &unconnected, b"FCASTLG1\x00\x01b", 2, 22);
    Ok(())
}

#[test]
fn failed_send_adds_nothing(rt: HostRuntime) -> Result<(), Fail> {
    let mut log = writer(rt.alloc(), 3)?;
    connect(&rt, &mut log, Place::Log, Ok(()), 23);
    send(&rt, &mut log, b"a", Ok(()), 24);
    send(&rt, &mut log, b"b", Err(Trouble::Failed), 25);
    send(&rt, &mut log, b"c", Ok(()), 26);
    compare(&rt, &log, b"FCASTLG1\x00\x01a\x00\x01c", 4, 27);
    same(&rt, &log.sink.calls.failed, &1, 28);
    Ok(())
}

/// A datagram of 290 bytes.
const LONG: [u8; 290] = [0x5A; 290];

/// The log of both datagrams.
fn whole_log(alloc: Global) -> Result<Vec<u8>, AllocError> {
    let mut log = text(alloc, b"FCASTLG1", b"\x01\x22")?;
    log.extend_from_slice(&LONG)?;
    Ok(log)
}

/// A log to which both datagrams were sent.
fn sent_both(rt: &impl Abort, alloc: Global) -> Result<LogWriter<MemText>, AllocError> {
    let mut log = writer(alloc, 0)?;
    connect(rt, &mut log, Place::Log, Ok(()), 29);
    send(rt, &mut log, &datagram(), Ok(()), 30);
    send(rt, &mut log, &LONG, Ok(()), 31);
    Ok(log)
}

/// Compares the datagrams of a log with both.
fn compare_both(rt: &impl Abort, datagrams: &[Vec<u8>]) {
    same(rt, &datagrams.len(), &2, 32);
    if let [first, second] = datagrams {
        same(rt, &first.as_slice(), &datagram().as_slice(), 33);
        same(rt, &second.as_slice(), &LONG.as_slice(), 34);
    }
}

#[test]
fn written_log_is_read_back(rt: HostRuntime) -> Result<(), Fail> {
    let alloc = rt.alloc();
    let mut buffer = [0u8; 65_535];
    let log = sent_both(&rt, alloc)?;
    same(&rt, &log.sink.written().len(), &362, 35);
    same(&rt, &log.sink.written(), &whole_log(alloc)?.as_slice(), 36);
    let bytes = Vec::from_slice(alloc, log.sink.written())?;
    let mut reader = LogReader::new(SureBytes::new(bytes));
    let (datagrams, last) = drained(alloc, &mut reader, &mut buffer)?;
    same(&rt, &last, &Next::End, 37);
    compare_both(&rt, datagrams.as_slice());
    Ok(())
}
