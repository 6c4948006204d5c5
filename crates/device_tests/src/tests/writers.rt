//! Texts on a writer that is cut short and fails.

use super::devices::{ALWAYS, Fault, FaultyWriter, NONE, at, compare_failures, writer};
use super::same::same;
use edge_io::{SureText, Text, Trouble};
use edge_real::{EchoedText, Tried, WriterText};
use std::alloc::Global;
use std::io;
use std::io::{BufWriter, ErrorKind};
use std::process::Abort;
use std::test::Fail;

/// A failure of the device.
const FAILED: Result<(), Trouble> = Err(Trouble::Failed);

/// Two texts on a device that takes so many bytes a call: how both writes answer, what the device
/// got, how many calls failed, and how the last of them did.
fn compare(
    rt: &impl Abort,
    device: FaultyWriter,
    wanted: [Result<(), Trouble>; 2],
    bytes: &[u8],
    (count, last): (u64, Option<ErrorKind>),
    row: u32,
) {
    let mut text = WriterText::new(device);
    same(rt, &text.write(b"abc"), &wanted[0], row);
    same(rt, &text.write(b"d"), &wanted[1], row);
    compare_failures(rt, &text.failures, count, last, row);
    same(rt, &text.finish(), &Ok(()), row);
    same(rt, &text.writer.bytes.as_slice(), &bytes, row);
}

#[test]
fn short_and_interrupted_writes_go_on(rt: HostRuntime) -> Result<(), Fail> {
    let alloc = rt.alloc();
    let done = [Ok(()), Ok(())];
    let interrupted = at(2, ErrorKind::Interrupted);
    compare(&rt, writer(alloc, 1, NONE), done, b"abcd", (0, None), 1);
    compare(
        &rt,
        writer(alloc, 1, interrupted),
        done,
        b"abcd",
        (0, None),
        2,
    );
    Ok(())
}

/// What a device refuses for want of memory counts as none of its failures. A writer that takes
/// nothing fails.
#[test]
fn failed_write_is_a_failure(rt: HostRuntime) -> Result<(), Fail> {
    let alloc = rt.alloc();
    let once = [FAILED, Ok(())];
    let full = Some(ErrorKind::StorageFull);
    for (call, bytes) in [(1, b"d".as_slice()), (2, b"ad"), (3, b"abd")] {
        let device = writer(alloc, 1, at(call, ErrorKind::StorageFull));
        compare(&rt, device, once, bytes, (1, full), 2 + call);
    }
    let zero = Some(ErrorKind::WriteZero);
    compare(
        &rt,
        writer(alloc, 0, NONE),
        [FAILED, FAILED],
        b"",
        (2, zero),
        6,
    );
    let device = writer(alloc, 1, at(1, ErrorKind::OutOfMemory));
    let memory = [Err(Trouble::Memory), Ok(())];
    compare(&rt, device, memory, b"d", (0, None), 7);
    Ok(())
}

/// A text on a device through a buffer.
type Held = WriterText<BufWriter<Tried<FaultyWriter>>>;

/// Such a text, whose buffer has 64 bytes.
fn held(alloc: Global, fault: Fault) -> io::Result<Held> {
    let device = Tried::new(writer(alloc, 100, fault));
    Ok(WriterText::new(BufWriter::with_capacity(alloc, 64, device)?))
}

/// Three lines go out at `finish`, and not before.
fn finish_three(rt: &impl Abort, text: &mut Held) {
    for _ in 0..3 {
        same(rt, &text.write(b"line\n"), &Ok(()), 8);
    }
    same(rt, &text.writer.get_ref().device.call, &0, 9);
    same(rt, &text.finish(), &Ok(()), 10);
    let device = &text.writer.get_ref().device;
    let wanted = b"line\nline\nline\n".as_slice();
    same(rt, &device.bytes.as_slice(), &wanted, 11);
    same(rt, &device.flushes, &1, 12);
}

#[test]
fn finish_writes_out_what_is_held(rt: HostRuntime) -> Result<(), Fail> {
    let mut text = held(rt.alloc(), NONE)?;
    finish_three(&rt, &mut text);
    Ok(())
}

/// A line, and how `finish` answers.
fn finish_one(rt: &impl Abort, text: &mut Held, done: Result<(), Trouble>, count: u64, row: u32) {
    same(rt, &text.write(b"line\n"), &Ok(()), row);
    same(rt, &text.finish(), &done, row);
    same(rt, &text.failures.count, &count, row);
}

#[test]
fn failed_flush_is_a_failure(rt: HostRuntime) -> Result<(), Fail> {
    let alloc = rt.alloc();
    for (call, kind, done, count, row) in [
        (1, ErrorKind::StorageFull, FAILED, 1, 13),
        (2, ErrorKind::BrokenPipe, FAILED, 1, 14),
        (2, ErrorKind::Interrupted, Ok(()), 0, 15),
        (3, ErrorKind::StorageFull, Ok(()), 0, 16),
    ] {
        let mut text = held(alloc, at(call, kind))?;
        finish_one(&rt, &mut text, done, count, row);
    }
    Ok(())
}

#[test]
fn interrupted_write_is_tried_a_thousand_times(rt: HostRuntime) -> Result<(), Fail> {
    let mut text = held(rt.alloc(), ALWAYS)?;
    finish_one(&rt, &mut text, FAILED, 1, 17);
    same(&rt, &text.writer.get_ref().device.call, &1_000, 18);
    compare_failures(&rt, &text.failures, 1, Some(ErrorKind::Other), 19);
    Ok(())
}

/// Writes a line that is also said to this device, if any, and compares what both got.
fn echo_line(
    rt: &impl Abort,
    alloc: Global,
    echo: Option<FaultyWriter>,
    said: Option<&[u8]>,
    row: u32,
) {
    let mut text = EchoedText::new(SureText::new(Vec::new(alloc)), echo);
    same(rt, &text.write(b"line\n"), &Ok(()), row);
    same(rt, &text.text.written(), &b"line\n".as_slice(), row);
    let found = text.echo.as_ref().map(|echo| echo.bytes.as_slice());
    same(rt, &found, &said, row);
}

/// What is written is said too where there is a second writer, whether or not that one fails.
#[test]
fn echoed_text_says_what_it_writes(rt: HostRuntime) -> Result<(), Fail> {
    let alloc = rt.alloc();
    let sound = writer(alloc, 100, NONE);
    let broken = writer(alloc, 100, at(1, ErrorKind::BrokenPipe));
    echo_line(&rt, alloc, None, None, 20);
    echo_line(&rt, alloc, Some(sound), Some(b"fcast: line\n"), 21);
    echo_line(&rt, alloc, Some(broken), Some(b""), 22);
    Ok(())
}
