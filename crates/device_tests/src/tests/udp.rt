//! Datagrams over the loopback device, in one process, sent and read one after the other.

ghost use Rattle.std.specs.Prelude.{◌≤◌, length};

use super::devices::compare_failures;
use super::same::same;
use edge_io::{Datagrams, Emit, Failed, Next, Place, Trouble};
use edge_real::{UdpDatagrams, UdpEmit};
use std::io::ErrorKind;
use std::process::Abort;
use std::test::Fail;

/// A failure of the device.
const FAILED: Result<(), Trouble> = Err(Trouble::Failed);

/// A port of this machine.
pub fn local(port: u16) -> Place {
    Place::Udp {
        ip: [127, 0, 0, 1],
        port,
    }
}

/// Has a source listen at a port that the system chooses, and says which.
pub fn listen(rt: &impl Abort, source: &mut UdpDatagrams<HostRuntime>, row: u32) -> u16 {
    same(rt, &source.connect(&local(0)), &Ok(()), row);
    let port = source.port().unwrap_or(0);
    same(rt, &(port > 0), &true, row);
    port
}

/// Sends a datagram of so many bytes, each 0x5A, and compares the answer.
pub fn send<E: Emit>(
    rt: &impl Abort,
    sink: &mut E,
    size: u16,
    wanted: Result<(), Trouble>,
    row: u32,
) {
    let datagram = [0x5Au8; 65_535];
    same(rt, &sink.send(&datagram[..usize::from(size)]), &wanted, row);
}

/// Reads a datagram of so many bytes, the last of which `send` made.
pub fn receive<D: Datagrams>(
    rt: &impl Abort,
    source: &mut D,
    buffer: &mut [u8],
    size: u16,
    row: u32,
)
    requires { 65535 ≤ length buffer.old }
{
    let size = usize::from(size);
    same(rt, &source.next(buffer), &Next::Got(size), row);
    if size > 0 && size <= buffer.len() {
        same(rt, &buffer[size - 1], &0x5A, row);
    }
}

#[test]
fn datagrams_pass_from_socket_to_socket(rt: HostRuntime) -> Result<(), Fail> {
    let mut buffer = [0u8; 65_535];
    let mut source = UdpDatagrams::new(Some(rt), None);
    let port = listen(&rt, &mut source, 1);
    let mut sink = UdpEmit::new(Some(rt), 0);
    same(&rt, &sink.connect(&local(port)), &Ok(()), 2);
    for (size, row) in [(1, 3), (60, 4), (0, 5), (1_400, 6), (65_507, 7)] {
        send(&rt, &mut sink, size, Ok(()), row);
        receive(&rt, &mut source, &mut buffer, size, row);
    }
    same(&rt, &source.failures.count, &0, 8);
    same(&rt, &sink.failures.count, &0, 9);
    Ok(())
}

/// A log is no address, and nothing is sent before a `connect`.
#[test]
fn sink_fails_where_nothing_can_be_sent(rt: HostRuntime) -> Result<(), Fail> {
    let mut sink = UdpEmit::new(Some(rt), 0);
    send(&rt, &mut sink, 2, FAILED, 10);
    same(&rt, &sink.connect(&Place::Log), &FAILED, 11);
    same(&rt, &sink.failures.count, &2, 12);
    same(&rt, &sink.connected, &None, 13);

    same(&rt, &sink.connect(&local(9)), &Ok(()), 14);
    send(&rt, &mut sink, 65_508, FAILED, 15);
    same(&rt, &sink.failures.count, &3, 16);
    same(&rt, &sink.connected, &Some(local(9)), 17);
    Ok(())
}

#[test]
fn port_in_use_is_a_failure(rt: HostRuntime) -> Result<(), Fail> {
    let mut first = UdpDatagrams::new(Some(rt), None);
    let port = listen(&rt, &mut first, 18);
    let mut second = UdpDatagrams::new(Some(rt), None);
    same(&rt, &second.connect(&local(port)), &Err(Failed), 19);
    compare_failures(&rt, &second.failures, 1, Some(ErrorKind::AddrInUse), 20);
    first.close();
    second.failures.last = None;
    same(&rt, &second.connect(&local(port)), &Ok(()), 21);
    compare_failures(&rt, &second.failures, 1, None, 22);
    Ok(())
}

/// A log is no address, and there is no datagram before a `connect`.
#[test]
fn unconnected_source_fails(rt: HostRuntime) -> Result<(), Fail> {
    let mut buffer = [0u8; 65_535];
    let mut source = UdpDatagrams::new(Some(rt), None);
    same(&rt, &source.next(&mut buffer), &Next::Failed, 23);
    same(&rt, &source.connect(&Place::Log), &Err(Failed), 24);
    same(&rt, &source.failures.count, &2, 25);
    same(&rt, &source.connected, &None, 26);
    Ok(())
}

/// Where an end is asked for, it comes a second after the last datagram, and not before the first.
/// A socket that is connected anew waits for its first datagram again.
#[test]
fn silence_is_the_end_where_that_is_asked_for(rt: HostRuntime) -> Result<(), Fail> {
    let mut buffer = [0u8; 65_535];
    let mut source = UdpDatagrams::new(Some(rt), Some(1));
    let port = listen(&rt, &mut source, 27);
    let mut sink = UdpEmit::new(Some(rt), 0);
    same(&rt, &sink.connect(&local(port)), &Ok(()), 28);
    send(&rt, &mut sink, 7, Ok(()), 29);
    receive(&rt, &mut source, &mut buffer, 7, 30);
    same(&rt, &source.next(&mut buffer), &Next::End, 31);
    send(&rt, &mut sink, 60, Ok(()), 32);
    receive(&rt, &mut source, &mut buffer, 60, 33);
    same(&rt, &source.next(&mut buffer), &Next::End, 34);
    same(&rt, &source.failures.count, &0, 35);

    let port = listen(&rt, &mut source, 36);
    same(&rt, &(source.idle, source.heard), &(Some(1), false), 37);
    same(&rt, &sink.connect(&local(port)), &Ok(()), 38);
    send(&rt, &mut sink, 0, Ok(()), 39);
    receive(&rt, &mut source, &mut buffer, 0, 40);
    same(&rt, &source.heard, &true, 41);
    Ok(())
}
