//! The forms that choose between a packet log and a UDP address.

ghost use Rattle.std.specs.Prelude.{◌≤◌, length};

use super::same::same;
use super::udp::{listen, local, receive, send};
use edge_io::{Datagrams, Emit, Failed, MemText, Next, Place, SureBytes, Trouble};
use edge_real::{PlacedDatagrams, PlacedEmit, UdpDatagrams, UdpEmit};
use std::alloc::{AllocError, Global};
use std::process::Abort;
use std::test::Fail;

/// A source of the log of a datagram of two bytes and one of three, or of a socket.
type Source = PlacedDatagrams<SureBytes, HostRuntime>;

fn source_of(net: Option<HostRuntime>, alloc: Global) -> Result<Source, AllocError> {
    let log = Vec::from_slice(alloc, b"FCASTLG1\x00\x02hi\x00\x03all")?;
    Ok(PlacedDatagrams::new(SureBytes::new(log), net, None))
}

/// Listens at a port that the system chooses, and reads a datagram that is sent there.
fn pass_datagram(rt: &impl Abort, net: HostRuntime, source: &mut Source, buffer: &mut [u8])
    requires { 65535 ≤ length buffer.old }
{
    same(rt, &source.connect(&local(0)), &Ok(()), 1);
    let mut sink = UdpEmit::new(Some(net), 0);
    let port = source.udp.port().unwrap_or(0);
    same(rt, &sink.connect(&local(port)), &Ok(()), 2);
    send(rt, &mut sink, 7, Ok(()), 3);
    receive(rt, source, buffer, 7, 4);
}

/// The log goes on where a socket was read in between.
#[test]
fn source_is_chosen_by_place(rt: HostRuntime) -> Result<(), Fail> {
    let mut buffer = [0u8; 65_535];
    let mut source = source_of(Some(rt), rt.alloc())?;
    same(&rt, &source.connect(&Place::Log), &Ok(()), 5);
    same(&rt, &source.next(&mut buffer), &Next::Got(2), 6);
    pass_datagram(&rt, rt, &mut source, &mut buffer);
    same(&rt, &source.connect(&Place::Log), &Ok(()), 7);
    same(&rt, &source.udp.port(), &None, 8);
    same(&rt, &source.next(&mut buffer), &Next::Got(3), 9);
    same(&rt, &source.failures, &0, 10);
    Ok(())
}

/// Where the port is in use the log stays the place.
#[test]
fn failed_connect_keeps_the_source(rt: HostRuntime) -> Result<(), Fail> {
    let mut buffer = [0u8; 65_535];
    let mut taken = UdpDatagrams::new(Some(rt), None);
    let port = listen(&rt, &mut taken, 11);
    let mut source = source_of(Some(rt), rt.alloc())?;
    same(&rt, &source.connect(&Place::Log), &Ok(()), 12);
    same(&rt, &source.connect(&local(port)), &Err(Failed), 13);
    same(&rt, &source.failures, &1, 14);
    same(&rt, &source.connected, &Some(Place::Log), 15);
    same(&rt, &source.next(&mut buffer), &Next::Got(2), 16);
    Ok(())
}

/// A sink of a log, of whose writes the one of this number fails, or of a socket.
type Sink = PlacedEmit<MemText, HostRuntime>;

fn sink_of(net: Option<HostRuntime>, alloc: Global, call: u32) -> Result<Sink, AllocError> {
    let text = MemText::new(Vec::new(alloc), Vec::from_slice(alloc, &[call])?);
    Ok(PlacedEmit::new(alloc, text, net, 0))
}

/// Compares what was written of a log, and how many calls failed.
fn compare(rt: &impl Abort, sink: &Sink, written: &[u8], failures: u64, row: u32) {
    same(rt, &sink.log.sink.written(), &written, row);
    same(rt, &sink.failures, &failures, row);
}

/// Nothing of a log is written while the place is an address.
#[test]
fn sink_is_chosen_by_place(rt: HostRuntime) -> Result<(), Fail> {
    let mut buffer = [0u8; 65_535];
    let mut source = UdpDatagrams::new(Some(rt), None);
    let port = listen(&rt, &mut source, 17);
    let mut sink = sink_of(Some(rt), rt.alloc(), 0)?;
    same(&rt, &sink.connect(&local(port)), &Ok(()), 18);
    send(&rt, &mut sink, 7, Ok(()), 19);
    receive(&rt, &mut source, &mut buffer, 7, 20);
    compare(&rt, &sink, b"", 0, 21);

    same(&rt, &sink.connect(&Place::Log), &Ok(()), 22);
    same(&rt, &sink.send(b"hi"), &Ok(()), 23);
    compare(&rt, &sink, b"FCASTLG1\x00\x02hi", 0, 24);
    Ok(())
}

/// Where the magic can't be written the address stays the place.
#[test]
fn failed_connect_keeps_the_sink(rt: HostRuntime) -> Result<(), Fail> {
    let mut buffer = [0u8; 65_535];
    let failed = Err(Trouble::Failed);
    let mut source = UdpDatagrams::new(Some(rt), None);
    let port = listen(&rt, &mut source, 25);
    let mut sink = sink_of(Some(rt), rt.alloc(), 1)?;
    same(&rt, &sink.connect(&local(port)), &Ok(()), 26);
    same(&rt, &sink.connect(&Place::Log), &failed, 27);
    compare(&rt, &sink, b"", 1, 28);
    send(&rt, &mut sink, 7, Ok(()), 29);
    receive(&rt, &mut source, &mut buffer, 7, 30);
    send(&rt, &mut sink, 65_508, failed, 31);
    compare(&rt, &sink, b"", 2, 32);
    Ok(())
}

/// Without a network no address can be connected, and the log goes on.
#[test]
fn no_address_is_connected_without_a_network(rt: HostRuntime) -> Result<(), Fail> {
    let mut buffer = [0u8; 65_535];
    let mut source = source_of(None, rt.alloc())?;
    same(&rt, &source.connect(&local(0)), &Err(Failed), 33);
    same(&rt, &source.next(&mut buffer), &Next::Got(2), 34);
    same(&rt, &(source.connected, source.failures), &(None, 1), 35);
    let mut sink = sink_of(None, rt.alloc(), 0)?;
    same(&rt, &sink.connect(&local(9)), &Err(Trouble::Failed), 36);
    same(&rt, &sink.send(b"hi"), &Ok(()), 37);
    compare(&rt, &sink, b"FCASTLG1\x00\x02hi", 1, 38);
    Ok(())
}
