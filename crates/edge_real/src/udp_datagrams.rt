//! The datagrams that come to a UDP socket.

ghost use Rattle.std.specs.Prelude.{◌≡◌, ◌≢◌, ◌≤◌, [], Option, Some, None, false, length, IfOk, OnOk, OnErr, IsErr};
ghost use Rattle.edge_io.specs.Faults.{Rose, one_more};
ghost use Rattle.edge_io.specs.Nexts.{IsWithin};

use crate::Failures;
use crate::tries::{TRIES, interrupted_each_time};
use edge_io::{Datagrams, Failed, Next, Place};
use std::io;
use std::io::ErrorKind;
use std::net::{Ipv4Addr, Net, UdpSocket};
use std::os::fd::AsRawFd;
use std::time::Duration;

/// The receive buffer that is asked for, in bytes: 4 MiB. The system's own holds 92 datagrams of
/// 1,060 bytes.
const ROOM: i32 = 4_194_304;

/// The datagrams that come to a UDP socket. Nothing is told of them. They end where none came for
/// `idle` seconds after the last of them, or where `idle` is `None` never.
///
/// `connect` binds a socket to the address, and asks the system for a receive buffer of 4 MiB. A
/// packet log is no address, so that it fails there, and so it does without a network. `next` waits until a datagram comes, for the
/// first as long as it takes, and fails where no socket is bound. An empty datagram is one of 0
/// bytes. Over IPv4 a datagram has at most 65,507 bytes, so each fits the buffer; of one that
/// doesn't the system would drop the rest.
#[derive(Drop)]
pub struct UdpDatagrams<N: Net + Drop> {
    /// What opens sockets, where anything does.
    pub net: Option<N>,
    /// The socket that is bound.
    socket: Option<UdpSocket>,
    /// How many seconds without a datagram are their end.
    pub idle: Option<u32>,
    /// A datagram has come to this socket.
    pub heard: bool,
    /// The place of the last `connect` that answered `Ok`.
    pub connected: Option<Place>,
    /// The calls that failed.
    pub failures: Failures,
}

impl<N: Net + Drop> UdpDatagrams<N> {
    /// No socket is bound yet. So many seconds without a datagram will be their end.
    pub fn new(net: Option<N>, idle: Option<u32>) -> UdpDatagrams<N>
        ensures net { result.net ≡ net }
        ensures idle { result.idle ≡ idle }
        ensures heard { result.heard ≡ false }
        ensures connected { result.connected ≡ None }
        ensures failures { result.failures.count ≡ 0 }
    {
        UdpDatagrams {
            net,
            socket: None,
            idle,
            heard: false,
            connected: None,
            failures: Failures::none(),
        }
    }

    /// The port that the socket is bound to, where there is one. The system chose it where the
    /// place's port is 0.
    pub fn port(&self) -> Option<u16> {
        match &self.socket {
            Some(socket) => Some(socket.local_addr().ok()?.port()),
            None => None,
        }
    }

    /// Closes the socket, where there is one. What waits in it is lost.
    pub fn close(&mut self)
        ensures net { self.new.net ≡ self.old.net }
        ensures idle { self.new.idle ≡ self.old.idle }
        ensures heard { self.new.heard ≡ false }
        ensures connected { self.new.connected ≡ None }
        ensures failures { self.new.failures ≡ self.old.failures }
    {
        self.socket = None;
        self.heard = false;
        self.connected = None;
    }

    /// Whether this error of a read is the end: the socket waited for as long as it was asked to.
    fn is_end(&self, error: &io::Error) -> bool
        ensures heard { self.now.heard ≡ false → result ≡ false }
        ensures idle { self.now.idle ≡ None → result ≡ false }
    {
        match self.idle {
            Some(_) => self.heard && error.kind() == ErrorKind::WouldBlock,
            None => false,
        }
    }
}

impl<N: Net + Drop> Datagrams for UdpDatagrams<N> {
    ghost told = { λ _. ⊥ };

    ghost left = { λ _. [] };

    ghost torn = { λ _. None };

    ghost connected = { λ s. s.connected };

    ghost faults = { λ s. s.failures.count };

    /// The socket of an earlier `connect` is closed where this one answers `Ok`, and stays where it
    /// fails. A port that this or another program has already is a failure.
    fn connect(&mut self, place: &Place) -> Result<(), Failed>
        ensures net { self.new.net ≡ self.old.net }
        ensures unreached { self.old.net ≡ None → IsErr result }
        ensures idle { self.new.idle ≡ self.old.idle }
        ensures unheard { OnOk result (self.new.heard ≡ false) }
        ensures ok { OnOk result (self.new.connected ≡ Some place.now) }
        ensures err { OnErr result (self.new.connected ≡ self.old.connected) }
        ensures fault { IsErr result → self.new.failures.count ≡ one_more self.old.failures.count }
        ensures quiet { OnOk result (self.new.failures.count ≡ self.old.failures.count) }
        ensures rose { IsErr result → Rose self.old.failures.count self.new.failures.count }
        ensures grows { self.old.failures.count ≤ self.new.failures.count }
    {
        match listen(&self.net, place) {
            Ok(socket) => {
                self.socket = Some(socket);
                self.heard = false;
                self.connected = Some(*place);
                Ok(())
            }
            Err(error) => {
                self.failures.add(error);
                Err(Failed)
            }
        }
    }

    /// A read that a signal interrupts is tried again, up to 1,000 times, and the time without a
    /// datagram begins anew.
    fn next(&mut self, buffer: &mut [u8]) -> Next
        requires { 65535 ≤ length buffer.old }
        ensures net { self.new.net ≡ self.old.net }
        ensures idle { self.new.idle ≡ self.old.idle }
        ensures endless { self.old.idle ≡ None → result ≢ Next.End }
        ensures first { self.old.heard ≡ false → result ≢ Next.End }
        ensures within { IsWithin result buffer.new }
        ensures place { self.new.connected ≡ self.old.connected }
        ensures fault { result ≡ Next.Failed → self.new.failures.count ≡ one_more self.old.failures.count }
        ensures quiet { result ≢ Next.Failed → self.new.failures.count ≡ self.old.failures.count }
        ensures rose { result ≡ Next.Failed → Rose self.old.failures.count self.new.failures.count }
        ensures grows { self.old.failures.count ≤ self.new.failures.count }
    {
        let limit = if self.heard { None } else { self.idle };
        match receive(&self.socket, limit, buffer) {
            Ok(count) => {
                self.heard = true;
                Next::Got(count)
            }
            Err(error) if self.is_end(&error) => Next::End,
            Err(error) => {
                self.failures.add(error);
                Next::Failed
            }
        }
    }
}

/// A socket that is bound to the address.
fn listen<N: Net>(net: &Option<N>, place: &Place) -> io::Result<UdpSocket>
    ensures unreached { net.now ≡ None → IsErr result }
{
    let Place::Udp { ip, port } = *place else {
        return Err(io::Error::from(ErrorKind::InvalidInput));
    };
    let Some(net) = net else {
        return Err(io::Error::from(ErrorKind::Unsupported));
    };
    let socket = UdpSocket::bind(net, (Ipv4Addr::from(ip), port))?;
    ask_room(&socket);
    Ok(socket)
}

/// Asks for a larger receive buffer. The system gives what it allows, so that a refusal is no
/// failure.
fn ask_room(socket: &UdpSocket) {
    let mut value = [0u8; 16];
    value[..4].copy_from_slice(&ROOM.to_ne_bytes());
    let descriptor = socket.as_raw_fd();
    let _status = unsafe {
        libc::net::setsockopt(
            descriptor,
            libc::net::SOL_SOCKET,
            libc::net::SO_RCVBUF,
            &value,
            4,
        )
    };
}

/// One datagram. Where a limit is given, the socket waits at most so many seconds for the next one.
fn receive(socket: &Option<UdpSocket>, limit: Option<u32>, buffer: &mut [u8]) -> io::Result<usize>
    ensures within { IfOk result (λ n. n ≤ length buffer.new) }
{
    let Some(socket) = socket else {
        return Err(io::Error::from(ErrorKind::NotConnected));
    };
    let count = receive_whole(socket, buffer)?;
    if let Some(seconds) = limit {
        socket.set_read_timeout(Some(Duration::from_secs(u64::from(seconds))))?;
    }
    Ok(count)
}

/// One datagram, by a read that no signal interrupted.
fn receive_whole(socket: &UdpSocket, buffer: &mut [u8]) -> io::Result<usize>
    ensures within { IfOk result (λ n. n ≤ length buffer.new) }
{
    for _ in 0..TRIES {
        match socket.recv(buffer) {
            Err(error) if error.kind() == ErrorKind::Interrupted => {}
            done => return done,
        }
    }
    Err(interrupted_each_time())
}
