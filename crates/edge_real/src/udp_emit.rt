//! Datagrams sent by a UDP socket, at a rate.

ghost use Rattle.std.specs.Prelude.{◌≡◌, ◌≤◌, [], Option, Some, None, length, OnOk, OnErr, IsErr, IsErrOf};
ghost use Rattle.edge_io.specs.Faults.{Rose, one_more};

use crate::Failures;
use crate::pace::Pace;
use crate::tries::{TRIES, interrupted_each_time};
use edge_io::{Emit, Place, Trouble};
use std::io::ErrorKind;
use std::net::{Ipv4Addr, Net, UdpSocket};
use std::time::{Clock, Duration, Instant};
use std::{io, thread};

/// The rate that a sender keeps to where none is asked for, in bytes a second.
pub const DEFAULT_RATE: u64 = 12_500_000;

/// A sink of datagrams that sends them to a UDP address, at a rate: receivers have no way back, and
/// a sender at full speed overruns their buffers. Nothing is told of it.
///
/// `connect` takes a socket, whose port the system chooses. A packet log is no address, so that it
/// fails there, and so it does without a network. `send` sleeps where the sender is half a millisecond ahead of its rate, and then
/// hands the datagram to the system; whether it arrives nobody knows. A datagram counts as 512
/// bytes at least. After a pause or a late wake, up to 10 ms of the rate go out at once.
#[derive(Drop)]
pub struct UdpEmit<N: Net + Clock + Drop> {
    /// What opens sockets and has the time, where anything does.
    pub net: Option<N>,
    /// Bytes a second, or 0 for no limit.
    pub rate: u64,
    /// The way to the place.
    line: Option<Line>,
    /// The place of the last `connect` that answered `Ok`.
    pub connected: Option<Place>,
    /// The calls that failed.
    pub failures: Failures,
}

/// The way to a place.
#[derive(Drop)]
struct Line {
    socket: UdpSocket,
    peer: (Ipv4Addr, u16),
    /// When the sender began.
    start: Instant,
    pace: Pace,
}

impl<N: Net + Clock + Drop> UdpEmit<N> {
    /// A sink that keeps to so many bytes a second, or has no limit at 0. No socket is open yet.
    pub fn new(net: Option<N>, rate: u64) -> UdpEmit<N>
        ensures net { result.net ≡ net }
        ensures rate { result.rate ≡ rate }
        ensures connected { result.connected ≡ None }
        ensures failures { result.failures.count ≡ 0 }
    {
        UdpEmit {
            net,
            rate,
            line: None,
            connected: None,
            failures: Failures::none(),
        }
    }

    /// Closes the socket, where there is one.
    pub fn close(&mut self)
        ensures net { self.new.net ≡ self.old.net }
        ensures rate { self.new.rate ≡ self.old.rate }
        ensures connected { self.new.connected ≡ None }
        ensures failures { self.new.failures ≡ self.old.failures }
    {
        self.line = None;
        self.connected = None;
    }
}

impl<N: Net + Clock + Drop> Emit for UdpEmit<N> {
    ghost told = { λ _. ⊥ };

    ghost sent = { λ _. [] };

    ghost connected = { λ s. s.connected };

    ghost faults = { λ s. s.failures.count };

    /// The socket of an earlier `connect` is closed where this one answers `Ok`, and stays where it
    /// fails. Nothing is sent.
    fn connect(&mut self, place: &Place) -> Result<(), Trouble>
        ensures net { self.new.net ≡ self.old.net }
        ensures unreached { self.old.net ≡ None → IsErr result }
        ensures rate { self.new.rate ≡ self.old.rate }
        ensures ok { OnOk result (self.new.connected ≡ Some place.now) }
        ensures err { OnErr result (self.new.connected ≡ self.old.connected) }
        ensures fault { IsErrOf result Trouble.Failed → self.new.failures.count ≡ one_more self.old.failures.count }
        ensures quiet { OnOk result (self.new.failures.count ≡ self.old.failures.count) }
        ensures wants { IsErrOf result Trouble.Memory → self.new.failures.count ≡ self.old.failures.count }
        ensures rose { IsErrOf result Trouble.Failed → Rose self.old.failures.count self.new.failures.count }
        ensures grows { self.old.failures.count ≤ self.new.failures.count }
    {
        match open_line(&self.net, self.rate, place) {
            Ok(line) => {
                self.line = Some(line);
                self.connected = Some(*place);
                Ok(())
            }
            Err(error) => self.failures.judge(Err(error)),
        }
    }

    /// A send that a signal interrupts is tried again, up to 1,000 times. One of more than 65,507
    /// bytes, which are no datagram over IPv4, fails, and so does one before a `connect`.
    fn send(&mut self, datagram: &[u8]) -> Result<(), Trouble>
        requires { length datagram.now ≤ 65535 }
        ensures net { self.new.net ≡ self.old.net }
        ensures rate { self.new.rate ≡ self.old.rate }
        ensures place { self.new.connected ≡ self.old.connected }
        ensures fault { IsErrOf result Trouble.Failed → self.new.failures.count ≡ one_more self.old.failures.count }
        ensures quiet { OnOk result (self.new.failures.count ≡ self.old.failures.count) }
        ensures wants { IsErrOf result Trouble.Memory → self.new.failures.count ≡ self.old.failures.count }
        ensures rose { IsErrOf result Trouble.Failed → Rose self.old.failures.count self.new.failures.count }
        ensures grows { self.old.failures.count ≤ self.new.failures.count }
    {
        let done = send_on(&self.net, &mut self.line, datagram);
        self.failures.judge(done)
    }
}

/// The way to the address, over a socket of its own.
fn open_line<N: Net + Clock>(net: &Option<N>, rate: u64, place: &Place) -> io::Result<Line>
    ensures unreached { net.now ≡ None → IsErr result }
{
    let Place::Udp { ip, port } = *place else {
        return Err(io::Error::from(ErrorKind::InvalidInput));
    };
    let Some(net) = net else {
        return Err(io::Error::from(ErrorKind::Unsupported));
    };
    Ok(Line {
        socket: UdpSocket::bind(net, (Ipv4Addr::UNSPECIFIED, 0))?,
        peer: (Ipv4Addr::from(ip), port),
        start: Instant::now(net)?,
        pace: Pace::new(rate),
    })
}

/// Sends the datagram once its time has come.
fn send_on<N: Clock>(net: &Option<N>, line: &mut Option<Line>, datagram: &[u8]) -> io::Result<()>
    requires { length datagram.now ≤ 65535 }
{
    let Some(line) = line else {
        return Err(io::Error::from(ErrorKind::NotConnected));
    };
    let Some(net) = net else {
        return Err(io::Error::from(ErrorKind::Unsupported));
    };
    let now = u64::try_from(line.start.elapsed(net)?.as_nanos()).unwrap_or(u64::MAX);
    let wait = line.pace.wait(now, datagram.len() as u16);
    if wait > 0 {
        thread::sleep(net, Duration::from_nanos(wait));
    }
    send_whole(&line.socket, line.peer, datagram)
}

/// One send that no signal interrupted, of the whole datagram.
fn send_whole(socket: &UdpSocket, peer: (Ipv4Addr, u16), datagram: &[u8]) -> io::Result<()> {
    for _ in 0..TRIES {
        match socket.send_to(datagram, peer) {
            Ok(count) if count == datagram.len() => return Ok(()),
            Ok(_) => return Err(io::Error::from(ErrorKind::WriteZero)),
            Err(error) if error.kind() == ErrorKind::Interrupted => {}
            Err(error) => return Err(error),
        }
    }
    Err(interrupted_each_time())
}
