//! Datagrams to a packet log or to a UDP address.

ghost use Rattle.std.specs.Prelude.{◌≡◌, ◌≤◌, [], ◌∷◌, ◌++◌, Option, Some, None, All, length, OnOk, OnErr, IsErrOf};
ghost use Rattle.edge_io.specs.Faults.{Rose, one_more};
ghost use Rattle.edge_real.specs.Placing.{IsUdp, IsOnLog};

use crate::UdpEmit;
use edge_io::{Emit, LogWriter, Place, Text, Trouble};
use std::alloc::Global;
use std::net::Net;
use std::time::Clock;

/// A sink of datagrams that sends them to the place that was connected: to a packet log, written to
/// a text, or to a UDP address, at a rate. Without a network it tells what its log tells; with one
/// nothing is told, since a socket tells nothing.
///
/// Until a `connect` answered `Ok` it writes the log. A `connect` at the log closes the socket; one
/// at an address leaves the text alone, so that nothing of a log is written where none is asked for.
/// A `connect` that fails changes no place.
#[derive(Drop)]
pub struct PlacedEmit<T: Text, N: Net + Clock + Drop> {
    /// The log.
    pub log: LogWriter<T>,
    /// The socket.
    pub udp: UdpEmit<N>,
    /// The place of the last `connect` that answered `Ok`.
    pub connected: Option<Place>,
    /// How many calls failed, up to `u64::MAX`.
    pub failures: u64,
}

impl<T: Text, N: Net + Clock + Drop> PlacedEmit<T, N> {
    /// A log of which nothing is written, or a socket of this network that keeps to so many bytes a
    /// second, with no limit at 0. Without a network a `connect` at an address fails. Takes no
    /// memory.
    pub fn new(alloc: Global, sink: T, net: Option<N>, rate: u64) -> PlacedEmit<T, N>
        ensures told { T.told sink → T.written sink ≡ [] → net ≡ None → ⟦<PlacedEmit<T, N> as Emit>⟧.told result }
        ensures sent { ⟦<PlacedEmit<T, N> as Emit>⟧.sent result ≡ [] }
        ensures net { result.udp.net ≡ net }
        ensures sink { result.log.sink ≡ sink }
        ensures rate { result.udp.rate ≡ rate }
        ensures connected { result.connected ≡ None }
        ensures failures { result.failures ≡ 0 }
    {
        PlacedEmit {
            log: LogWriter::new(alloc, sink),
            udp: UdpEmit::new(net, rate),
            connected: None,
            failures: 0,
        }
    }

    /// Connects at the place. The count stays.
    fn connect_at(&mut self, place: &Place) -> Result<(), Trouble>
        ensures told { ⟦<LogWriter<T> as Emit>⟧.told self.old.log → ⟦<LogWriter<T> as Emit>⟧.told self.new.log }
        ensures sent { ⟦<LogWriter<T> as Emit>⟧.told self.old.log → ⟦<LogWriter<T> as Emit>⟧.sent self.new.log ≡ ⟦<LogWriter<T> as Emit>⟧.sent self.old.log }
        ensures net { self.new.udp.net ≡ self.old.udp.net }
        ensures unreached { OnOk result (self.old.udp.net ≡ None → IsUdp self.new.connected → ⊥) }
        ensures rate { self.new.udp.rate ≡ self.old.udp.rate }
        ensures ok { OnOk result (self.new.connected ≡ Some place.now) }
        ensures err { OnErr result (self.new.connected ≡ self.old.connected) }
        ensures unwritten { IsUdp (Some place.now) → self.new.log ≡ self.old.log }
        ensures count { self.new.failures ≡ self.old.failures }
    {
        match place {
            Place::Log => {
                self.log.connect(place)?;
                self.udp.close();
            }
            Place::Udp { .. } => self.udp.connect(place)?,
        }
        self.connected = Some(*place);
        Ok(())
    }

    /// Sends the datagram to the place. The count stays.
    fn send_there(&mut self, datagram: &[u8]) -> Result<(), Trouble>
        requires { length datagram.now ≤ 65535 }
        ensures told { ⟦<LogWriter<T> as Emit>⟧.told self.old.log → ⟦<LogWriter<T> as Emit>⟧.told self.new.log }
        ensures sent_ok { OnOk result (⟦<LogWriter<T> as Emit>⟧.told self.old.log → (IsUdp self.old.connected → ⊥)
            → ⟦<LogWriter<T> as Emit>⟧.sent self.new.log ≡ ⟦<LogWriter<T> as Emit>⟧.sent self.old.log ++ datagram.now ∷ []) }
        ensures sent_err { OnErr result (⟦<LogWriter<T> as Emit>⟧.told self.old.log → ⟦<LogWriter<T> as Emit>⟧.sent self.new.log ≡ ⟦<LogWriter<T> as Emit>⟧.sent self.old.log) }
        ensures short { (IsUdp self.old.connected → ⊥) → ⟦<LogWriter<T> as Emit>⟧.told self.old.log → All (λ d. length d ≤ 65535) (⟦<LogWriter<T> as Emit>⟧.sent self.old.log) }
        ensures net { self.new.udp.net ≡ self.old.udp.net }
        ensures rate { self.new.udp.rate ≡ self.old.udp.rate }
        ensures place { self.new.connected ≡ self.old.connected }
        ensures unwritten { IsUdp self.old.connected → self.new.log ≡ self.old.log }
        ensures unsent { self.old.connected ≡ Some Place.Log → self.new.udp ≡ self.old.udp }
        ensures count { self.new.failures ≡ self.old.failures }
    {
        match self.connected {
            Some(Place::Udp { .. }) => self.udp.send(datagram),
            Some(Place::Log) | None => self.log.send(datagram),
        }
    }
}

impl<T: Text, N: Net + Clock + Drop> Emit for PlacedEmit<T, N> {
    ghost use Rattle.edge_real.specs.Placing.{IsOnLog};

    ghost told = { λ s. IsOnLog (⟦<LogWriter<T> as Emit>⟧.told s.log) s.udp.net s.connected };

    ghost sent = { λ s. ⟦<LogWriter<T> as Emit>⟧.sent s.log };

    ghost connected = { λ s. s.connected };

    ghost faults = { λ s. s.failures };

    fn connect(&mut self, place: &Place) -> Result<(), Trouble>
        ensures told { IsOnLog (⟦<LogWriter<T> as Emit>⟧.told self.old.log) self.old.udp.net self.old.connected
            → IsOnLog (⟦<LogWriter<T> as Emit>⟧.told self.new.log) self.new.udp.net self.new.connected }
        ensures sent { ⟦<LogWriter<T> as Emit>⟧.told self.old.log → ⟦<LogWriter<T> as Emit>⟧.sent self.new.log ≡ ⟦<LogWriter<T> as Emit>⟧.sent self.old.log }
        ensures net { self.new.udp.net ≡ self.old.udp.net }
        ensures rate { self.new.udp.rate ≡ self.old.udp.rate }
        ensures ok { OnOk result (self.new.connected ≡ Some place.now) }
        ensures err { OnErr result (self.new.connected ≡ self.old.connected) }
        ensures unwritten { IsUdp (Some place.now) → self.new.log ≡ self.old.log }
        ensures fault { IsErrOf result Trouble.Failed → self.new.failures ≡ one_more self.old.failures }
        ensures quiet { OnOk result (self.new.failures ≡ self.old.failures) }
        ensures wants { IsErrOf result Trouble.Memory → self.new.failures ≡ self.old.failures }
        ensures rose { IsErrOf result Trouble.Failed → Rose self.old.failures self.new.failures }
        ensures grows { self.old.failures ≤ self.new.failures }
    {
        let connected = self.connect_at(place);
        if connected == Err(Trouble::Failed) {
            self.failures = self.failures.saturating_add(1);
        }
        connected
    }

    fn send(&mut self, datagram: &[u8]) -> Result<(), Trouble>
        requires { length datagram.now ≤ 65535 }
        ensures told { IsOnLog (⟦<LogWriter<T> as Emit>⟧.told self.old.log) self.old.udp.net self.old.connected
            → IsOnLog (⟦<LogWriter<T> as Emit>⟧.told self.new.log) self.new.udp.net self.new.connected }
        ensures ok { OnOk result (IsOnLog (⟦<LogWriter<T> as Emit>⟧.told self.old.log) self.old.udp.net self.old.connected
            → ⟦<LogWriter<T> as Emit>⟧.sent self.new.log ≡ ⟦<LogWriter<T> as Emit>⟧.sent self.old.log ++ datagram.now ∷ []) }
        ensures err { OnErr result (⟦<LogWriter<T> as Emit>⟧.told self.old.log → ⟦<LogWriter<T> as Emit>⟧.sent self.new.log ≡ ⟦<LogWriter<T> as Emit>⟧.sent self.old.log) }
        ensures short { IsOnLog (⟦<LogWriter<T> as Emit>⟧.told self.old.log) self.old.udp.net self.old.connected
            → All (λ d. length d ≤ 65535) (⟦<LogWriter<T> as Emit>⟧.sent self.old.log) }
        ensures net { self.new.udp.net ≡ self.old.udp.net }
        ensures rate { self.new.udp.rate ≡ self.old.udp.rate }
        ensures place { self.new.connected ≡ self.old.connected }
        ensures unwritten { IsUdp self.old.connected → self.new.log ≡ self.old.log }
        ensures unsent { self.old.connected ≡ Some Place.Log → self.new.udp ≡ self.old.udp }
        ensures fault { IsErrOf result Trouble.Failed → self.new.failures ≡ one_more self.old.failures }
        ensures quiet { OnOk result (self.new.failures ≡ self.old.failures) }
        ensures wants { IsErrOf result Trouble.Memory → self.new.failures ≡ self.old.failures }
        ensures rose { IsErrOf result Trouble.Failed → Rose self.old.failures self.new.failures }
        ensures grows { self.old.failures ≤ self.new.failures }
    {
        let sent = self.send_there(datagram);
        if sent == Err(Trouble::Failed) {
            self.failures = self.failures.saturating_add(1);
        }
        sent
    }
}
