//! Datagrams from a packet log or from a UDP socket.

ghost use Rattle.std.specs.Prelude.{◌≡◌, ◌≢◌, ◌≤◌, Option, Some, None, All, length, OnOk, OnErr, IsErr};
ghost use Rattle.edge_io.specs.Faults.{Rose, one_more};
ghost use Rattle.edge_io.specs.Log.{datagrams_of, torn_at};
ghost use Rattle.edge_io.specs.Nexts.{Answers, IsWithin};
ghost use Rattle.edge_real.specs.Placing.{IsUdp, IsOnLog};

use crate::UdpDatagrams;
use edge_io::{Bytes, Datagrams, Failed, LogReader, Next, Place};
use std::net::Net;

/// The datagrams of the place that was connected: of a packet log, read from a source of bytes, or
/// those that come to a UDP socket. Without a network it tells what its log tells; with one nothing
/// is told, since a socket tells nothing.
///
/// Until a `connect` answered `Ok` it reads the log. A `connect` at the log closes the socket, and
/// the log goes on where it was left. A `connect` that fails changes nothing but the count.
#[derive(Drop)]
pub struct PlacedDatagrams<B: Bytes, N: Net + Drop> {
    /// The log.
    pub log: LogReader<B>,
    /// The socket.
    pub udp: UdpDatagrams<N>,
    /// The place of the last `connect` that answered `Ok`.
    pub connected: Option<Place>,
    /// How many calls failed, up to `u64::MAX`.
    pub failures: u64,
}

impl<B: Bytes, N: Net + Drop> PlacedDatagrams<B, N> {
    /// The datagrams of this log, or of a socket of this network, at which `idle` seconds without a
    /// datagram are the end. Without a network a `connect` at an address fails.
    pub fn new(source: B, net: Option<N>, idle: Option<u32>) -> PlacedDatagrams<B, N>
        ensures told { B.told source → net ≡ None → ⟦<PlacedDatagrams<B, N> as Datagrams>⟧.told result }
        ensures left { ⟦<PlacedDatagrams<B, N> as Datagrams>⟧.left result ≡ datagrams_of (B.left source) }
        ensures torn { ⟦<PlacedDatagrams<B, N> as Datagrams>⟧.torn result ≡ torn_at (B.left source) }
        ensures source { result.log.source ≡ source }
        ensures net { result.udp.net ≡ net }
        ensures idle { result.udp.idle ≡ idle }
        ensures connected { result.connected ≡ None }
        ensures failures { result.failures ≡ 0 }
    {
        PlacedDatagrams {
            log: LogReader::new(source),
            udp: UdpDatagrams::new(net, idle),
            connected: None,
            failures: 0,
        }
    }

    /// Connects at the place. The count stays.
    fn connect_at(&mut self, place: &Place) -> Result<(), Failed>
        ensures told { OnOk result (⟦<LogReader<B> as Datagrams>⟧.told self.old.log → ⟦<LogReader<B> as Datagrams>⟧.told self.new.log) }
        ensures left { OnOk result (⟦<LogReader<B> as Datagrams>⟧.told self.old.log → ⟦<LogReader<B> as Datagrams>⟧.left self.new.log ≡ ⟦<LogReader<B> as Datagrams>⟧.left self.old.log) }
        ensures torn { OnOk result (⟦<LogReader<B> as Datagrams>⟧.told self.old.log → ⟦<LogReader<B> as Datagrams>⟧.torn self.new.log ≡ ⟦<LogReader<B> as Datagrams>⟧.torn self.old.log) }
        ensures net { self.new.udp.net ≡ self.old.udp.net }
        ensures unreached { OnOk result (self.old.udp.net ≡ None → IsUdp self.new.connected → ⊥) }
        ensures idle { self.new.udp.idle ≡ self.old.udp.idle }
        ensures ok { OnOk result (self.new.connected ≡ Some place.now) }
        ensures err { OnErr result (self.new.connected ≡ self.old.connected) }
        ensures unread { IsUdp (Some place.now) → self.new.log ≡ self.old.log }
        ensures count { self.new.failures ≡ self.old.failures }
    {
        match place {
            Place::Log => {
                self.log.connect(place)?;
                self.udp.close();
            }
            Place::Udp { .. } => self.udp.connect(place)?,
        }
        self.connected = Some(*place);
        Ok(())
    }

    /// Asks the place for the next datagram. The count stays.
    fn next_there(&mut self, buffer: &mut [u8]) -> Next
        requires { 65535 ≤ length buffer.old }
        ensures answer { IsOnLog (⟦<LogReader<B> as Datagrams>⟧.told self.old.log) self.old.udp.net self.old.connected → Answers result buffer.new
            (⟦<LogReader<B> as Datagrams>⟧.left self.old.log) (⟦<LogReader<B> as Datagrams>⟧.torn self.old.log)
            (⟦<LogReader<B> as Datagrams>⟧.left self.new.log) (⟦<LogReader<B> as Datagrams>⟧.torn self.new.log)
            (IsOnLog (⟦<LogReader<B> as Datagrams>⟧.told self.new.log) self.new.udp.net self.new.connected) }
        ensures short { IsOnLog (⟦<LogReader<B> as Datagrams>⟧.told self.old.log) self.old.udp.net self.old.connected
            → All (λ d. length d ≤ 65535) (⟦<LogReader<B> as Datagrams>⟧.left self.old.log) }
        ensures net { self.new.udp.net ≡ self.old.udp.net }
        ensures idle { self.new.udp.idle ≡ self.old.udp.idle }
        ensures endless { IsUdp self.old.connected → self.old.udp.idle ≡ None → result ≢ Next.End }
        ensures within { IsWithin result buffer.new }
        ensures place { self.new.connected ≡ self.old.connected }
        ensures unread { IsUdp self.old.connected → self.new.log ≡ self.old.log }
        ensures unheard { self.old.connected ≡ Some Place.Log → self.new.udp ≡ self.old.udp }
        ensures count { self.new.failures ≡ self.old.failures }
    {
        match self.connected {
            Some(Place::Udp { .. }) => self.udp.next(buffer),
            Some(Place::Log) | None => self.log.next(buffer),
        }
    }
}

impl<B: Bytes, N: Net + Drop> Datagrams for PlacedDatagrams<B, N> {
    ghost use Rattle.edge_real.specs.Placing.{IsOnLog};

    ghost told = { λ s. IsOnLog (⟦<LogReader<B> as Datagrams>⟧.told s.log) s.udp.net s.connected };

    ghost left = { λ s. ⟦<LogReader<B> as Datagrams>⟧.left s.log };

    ghost torn = { λ s. ⟦<LogReader<B> as Datagrams>⟧.torn s.log };

    ghost connected = { λ s. s.connected };

    ghost faults = { λ s. s.failures };

    fn connect(&mut self, place: &Place) -> Result<(), Failed>
        ensures told { OnOk result (IsOnLog (⟦<LogReader<B> as Datagrams>⟧.told self.old.log) self.old.udp.net self.old.connected
            → IsOnLog (⟦<LogReader<B> as Datagrams>⟧.told self.new.log) self.new.udp.net self.new.connected) }
        ensures left { OnOk result (⟦<LogReader<B> as Datagrams>⟧.told self.old.log → ⟦<LogReader<B> as Datagrams>⟧.left self.new.log ≡ ⟦<LogReader<B> as Datagrams>⟧.left self.old.log) }
        ensures torn { OnOk result (⟦<LogReader<B> as Datagrams>⟧.told self.old.log → ⟦<LogReader<B> as Datagrams>⟧.torn self.new.log ≡ ⟦<LogReader<B> as Datagrams>⟧.torn self.old.log) }
        ensures net { self.new.udp.net ≡ self.old.udp.net }
        ensures idle { self.new.udp.idle ≡ self.old.udp.idle }
        ensures ok { OnOk result (self.new.connected ≡ Some place.now) }
        ensures err { OnErr result (self.new.connected ≡ self.old.connected) }
        ensures unread { IsUdp (Some place.now) → self.new.log ≡ self.old.log }
        ensures fault { IsErr result → self.new.failures ≡ one_more self.old.failures }
        ensures quiet { OnOk result (self.new.failures ≡ self.old.failures) }
        ensures rose { IsErr result → Rose self.old.failures self.new.failures }
        ensures grows { self.old.failures ≤ self.new.failures }
    {
        let connected = self.connect_at(place);
        if connected.is_err() {
            self.failures = self.failures.saturating_add(1);
        }
        connected
    }

    fn next(&mut self, buffer: &mut [u8]) -> Next
        requires { 65535 ≤ length buffer.old }
        ensures answer { IsOnLog (⟦<LogReader<B> as Datagrams>⟧.told self.old.log) self.old.udp.net self.old.connected → Answers result buffer.new
            (⟦<LogReader<B> as Datagrams>⟧.left self.old.log) (⟦<LogReader<B> as Datagrams>⟧.torn self.old.log)
            (⟦<LogReader<B> as Datagrams>⟧.left self.new.log) (⟦<LogReader<B> as Datagrams>⟧.torn self.new.log)
            (IsOnLog (⟦<LogReader<B> as Datagrams>⟧.told self.new.log) self.new.udp.net self.new.connected) }
        ensures short { IsOnLog (⟦<LogReader<B> as Datagrams>⟧.told self.old.log) self.old.udp.net self.old.connected
            → All (λ d. length d ≤ 65535) (⟦<LogReader<B> as Datagrams>⟧.left self.old.log) }
        ensures net { self.new.udp.net ≡ self.old.udp.net }
        ensures idle { self.new.udp.idle ≡ self.old.udp.idle }
        ensures endless { IsUdp self.old.connected → self.old.udp.idle ≡ None → result ≢ Next.End }
        ensures within { IsWithin result buffer.new }
        ensures place { self.new.connected ≡ self.old.connected }
        ensures unread { IsUdp self.old.connected → self.new.log ≡ self.old.log }
        ensures unheard { self.old.connected ≡ Some Place.Log → self.new.udp ≡ self.old.udp }
        ensures fault { result ≡ Next.Failed → self.new.failures ≡ one_more self.old.failures }
        ensures quiet { result ≢ Next.Failed → self.new.failures ≡ self.old.failures }
        ensures rose { result ≡ Next.Failed → Rose self.old.failures self.new.failures }
        ensures grows { self.old.failures ≤ self.new.failures }
    {
        let answer = self.next_there(buffer);
        if answer == Next::Failed {
            self.failures = self.failures.saturating_add(1);
        }
        answer
    }
}
