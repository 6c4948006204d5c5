//! A sink of datagrams in memory that fails at stated calls.

ghost use Rattle.std.specs.Prelude.{◌≡◌, Option, Some, None, map, [], ◌∷◌, ◌++◌, length, ◌≤◌, All, vec_len, OnOk, OnErr, IsErrOf, IsTrue, ◌↔◌};
ghost use Rattle.edge_io.specs.Faults.{Rose, one_more};
ghost use Rattle.edge_io.specs.StatedCalls.{fails_next, IsNextCall};

use crate::{Calls, Emit, Place, SureEmit, Trouble};

/// A sink of datagrams in memory that fails exactly at stated calls.
#[derive(Drop)]
pub struct MemEmit {
    /// The sink.
    pub sink: SureEmit,
    /// The calls that fail.
    pub calls: Calls,
}

impl MemEmit {
    /// A sink to which these datagrams were sent already, each of at most 65,535 bytes, with the
    /// numbers of the calls that fail, counted from 1 over `connect` and `send`.
    pub fn new(sent: Vec<Vec<u8>>, fails: Vec<u32>) -> MemEmit
        requires { All (λ d. vec_len d ≤ 65535) sent.items }
        ensures sent { result.sink.sent ≡ sent }
        ensures connected { result.sink.connected ≡ None }
        ensures fails { result.calls.fails ≡ fails }
        ensures made { result.calls.made ≡ 0 }
        ensures failed { result.calls.failed ≡ 0 }
    {
        MemEmit {
            sink: SureEmit::with_sent(sent),
            calls: Calls::new(fails),
        }
    }

    /// The datagrams that were sent.
    pub fn sent(&self) -> &[Vec<u8>]
        ensures { result.now ≡ self.now.sink.sent.items }
    {
        self.sink.sent.as_slice()
    }
}

impl Emit for MemEmit {
    ghost told = { λ _. Unit {0} };

    ghost sent = { λ s. map (λ d. d.items) s.sink.sent.items };

    ghost connected = { λ s. s.sink.connected };

    ghost faults = { λ s. s.calls.failed };

    fn connect(&mut self, place: &Place) -> Result<(), Trouble>
        ensures ok { OnOk result (self.new.sink.connected ≡ Some place.now) }
        ensures err { OnErr result (self.new.sink.connected ≡ self.old.sink.connected) }
        ensures sent { self.new.sink.sent ≡ self.old.sink.sent }
        ensures exact { IsErrOf result Trouble.Failed ↔ IsTrue (fails_next self.old.calls) }
        ensures next { IsNextCall self.old.calls self.new.calls }
        ensures fault { IsErrOf result Trouble.Failed → self.new.calls.failed ≡ one_more self.old.calls.failed }
        ensures quiet { OnOk result (self.new.calls.failed ≡ self.old.calls.failed) }
        ensures wants { IsErrOf result Trouble.Memory → self.new.calls.failed ≡ self.old.calls.failed }
        ensures rose { IsErrOf result Trouble.Failed → Rose self.old.calls.failed self.new.calls.failed }
        ensures grows { self.old.calls.failed ≤ self.new.calls.failed }
    {
        if self.calls.fails_now() {
            return Err(Trouble::Failed);
        }
        self.sink.connected = Some(*place);
        Ok(())
    }

    fn send(&mut self, datagram: &[u8]) -> Result<(), Trouble>
        requires { length datagram.now ≤ 65535 }
        ensures ok { OnOk result (map (λ d. d.items) self.new.sink.sent.items ≡ map (λ d. d.items) self.old.sink.sent.items ++ datagram.now ∷ []) }
        ensures err { OnErr result (map (λ d. d.items) self.new.sink.sent.items ≡ map (λ d. d.items) self.old.sink.sent.items) }
        ensures short { All (λ d. length d ≤ 65535) (map (λ d. d.items) self.old.sink.sent.items) }
        ensures place { self.new.sink.connected ≡ self.old.sink.connected }
        ensures exact { IsErrOf result Trouble.Failed ↔ IsTrue (fails_next self.old.calls) }
        ensures next { IsNextCall self.old.calls self.new.calls }
        ensures fault { IsErrOf result Trouble.Failed → self.new.calls.failed ≡ one_more self.old.calls.failed }
        ensures quiet { OnOk result (self.new.calls.failed ≡ self.old.calls.failed) }
        ensures wants { IsErrOf result Trouble.Memory → self.new.calls.failed ≡ self.old.calls.failed }
        ensures rose { IsErrOf result Trouble.Failed → Rose self.old.calls.failed self.new.calls.failed }
        ensures grows { self.old.calls.failed ≤ self.new.calls.failed }
    {
        if self.calls.fails_now() {
            return Err(Trouble::Failed);
        }
        self.sink.send(datagram)
    }
}
