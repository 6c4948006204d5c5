//! Datagrams in memory that fail at stated calls.

ghost use Rattle.std.specs.Prelude.{◌≡◌, ◌≢◌, Option, Some, None, map, drop, length, ◌≤◌, All, vec_len, OnOk, OnErr, IsErr, IsTrue, ◌↔◌};
ghost use Rattle.edge_io.specs.Faults.{Rose, one_more};
ghost use Rattle.edge_io.specs.Nexts.{Answers, IsWithin};
ghost use Rattle.edge_io.specs.StatedCalls.{fails_next, IsNextCall};

use crate::{Calls, Datagrams, Failed, Next, Place, SureDatagrams};

/// Datagrams in memory that fail exactly at stated calls.
#[derive(Drop)]
pub struct MemDatagrams {
    /// The datagrams.
    pub source: SureDatagrams,
    /// The calls that fail.
    pub calls: Calls,
}

impl MemDatagrams {
    /// A source of these datagrams, each of at most 65,535 bytes, and of this torn place, with
    /// the numbers of the calls that fail, counted from 1 over `connect` and `next`.
    pub fn new(datagrams: Vec<Vec<u8>>, torn: Option<u64>, fails: Vec<u32>) -> MemDatagrams
        requires { All (λ d. vec_len d ≤ 65535) datagrams.items }
        ensures datagrams { result.source.datagrams ≡ datagrams }
        ensures at { result.source.at ≡ 0 }
        ensures torn { result.source.torn ≡ torn }
        ensures connected { result.source.connected ≡ None }
        ensures fails { result.calls.fails ≡ fails }
        ensures made { result.calls.made ≡ 0 }
        ensures failed { result.calls.failed ≡ 0 }
    {
        MemDatagrams {
            source: SureDatagrams::new(datagrams, torn),
            calls: Calls::new(fails),
        }
    }
}

impl Datagrams for MemDatagrams {
    ghost told = { λ _. Unit {0} };

    ghost left = { λ s. map (λ d. d.items) (drop s.source.at s.source.datagrams.items) };

    ghost torn = { λ s. s.source.torn };

    ghost connected = { λ s. s.source.connected };

    ghost faults = { λ s. s.calls.failed };

    fn connect(&mut self, place: &Place) -> Result<(), Failed>
        ensures ok { OnOk result (self.new.source.connected ≡ Some place.now) }
        ensures err { OnErr result (self.new.source.connected ≡ self.old.source.connected) }
        ensures left { self.new.source.at ≡ self.old.source.at }
        ensures datagrams { self.new.source.datagrams ≡ self.old.source.datagrams }
        ensures torn { self.new.source.torn ≡ self.old.source.torn }
        ensures kept { OnErr result (self.new.source ≡ self.old.source) }
        ensures exact { IsErr result ↔ IsTrue (fails_next self.old.calls) }
        ensures next { IsNextCall self.old.calls self.new.calls }
        ensures fault { OnErr result (self.new.calls.failed ≡ one_more self.old.calls.failed) }
        ensures quiet { OnOk result (self.new.calls.failed ≡ self.old.calls.failed) }
        ensures rose { OnErr result (Rose self.old.calls.failed self.new.calls.failed) }
        ensures grows { self.old.calls.failed ≤ self.new.calls.failed }
    {
        if self.calls.fails_now() {
            return Err(Failed);
        }
        self.source.connected = Some(*place);
        Ok(())
    }

    fn next(&mut self, buffer: &mut [u8]) -> Next
        requires { 65535 ≤ length buffer.old }
        ensures within { IsWithin result buffer.new }
        ensures answer { Answers result buffer.new
            (map (λ d. d.items) (drop self.old.source.at self.old.source.datagrams.items)) self.old.source.torn
            (map (λ d. d.items) (drop self.new.source.at self.new.source.datagrams.items)) self.new.source.torn
            (Unit {0}) }
        ensures short { All (λ d. length d ≤ 65535) (map (λ d. d.items) (drop self.old.source.at self.old.source.datagrams.items)) }
        ensures place { self.new.source.connected ≡ self.old.source.connected }
        ensures kept { result ≡ Next.Failed → self.new.source ≡ self.old.source }
        ensures exact { (result ≡ Next.Failed) ↔ IsTrue (fails_next self.old.calls) }
        ensures next { IsNextCall self.old.calls self.new.calls }
        ensures fault { result ≡ Next.Failed → self.new.calls.failed ≡ one_more self.old.calls.failed }
        ensures quiet { result ≢ Next.Failed → self.new.calls.failed ≡ self.old.calls.failed }
        ensures rose { result ≡ Next.Failed → Rose self.old.calls.failed self.new.calls.failed }
        ensures grows { self.old.calls.failed ≤ self.new.calls.failed }
    {
        if self.calls.fails_now() {
            return Next::Failed;
        }
        self.source.next(buffer)
    }
}
