//! A watcher that keeps the events.

ghost use Rattle.std.specs.Prelude.{◌≡◌, ◌≢◌, ◌+◌, ◌-◌, ◌^◌, ◌≤◌, [], ◌∷◌, ◌++◌, length, vec_len, OnOk, OnErr, IsErrOf, IsTrue, ◌↔◌, ◌⊎◌, vec_capacity};
ghost use Rattle.edge_io.specs.Faults.{Rose, one_more};
ghost use Rattle.edge_io.specs.StatedCalls.{fails_next, IsNextCall};

use crate::{Event, Unheard, Watch};
use edge_io::Calls;

/// A watcher that keeps the events and shows them, and is deaf at stated calls.
#[derive(Drop)]
pub struct Diary {
    /// The events that it heard, the first one first.
    events: Vec<Event>,
    /// The calls of `hear`; each that does not answer `Ok` counts as failed.
    calls: Calls,
}

impl Diary {
    /// A diary that has heard nothing, with the numbers of the calls of `hear` that find it deaf,
    /// counted from 1. It takes no memory yet.
    pub fn new(fails: Vec<u32>) -> Diary
        ensures events { result.events.items ≡ [] }
        ensures fails { result.calls.fails ≡ fails }
        ensures made { result.calls.made ≡ 0 }
        ensures failed { result.calls.failed ≡ 0 }
    {
        let alloc = *fails.allocator();
        Diary {
            events: Vec::new(alloc),
            calls: Calls::new(fails),
        }
    }
}

impl Watch for Diary {
    ghost use Rattle.watch_list.specs.Hearing.{Hearing, HasHeard};
    ghost use Rattle.watch_list.specs.Refusing.{fails_after};

    ghost hearing = { λ s. record {
      number = vec_len s.events;
      told = Unit {0};
      events = s.events.items;
      faults = s.calls.failed;
      refuses = λ before event count. (IsTrue (fails_after s.calls (length before)) ⊎ (vec_capacity s.events ≤ vec_len s.events + length before)) × (count ≡ one_more s.calls.failed);
    } };

    /// It is deaf where its count is full and at the stated calls, and else hears the event or wants
    /// memory. It wants memory only where its list has no room. A fault is counted at each error, and
    /// nowhere else.
    fn hear(&mut self, event: &Event) -> Result<(), Unheard>
        ensures record { OnOk result (self.new.events.items ≡ self.old.events.items ++ event.now ∷ []) }
        ensures number { OnOk result (vec_len self.new.events ≡ vec_len self.old.events + 1) }
        ensures same_record { OnErr result (self.new.events.items ≡ self.old.events.items) }
        ensures full { vec_len self.old.events ≡ 2 ^ 64 - 1 → IsErrOf result Unheard.Deaf }
        ensures exact { vec_len self.old.events ≢ 2 ^ 64 - 1 → IsErrOf result Unheard.Deaf ↔ IsTrue (fails_next self.old.calls) }
        ensures refuses { OnErr result (IsTrue (fails_after self.old.calls 0) ⊎ (vec_capacity self.old.events ≤ vec_len self.old.events)) }
        ensures capacity { vec_capacity self.old.events ≤ vec_capacity self.new.events }
        ensures next { IsNextCall self.old.calls self.new.calls }
        ensures fault { OnErr result (self.new.calls.failed ≡ one_more self.old.calls.failed) }
        ensures quiet { OnOk result (self.new.calls.failed ≡ self.old.calls.failed) }
        ensures rose { OnErr result (Rose self.old.calls.failed self.new.calls.failed) }
        ensures grows { self.old.calls.failed ≤ self.new.calls.failed }
    {
        if self.calls.fails_now() {
            return Err(Unheard::Deaf);
        }
        if self.events.len() == usize::MAX {
            self.calls.failed = self.calls.failed.saturating_add(1);
            return Err(Unheard::Deaf);
        }
        match self.events.push(*event) {
            Ok(()) => Ok(()),
            Err(_) => {
                self.calls.failed = self.calls.failed.saturating_add(1);
                Err(Unheard::Memory)
            }
        }
    }

    fn tally(&self) -> u64 {
        self.events.len() as u64
    }

    fn heard(&self, place: u64) -> Option<Event> {
        self.events.get(place as usize).copied()
    }
}
