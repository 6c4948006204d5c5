//! A watcher that counts the events.

ghost use Rattle.std.specs.Prelude.{◌≡◌, ◌+◌, ◌-◌, ◌^◌, ◌≤◌, [], OnOk, OnErr, IsErr, IsErrOf};
ghost use Rattle.edge_io.specs.Faults.{Rose, one_more};

use crate::{Event, Unheard, Watch};

/// A watcher that counts the events and keeps none of them.
#[derive(Drop, Debug)]
pub struct Counter {
    /// How many events it heard.
    count: u64,
    /// How often it was deaf, up to the end of the type.
    failed: u64,
}

impl Counter {
    /// A counter that has heard nothing.
    pub fn new() -> Counter
        ensures count { result.count ≡ 0 }
        ensures failed { result.failed ≡ 0 }
    {
        Counter {
            count: 0,
            failed: 0,
        }
    }
}

impl Watch for Counter {
    ghost use Rattle.watch_list.specs.Hearing.{Hearing, HasHeard};
    ghost use Rattle.watch_list.specs.Refusing.{IsFullWith};

    ghost hearing = { λ s. record {
      number = s.count;
      told = ⊥;
      events = [];
      faults = s.failed;
      refuses = λ before event count. IsFullWith s.count before × (count ≡ one_more s.failed);
    } };

    /// It is deaf exactly where its count is full, and never wants memory. A fault is counted
    /// where it is deaf, and nowhere else.
    fn hear(&mut self, _event: &Event) -> Result<(), Unheard>
        ensures number { OnOk result (self.new.count ≡ self.old.count + 1) }
        ensures same_number { OnErr result (self.new.count ≡ self.old.count) }
        ensures full { self.old.count ≡ 2 ^ 64 - 1 → IsErrOf result Unheard.Deaf }
        ensures only_full { OnErr result (self.old.count ≡ 2 ^ 64 - 1) }
        ensures deaf { IsErr result → IsErrOf result Unheard.Deaf }
        ensures fault { OnErr result (self.new.failed ≡ one_more self.old.failed) }
        ensures quiet { OnOk result (self.new.failed ≡ self.old.failed) }
        ensures rose { OnErr result (Rose self.old.failed self.new.failed) }
        ensures grows { self.old.failed ≤ self.new.failed }
    {
        match self.count.checked_add(1) {
            Some(count) => {
                self.count = count;
                Ok(())
            }
            None => {
                self.failed = self.failed.saturating_add(1);
                Err(Unheard::Deaf)
            }
        }
    }

    fn tally(&self) -> u64 {
        self.count
    }

    fn heard(&self, _place: u64) -> Option<Event> {
        None
    }
}
