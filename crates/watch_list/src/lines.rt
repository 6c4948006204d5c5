//! A watcher that writes the line of each event.

ghost use Rattle.std.specs.Prelude.{◌≡◌, ◌≢◌, ◌+◌, ◌-◌, ◌^◌, ◌≤◌, [], ◌++◌, OnOk, OnErr, IsErrOf};
ghost use Rattle.edge_io.specs.Faults.{Rose, one_more};
ghost use Rattle.watch_list.specs.EventLines.{event_line};

use crate::write_event::write_line;
use crate::{Event, Unheard, Watch};
use edge_io::Text;

/// A watcher that writes the line of each event to a text, and keeps none of the events. Each line
/// is one `write` of the text.
#[derive(Drop)]
pub struct Lines<T: Text + Drop> {
    /// The text.
    pub text: T,
    /// How many events it heard.
    count: u64,
    /// How often it did not hear, up to the end of the type.
    failed: u64,
}

impl<T: Text + Drop> Lines<T> {
    /// A watcher that has heard nothing, and writes at the end of this text. It takes no memory, now
    /// or later.
    pub fn new(text: T) -> Lines<T>
        ensures text { result.text ≡ text }
        ensures count { result.count ≡ 0 }
        ensures failed { result.failed ≡ 0 }
    {
        Lines {
            text,
            count: 0,
            failed: 0,
        }
    }
}

impl<T: Text + Drop> Watch for Lines<T> {
    ghost use Rattle.watch_list.specs.Hearing.{Hearing, HasHeard};

    ghost hearing = { λ s. record {
      number = s.count;
      told = ⊥;
      events = [];
      faults = s.failed;
      refuses = λ before event count. count ≡ one_more s.failed;
    } };

    /// It is deaf where its count is full, and then leaves its text alone, or where its text failed.
    /// It answers `Memory` where its text does. A fault is counted at each error, and nowhere else.
    fn hear(&mut self, event: &Event) -> Result<(), Unheard>
        ensures number { OnOk result (self.new.count ≡ self.old.count + 1) }
        ensures same_number { OnErr result (self.new.count ≡ self.old.count) }
        ensures line { OnOk result (T.told self.old.text → T.written self.new.text ≡ T.written self.old.text ++ event_line event.now) }
        ensures unwritten { OnErr result (T.told self.old.text → T.written self.new.text ≡ T.written self.old.text) }
        ensures told_text { T.told self.old.text → T.told self.new.text }
        ensures full { self.old.count ≡ 2 ^ 64 - 1 → IsErrOf result Unheard.Deaf }
        ensures unused { self.old.count ≡ 2 ^ 64 - 1 → self.new.text ≡ self.old.text }
        ensures deaf { IsErrOf result Unheard.Deaf → self.old.count ≢ 2 ^ 64 - 1 → Rose (T.faults self.old.text) (T.faults self.new.text) }
        ensures grows_text { T.faults self.old.text ≤ T.faults self.new.text }
        ensures fault { OnErr result (self.new.failed ≡ one_more self.old.failed) }
        ensures quiet { OnOk result (self.new.failed ≡ self.old.failed) }
        ensures rose { OnErr result (Rose self.old.failed self.new.failed) }
        ensures grows { self.old.failed ≤ self.new.failed }
    {
        let Some(count) = self.count.checked_add(1) else {
            self.failed = self.failed.saturating_add(1);
            return Err(Unheard::Deaf);
        };
        match write_line(&mut self.text, event) {
            Ok(()) => {
                self.count = count;
                Ok(())
            }
            Err(unheard) => {
                self.failed = self.failed.saturating_add(1);
                Err(unheard)
            }
        }
    }

    fn tally(&self) -> u64 {
        self.count
    }

    fn heard(&self, _place: u64) -> Option<Event> {
        None
    }
}
