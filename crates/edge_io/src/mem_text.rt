//! A text in memory that fails at stated calls.

ghost use Rattle.std.specs.Prelude.{◌≡◌, ◌++◌, ◌≤◌, OnOk, OnErr, IsErrOf, IsTrue, ◌↔◌};
ghost use Rattle.edge_io.specs.Faults.{Rose, one_more};
ghost use Rattle.edge_io.specs.StatedCalls.{fails_next, IsNextCall};

use crate::{Calls, SureText, Text, Trouble};

/// A text in memory that fails exactly at stated calls.
#[derive(Drop)]
pub struct MemText {
    /// The text.
    pub text: SureText,
    /// The calls that fail.
    pub calls: Calls,
}

impl MemText {
    /// A text that has these bytes already, with the numbers of the calls that fail, counted
    /// from 1.
    pub fn new(bytes: Vec<u8>, fails: Vec<u32>) -> MemText
        ensures bytes { result.text.bytes ≡ bytes }
        ensures fails { result.calls.fails ≡ fails }
        ensures made { result.calls.made ≡ 0 }
        ensures failed { result.calls.failed ≡ 0 }
    {
        MemText {
            text: SureText::new(bytes),
            calls: Calls::new(fails),
        }
    }

    /// The bytes that were written.
    pub fn written(&self) -> &[u8]
        ensures { result.now ≡ self.now.text.bytes.items }
    {
        self.text.written()
    }
}

impl Text for MemText {
    ghost told = { λ _. Unit {0} };

    ghost written = { λ s. s.text.bytes.items };

    ghost faults = { λ s. s.calls.failed };

    fn write(&mut self, bytes: &[u8]) -> Result<(), Trouble>
        ensures ok { OnOk result (self.new.text.bytes.items ≡ self.old.text.bytes.items ++ bytes.now) }
        ensures err { OnErr result (self.new.text.bytes.items ≡ self.old.text.bytes.items) }
        ensures exact { IsErrOf result Trouble.Failed ↔ IsTrue (fails_next self.old.calls) }
        ensures next { IsNextCall self.old.calls self.new.calls }
        ensures fault { IsErrOf result Trouble.Failed → self.new.calls.failed ≡ one_more self.old.calls.failed }
        ensures quiet { OnOk result (self.new.calls.failed ≡ self.old.calls.failed) }
        ensures wants { IsErrOf result Trouble.Memory → self.new.calls.failed ≡ self.old.calls.failed }
        ensures rose { IsErrOf result Trouble.Failed → Rose self.old.calls.failed self.new.calls.failed }
        ensures grows { self.old.calls.failed ≤ self.new.calls.failed }
    {
        if self.calls.fails_now() {
            return Err(Trouble::Failed);
        }
        self.text.write(bytes)
    }
}
