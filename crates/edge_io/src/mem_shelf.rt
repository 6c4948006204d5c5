//! A shelf in memory that fails at stated calls.

ghost use Rattle.std.specs.Prelude.{◌≡◌, [], Option, ◌≤◌, OnOk, OnErr, IsErrOf, IsTrue, ◌↔◌};
ghost use Rattle.std.specs.Option.{option_copied};
ghost use Rattle.edge_io.specs.Faults.{Rose, one_more};
ghost use Rattle.edge_io.specs.Shelved.{begun, with_file, finished};
ghost use Rattle.edge_io.specs.StatedCalls.{fails_next, IsNextCall};
ghost use Rattle.edge_io.specs.MemShelves.{shelf_holds};

use crate::{Calls, FinishedInstance, Shelf, ShelvedFile, SureShelf, Trouble};
use std::alloc::Global;

/// A shelf in memory that fails exactly at stated calls.
#[derive(Drop)]
pub struct MemShelf {
    /// The shelf.
    pub shelf: SureShelf,
    /// The calls that fail.
    pub calls: Calls,
}

impl MemShelf {
    /// A shelf with this finished instance and an empty part, with the numbers of the calls that
    /// fail, counted from 1 over all three methods.
    pub fn new(alloc: Global, done: Option<FinishedInstance>, fails: Vec<u32>) -> MemShelf
        ensures done { result.shelf.done ≡ done }
        ensures number { result.shelf.number ≡ 0 }
        ensures files { result.shelf.files.items ≡ [] }
        ensures accepted { result.shelf.accepted ≡ 0 }
        ensures fails { result.calls.fails ≡ fails }
        ensures made { result.calls.made ≡ 0 }
        ensures failed { result.calls.failed ≡ 0 }
    {
        MemShelf {
            shelf: SureShelf::new(alloc, done),
            calls: Calls::new(fails),
        }
    }

    /// The finished instance, if there is one.
    pub fn finished(&self) -> Option<&FinishedInstance>
        ensures { option_copied result ≡ self.now.shelf.done }
    {
        self.shelf.finished()
    }

    /// The number of the part since `begin`, and 0 before it.
    pub fn part_number(&self) -> u32
        ensures { result ≡ self.now.shelf.number }
    {
        self.shelf.number
    }

    /// The files of the part since `begin`.
    pub fn part_files(&self) -> &[ShelvedFile]
        ensures { result.now ≡ self.now.shelf.files.items }
    {
        self.shelf.files.as_slice()
    }
}

impl Shelf for MemShelf {
    ghost told = { λ _. Unit {0} };

    ghost holds = { λ s. shelf_holds s.shelf };

    ghost faults = { λ s. s.calls.failed };

    fn begin(&mut self, number: u32) -> Result<(), Trouble>
        ensures ok { OnOk result (shelf_holds self.new.shelf ≡ begun (shelf_holds self.old.shelf) number) }
        ensures err { OnErr result (shelf_holds self.new.shelf ≡ shelf_holds self.old.shelf) }
        ensures exact { IsErrOf result Trouble.Failed ↔ IsTrue (fails_next self.old.calls) }
        ensures next { IsNextCall self.old.calls self.new.calls }
        ensures fault { IsErrOf result Trouble.Failed → self.new.calls.failed ≡ one_more self.old.calls.failed }
        ensures quiet { OnOk result (self.new.calls.failed ≡ self.old.calls.failed) }
        ensures wants { IsErrOf result Trouble.Memory → self.new.calls.failed ≡ self.old.calls.failed }
        ensures rose { IsErrOf result Trouble.Failed → Rose self.old.calls.failed self.new.calls.failed }
        ensures grows { self.old.calls.failed ≤ self.new.calls.failed }
    {
        if self.calls.fails_now() {
            return Err(Trouble::Failed);
        }
        self.shelf.begin(number)
    }

    fn put(&mut self, toi: u128, body: &[u8]) -> Result<(), Trouble>
        ensures ok { OnOk result (shelf_holds self.new.shelf ≡ with_file (shelf_holds self.old.shelf) toi body.now) }
        ensures err { OnErr result (shelf_holds self.new.shelf ≡ shelf_holds self.old.shelf) }
        ensures exact { IsErrOf result Trouble.Failed ↔ IsTrue (fails_next self.old.calls) }
        ensures next { IsNextCall self.old.calls self.new.calls }
        ensures fault { IsErrOf result Trouble.Failed → self.new.calls.failed ≡ one_more self.old.calls.failed }
        ensures quiet { OnOk result (self.new.calls.failed ≡ self.old.calls.failed) }
        ensures wants { IsErrOf result Trouble.Memory → self.new.calls.failed ≡ self.old.calls.failed }
        ensures rose { IsErrOf result Trouble.Failed → Rose self.old.calls.failed self.new.calls.failed }
        ensures grows { self.old.calls.failed ≤ self.new.calls.failed }
    {
        if self.calls.fails_now() {
            return Err(Trouble::Failed);
        }
        self.shelf.put(toi, body)
    }

    fn finish(&mut self, manifest: &[u8]) -> Result<(), Trouble>
        ensures ok { OnOk result (shelf_holds self.new.shelf ≡ finished (shelf_holds self.old.shelf) manifest.now) }
        ensures err { OnErr result (shelf_holds self.new.shelf ≡ shelf_holds self.old.shelf) }
        ensures exact { IsErrOf result Trouble.Failed ↔ IsTrue (fails_next self.old.calls) }
        ensures next { IsNextCall self.old.calls self.new.calls }
        ensures fault { IsErrOf result Trouble.Failed → self.new.calls.failed ≡ one_more self.old.calls.failed }
        ensures quiet { OnOk result (self.new.calls.failed ≡ self.old.calls.failed) }
        ensures wants { IsErrOf result Trouble.Memory → self.new.calls.failed ≡ self.old.calls.failed }
        ensures rose { IsErrOf result Trouble.Failed → Rose self.old.calls.failed self.new.calls.failed }
        ensures grows { self.old.calls.failed ≤ self.new.calls.failed }
    {
        if self.calls.fails_now() {
            return Err(Trouble::Failed);
        }
        self.shelf.finish(manifest)
    }
}
