//! Files in memory that fail at stated calls.

ghost use Rattle.std.specs.Prelude.{◌≡◌, Some, None, length, ◌≤◌, ◌<◌, IfOk, OnOk, IsErrOf, IsSomeAnd, IsTrue, false, ◌↔◌, vec_len};
ghost use Rattle.edge_io.specs.Faults.{Rose, one_more};
ghost use Rattle.edge_io.specs.NamedFiles.{found_in};
ghost use Rattle.edge_io.specs.StatedCalls.{fails_next, IsNextCall};

use crate::{Calls, FileFault, Files, SureFiles};

/// Files in memory, each with a name, that fail exactly at stated calls. Where a name stands
/// twice, the first counts.
#[derive(Drop)]
pub struct MemFiles {
    /// The files.
    pub files: SureFiles,
    /// The calls that fail.
    pub calls: Calls,
}

impl MemFiles {
    /// These files, from which nothing was read, with the numbers of the calls that fail, counted
    /// from 1.
    pub fn new(files: Vec<(String, Vec<u8>)>, fails: Vec<u32>) -> MemFiles
        ensures files { result.files.files ≡ files }
        ensures misses { result.files.misses ≡ 0 }
        ensures fails { result.calls.fails ≡ fails }
        ensures made { result.calls.made ≡ 0 }
        ensures failed { result.calls.failed ≡ 0 }
    {
        MemFiles {
            files: SureFiles::new(files),
            calls: Calls::new(fails),
        }
    }
}

impl Files for MemFiles {
    ghost told = { λ _. Unit {0} };

    ghost found = { λ s name. found_in s.files.files.items name };

    ghost faults = { λ s. s.calls.failed };

    ghost misses = { λ s. s.files.misses };

    fn read(&mut self, name: &str) -> Result<Vec<u8>, FileFault>
        ensures ok { IfOk result (λ v. found_in self.old.files.files.items name.now ≡ Some v.items) }
        ensures size { IfOk result (λ v. vec_len v ≤ 16777216) }
        ensures absent { IsErrOf result FileFault.Absent → found_in self.old.files.files.items name.now ≡ None }
        ensures too_big { IsErrOf result FileFault.TooBig → IsSomeAnd (found_in self.old.files.files.items name.now) (λ bytes. 16777216 < length bytes) }
        ensures fits { IsErrOf result FileFault.Memory → IsSomeAnd (found_in self.old.files.files.items name.now) (λ bytes. length bytes ≤ 16777216) }
        ensures same { self.new.files.files ≡ self.old.files.files }
        ensures exact { IsErrOf result FileFault.Failed ↔ IsTrue (fails_next self.old.calls) }
        ensures next { IsNextCall self.old.calls self.new.calls }
        ensures fault { IsErrOf result FileFault.Failed → self.new.calls.failed ≡ one_more self.old.calls.failed }
        ensures quiet { fails_next self.old.calls ≡ false → self.new.calls.failed ≡ self.old.calls.failed }
        ensures kept { IsErrOf result FileFault.Failed → self.new.files ≡ self.old.files }
        ensures miss_absent { IsErrOf result FileFault.Absent → self.new.files.misses ≡ one_more self.old.files.misses }
        ensures miss_too_big { IsErrOf result FileFault.TooBig → self.new.files.misses ≡ one_more self.old.files.misses }
        ensures unmissed { OnOk result (self.new.files.misses ≡ self.old.files.misses) }
        ensures wants { IsErrOf result FileFault.Memory → self.new.files.misses ≡ self.old.files.misses }
        ensures missed_absent { IsErrOf result FileFault.Absent → Rose self.old.files.misses self.new.files.misses }
        ensures missed_too_big { IsErrOf result FileFault.TooBig → Rose self.old.files.misses self.new.files.misses }
        ensures rose { IsErrOf result FileFault.Failed → Rose self.old.calls.failed self.new.calls.failed }
        ensures grows { self.old.calls.failed ≤ self.new.calls.failed }
        ensures grows_misses { self.old.files.misses ≤ self.new.files.misses }
    {
        if self.calls.fails_now() {
            return Err(FileFault::Failed);
        }
        self.files.read(name)
    }
}
