//! Files in memory.

ghost use Rattle.std.specs.Prelude.{◌≡◌, Some, None, option_map, length, ◌≤◌, ◌<◌, IfOk, OnOk, IsErrOf, IsSomeAnd, vec_len};
ghost use Rattle.edge_io.specs.Faults.{Rose, one_more};
ghost use Rattle.edge_io.specs.NamedFiles.{found_in};

use crate::{FileFault, Files};

/// Files in memory, each with a name. Where a name stands twice, the first counts.
#[derive(Drop)]
pub struct SureFiles {
    /// The names and the bytes.
    pub files: Vec<(String, Vec<u8>)>,
    /// How many reads found no file, or one that was too big, up to `u64::MAX`.
    pub misses: u64,
}

impl SureFiles {
    /// These files, from which nothing was read.
    pub fn new(files: Vec<(String, Vec<u8>)>) -> SureFiles
        ensures files { result.files ≡ files }
        ensures misses { result.misses ≡ 0 }
    {
        SureFiles { files, misses: 0 }
    }
}

impl Files for SureFiles {
    ghost told = { λ _. Unit {0} };

    ghost found = { λ s name. found_in s.files.items name };

    ghost faults = { λ _. 0 };

    ghost misses = { λ s. s.misses };

    fn read(&mut self, name: &str) -> Result<Vec<u8>, FileFault>
        ensures ok { IfOk result (λ v. found_in self.old.files.items name.now ≡ Some v.items) }
        ensures size { IfOk result (λ v. vec_len v ≤ 16777216) }
        ensures absent { IsErrOf result FileFault.Absent → found_in self.old.files.items name.now ≡ None }
        ensures too_big { IsErrOf result FileFault.TooBig → IsSomeAnd (found_in self.old.files.items name.now) (λ bytes. 16777216 < length bytes) }
        ensures fits { IsErrOf result FileFault.Memory → IsSomeAnd (found_in self.old.files.items name.now) (λ bytes. length bytes ≤ 16777216) }
        ensures sure { IsErrOf result FileFault.Failed → ⊥ }
        ensures same { self.new.files ≡ self.old.files }
        ensures miss_absent { IsErrOf result FileFault.Absent → self.new.misses ≡ one_more self.old.misses }
        ensures miss_too_big { IsErrOf result FileFault.TooBig → self.new.misses ≡ one_more self.old.misses }
        ensures unmissed { OnOk result (self.new.misses ≡ self.old.misses) }
        ensures wants { IsErrOf result FileFault.Memory → self.new.misses ≡ self.old.misses }
        ensures missed_absent { IsErrOf result FileFault.Absent → Rose self.old.misses self.new.misses }
        ensures missed_too_big { IsErrOf result FileFault.TooBig → Rose self.old.misses self.new.misses }
        ensures grows_misses { self.old.misses ≤ self.new.misses }
    {
        let alloc = *self.files.allocator();
        let Some(bytes) = find(self.files.as_slice(), name) else {
            self.misses = self.misses.saturating_add(1);
            return Err(FileFault::Absent);
        };
        if bytes.len() > 16_777_216 {
            self.misses = self.misses.saturating_add(1);
            return Err(FileFault::TooBig);
        }
        Ok(Vec::from_slice(alloc, bytes)?)
    }
}

/// The bytes of the first file with this name.
fn find<'a>(files: &'a [(String, Vec<u8>)], name: &str) -> Option<&'a [u8]>
    ensures { option_map (λ b. b.now) result ≡ found_in files.now name.now }
{
    for (held, bytes) in files {
        if held.as_str() == name {
            return Some(bytes.as_slice());
        }
    }
    None
}
