//! The files in the current folder.

ghost use Rattle.std.specs.Prelude.{◌≡◌, ◌≢◌, ◌≤◌, None, IfOk, IsErrOf, vec_len};
ghost use Rattle.edge_io.specs.Faults.{Rose, one_more};
ghost use Rattle.edge_io.specs.declared.file_fault.FileFault.{FileFault};

use crate::{Failures, Tried};
use edge_io::{FileFault, Files};
use std::fs::File;
use std::io;
use std::io::{ErrorKind, Read};

/// The most bytes of a file that is read.
const MOST: usize = 16_777_216;

/// The files in the current folder, by their paths. Nothing is told of them.
///
/// A file is absent where the system says that nothing has the name, or that a part of the path
/// isn't a folder. What else the system refuses is a failure: to read a folder, or a file without
/// the right to.
#[derive(Drop)]
pub struct FolderFiles<R: std::rt::Files + AllocGlobal + Drop> {
    /// The runtime, which has the files.
    pub rt: R,
    /// The reads that failed.
    pub failures: Failures,
    /// The name of the file whose read failed last, where there was memory to keep it.
    pub failed: Option<String>,
    /// How many reads found no file, or one that was too big, up to `u64::MAX`.
    pub misses: u64,
}

impl<R: std::rt::Files + AllocGlobal + Drop> FolderFiles<R> {
    /// The files in the current folder, as this runtime has them.
    pub fn new(rt: R) -> FolderFiles<R>
        ensures rt { result.rt ≡ rt }
        ensures failures { result.failures.count ≡ 0 }
        ensures failed { result.failed ≡ None }
        ensures misses { result.misses ≡ 0 }
    {
        FolderFiles {
            rt,
            failures: Failures::none(),
            failed: None,
            misses: 0,
        }
    }

    /// Counts what kept the file with this name from being read, and says why it wasn't.
    fn judge(&mut self, name: &str, error: io::Error) -> FileFault
        ensures small { result ≢ FileFault.TooBig }
        ensures fault { result ≡ FileFault.Failed → self.new.failures.count ≡ one_more self.old.failures.count }
        ensures quiet { result ≢ FileFault.Failed → self.new.failures.count ≡ self.old.failures.count }
        ensures miss { result ≡ FileFault.Absent → self.new.misses ≡ one_more self.old.misses }
        ensures unmissed { result ≢ FileFault.Absent → self.new.misses ≡ self.old.misses }
        ensures grows { self.old.failures.count ≤ self.new.failures.count }
        ensures grows_misses { self.old.misses ≤ self.new.misses }
    {
        match error.kind() {
            ErrorKind::OutOfMemory => FileFault::Memory,
            ErrorKind::NotFound | ErrorKind::NotADirectory => self.miss(FileFault::Absent),
            _ => {
                self.failures.add(error);
                self.failed = String::from_str(self.rt.alloc(), name).ok();
                FileFault::Failed
            }
        }
    }

    /// Counts a miss, and says this of it.
    fn miss(&mut self, fault: FileFault) -> FileFault
        ensures fault { result ≡ fault }
        ensures miss { self.new.misses ≡ one_more self.old.misses }
        ensures grows_misses { self.old.misses ≤ self.new.misses }
        ensures quiet { self.new.failures ≡ self.old.failures }
    {
        self.misses = self.misses.saturating_add(1);
        fault
    }
}

impl<R: std::rt::Files + AllocGlobal + Drop> Files for FolderFiles<R> {
    ghost told = { λ _. ⊥ };

    ghost found = { λ _ _. None };

    ghost faults = { λ s. s.failures.count };

    ghost misses = { λ s. s.misses };

    /// Reads at most one byte more than a file may have.
    fn read(&mut self, name: &str) -> Result<Vec<u8>, FileFault>
        ensures size { IfOk result (λ v. vec_len v ≤ 16777216) }
        ensures fault { IsErrOf result FileFault.Failed → self.new.failures.count ≡ one_more self.old.failures.count }
        ensures quiet { (IsErrOf result FileFault.Failed → ⊥) → self.new.failures.count ≡ self.old.failures.count }
        ensures miss_absent { IsErrOf result FileFault.Absent → self.new.misses ≡ one_more self.old.misses }
        ensures miss_too_big { IsErrOf result FileFault.TooBig → self.new.misses ≡ one_more self.old.misses }
        ensures unmissed { (IsErrOf result FileFault.Absent → ⊥) → (IsErrOf result FileFault.TooBig → ⊥) → self.new.misses ≡ self.old.misses }
        ensures missed_absent { IsErrOf result FileFault.Absent → Rose self.old.misses self.new.misses }
        ensures missed_too_big { IsErrOf result FileFault.TooBig → Rose self.old.misses self.new.misses }
        ensures rose { IsErrOf result FileFault.Failed → Rose self.old.failures.count self.new.failures.count }
        ensures grows { self.old.failures.count ≤ self.new.failures.count }
        ensures grows_misses { self.old.misses ≤ self.new.misses }
    {
        match read_front(&self.rt, name) {
            Ok(bytes) if bytes.len() > MOST => Err(self.miss(FileFault::TooBig)),
            Ok(bytes) => Ok(bytes),
            Err(error) => Err(self.judge(name, error)),
        }
    }
}

/// The bytes of the file with this name, up to one more than a file may have.
fn read_front<R: std::rt::Files + AllocGlobal>(rt: &R, name: &str) -> io::Result<Vec<u8>> {
    let mut bytes = Vec::new(rt.alloc());
    let mut front = Tried::new(File::open(rt, name)?).take(MOST as u64 + 1);
    front.read_to_end(&mut bytes)?;
    Ok(bytes)
}
