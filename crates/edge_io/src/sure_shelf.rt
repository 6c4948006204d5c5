//! A shelf in memory that never fails.

ghost use Rattle.std.specs.Prelude.{◌≡◌, [], Option, IfOk};
ghost use Rattle.std.specs.Option.{option_copied};

use crate::{FinishedInstance, Shelf, ShelvedFile, Trouble};
use std::alloc::{AllocError, Global};

/// A shelf in memory that takes files as long as there is memory.
#[derive(Drop)]
pub struct SureShelf {
    /// The finished instance, if there is one.
    pub done: Option<FinishedInstance>,
    /// The number of the part since `begin`, and 0 before it.
    pub number: u32,
    /// The files of the part.
    pub files: Vec<ShelvedFile>,
    /// How many calls it accepted. The count stands still at the end of its type.
    pub accepted: u64,
}

impl SureShelf {
    /// A shelf with this finished instance and an empty part.
    pub fn new(alloc: Global, done: Option<FinishedInstance>) -> SureShelf
        ensures done { result.done ≡ done }
        ensures number { result.number ≡ 0 }
        ensures files { result.files.items ≡ [] }
        ensures accepted { result.accepted ≡ 0 }
    {
        SureShelf {
            done,
            number: 0,
            files: Vec::new(alloc),
            accepted: 0,
        }
    }

    /// The finished instance, if there is one.
    pub fn finished(&self) -> Option<&FinishedInstance>
        ensures { option_copied result ≡ self.now.done }
    {
        self.done.as_ref()
    }
}

impl Shelf for SureShelf {
    ghost told = { λ _. Unit {0} };

    ghost holds = { λ s. record { done = s.done; number = s.number; files = s.files.items; accepted = s.accepted } };

    ghost faults = { λ _. 0 };

    fn begin(&mut self, number: u32) -> Result<(), Trouble> {
        self.done = None;
        self.number = number;
        self.files.clear();
        self.accepted = self.accepted.saturating_add(1);
        Ok(())
    }

    fn put(&mut self, toi: u128, body: &[u8]) -> Result<(), Trouble> {
        let alloc = *self.files.allocator();
        let body = Vec::from_slice(alloc, body)?;
        self.files.push(ShelvedFile::new(toi, body))?;
        self.accepted = self.accepted.saturating_add(1);
        Ok(())
    }

    fn finish(&mut self, manifest: &[u8]) -> Result<(), Trouble> {
        let alloc = *self.files.allocator();
        let files = copied(alloc, self.files.as_slice())?;
        let manifest = Vec::from_slice(alloc, manifest)?;
        self.done = Some(FinishedInstance::new(self.number, files, manifest));
        self.accepted = self.accepted.saturating_add(1);
        Ok(())
    }
}

/// A copy of the files, or want of memory.
fn copied(alloc: Global, files: &[ShelvedFile]) -> Result<Vec<ShelvedFile>, AllocError>
    ensures { IfOk result (λ v. v.items ≡ files.now) }
{
    let mut out = Vec::new(alloc);
    for file in files {
        out.push(file.copy()?)?;
    }
    Ok(out)
}
