//! The folder `installed` as a shelf.

ghost use Rattle.std.specs.Prelude.{◌≡◌, ◌≤◌, OnOk, IsErrOf};
ghost use Rattle.edge_io.specs.Faults.{Rose, one_more};
ghost use Rattle.edge_io.specs.Shelved.{bare};

use crate::Failures;
use crate::folder::{begin_part, file_path, move_in, put_file, remove_part, seal_part, set_aside};
use edge_io::{Shelf, Trouble};
use std::alloc::Global;
use std::io;
use std::rt::Files;

/// The folder `installed` in the current folder. Each file stands there under its identifier in
/// decimal, and the manifest as `manifest`. Nothing is told of it.
///
/// A part is put together in the folder `installed.part` beside, and `finish` exchanges the two: so
/// `installed` holds the old instance or the whole new one. `finish` leaves no part, so a file can
/// be put only after another `begin`. `clear` is for the start and the end of a run.
#[derive(Drop)]
pub struct FolderShelf<R: Files + AllocGlobal + Clone + Drop> {
    /// The runtime, which has the files.
    pub rt: R,
    /// The folder's path.
    pub folder: &'static str,
    /// The calls that failed.
    pub failures: Failures,
}

impl<R: Files + AllocGlobal + Clone + Drop> FolderShelf<R> {
    /// The folder `installed`, as this runtime has it.
    pub fn new(rt: R) -> FolderShelf<R>
        ensures rt { result.rt ≡ rt }
        ensures failures { result.failures.count ≡ 0 }
    {
        FolderShelf {
            rt,
            folder: "installed",
            failures: Failures::none(),
        }
    }

    /// Removes what a run that was stopped left beside the folder, or a part that isn't finished.
    /// Where the stop came between the two renames, the old instance is put back. Else nothing
    /// changes.
    ///
    /// # Errors
    ///
    /// `Failed` where the device failed, and `Memory`.
    pub fn clear(&mut self) -> Result<(), Trouble>
        ensures fault { IsErrOf result Trouble.Failed → self.new.failures.count ≡ one_more self.old.failures.count }
        ensures quiet { OnOk result (self.new.failures.count ≡ self.old.failures.count) }
        ensures wants { IsErrOf result Trouble.Memory → self.new.failures.count ≡ self.old.failures.count }
    {
        let done = remove_part(&self.rt, self.folder);
        self.failures.judge(done)
    }

    /// Makes the part whole, exchanges it with what stands in the folder, and removes that.
    fn exchange(&self, manifest: &[u8]) -> io::Result<()> {
        seal_part(&self.rt, self.folder, manifest)?;
        set_aside(&self.rt, self.folder)?;
        move_in(&self.rt, self.folder)?;
        remove_part(&self.rt, self.folder)
    }
}

impl<R: Files + AllocGlobal + Clone + Drop> Shelf for FolderShelf<R> {
    ghost told = { λ _. ⊥ };

    ghost holds = { λ _. bare };

    ghost faults = { λ s. s.failures.count };

    /// Makes the part anew, without following a link. What is installed stays. Fails with everything
    /// as it was where a link or a file stands in the place of the folder or of the part, and where
    /// what a stopped run left has more than a million entries.
    fn begin(&mut self, _number: u32) -> Result<(), Trouble>
        ensures fault { IsErrOf result Trouble.Failed → self.new.failures.count ≡ one_more self.old.failures.count }
        ensures quiet { OnOk result (self.new.failures.count ≡ self.old.failures.count) }
        ensures wants { IsErrOf result Trouble.Memory → self.new.failures.count ≡ self.old.failures.count }
        ensures rose { IsErrOf result Trouble.Failed → Rose self.old.failures.count self.new.failures.count }
        ensures grows { self.old.failures.count ≤ self.new.failures.count }
    {
        let done = begin_part(&self.rt, self.folder);
        self.failures.judge(done)
    }

    /// Leaves no file where it fails.
    fn put(&mut self, toi: u128, body: &[u8]) -> Result<(), Trouble>
        ensures fault { IsErrOf result Trouble.Failed → self.new.failures.count ≡ one_more self.old.failures.count }
        ensures quiet { OnOk result (self.new.failures.count ≡ self.old.failures.count) }
        ensures wants { IsErrOf result Trouble.Memory → self.new.failures.count ≡ self.old.failures.count }
        ensures rose { IsErrOf result Trouble.Failed → Rose self.old.failures.count self.new.failures.count }
        ensures grows { self.old.failures.count ≤ self.new.failures.count }
    {
        let alloc = self.rt.alloc();
        let name = format!(in alloc; "{toi}")?;
        let path = file_path(&self.rt, self.folder, name.as_str())?;
        let done = put_file(&self.rt, path.as_str(), body);
        self.failures.judge(done)
    }

    /// Where it fails what is installed is the old instance, or the whole new one where only the old
    /// one couldn't be removed.
    fn finish(&mut self, manifest: &[u8]) -> Result<(), Trouble>
        ensures fault { IsErrOf result Trouble.Failed → self.new.failures.count ≡ one_more self.old.failures.count }
        ensures quiet { OnOk result (self.new.failures.count ≡ self.old.failures.count) }
        ensures wants { IsErrOf result Trouble.Memory → self.new.failures.count ≡ self.old.failures.count }
        ensures rose { IsErrOf result Trouble.Failed → Rose self.old.failures.count self.new.failures.count }
        ensures grows { self.old.failures.count ≤ self.new.failures.count }
    {
        let done = self.exchange(manifest);
        self.failures.judge(done)
    }
}
