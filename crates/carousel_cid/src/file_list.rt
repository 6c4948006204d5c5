//! The list of an instance's files.

ghost use Rattle.std.specs.Prelude.{◌≡◌, IfOk};

use crate::FileOf;
use std::alloc::{AllocError, Global};
use std::marker::Model;

/// The files of an instance, in its descriptor's order.
#[derive(Drop)]
pub struct FileList {
    items: Vec<FileOf>,
}

impl Model for FileList {
    ghost use Rattle.std.specs.Prelude.{List};
    ghost use Rattle.carousel_cid.specs.declared.file_of.FileOf.{FileOf};

    ghost Value = { List FileOf };

    ghost view = { λ a. a.items.items };
}

impl FileList {
    /// A list of these files.
    pub fn new(items: Vec<FileOf>) -> FileList
        ensures { result ≡ items.items }
    {
        FileList { items }
    }

    /// The files.
    pub fn as_slice(&self) -> &[FileOf]
        ensures { result.now ≡ self.now }
    {
        self.items.as_slice()
    }

    /// The files, which takes no memory.
    pub fn into_vec(self) -> Vec<FileOf>
        ensures { result.items ≡ self }
    {
        self.items
    }

    /// An equal list.
    pub fn copy(&self) -> Result<FileList, AllocError>
        ensures { IfOk result (λ r. r ≡ self.now) }
    {
        let alloc = *self.items.allocator();
        Ok(FileList::new(copied(alloc, self.items.as_slice())?))
    }
}

fn copied(alloc: Global, files: &[FileOf]) -> Result<Vec<FileOf>, AllocError>
    ensures { IfOk result (λ v. v.items ≡ files.now) }
{
    let mut out = Vec::new(alloc);
    for file in files {
        out.push(file.copy()?)?;
    }
    Ok(out)
}
