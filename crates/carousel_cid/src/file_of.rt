//! A file of an instance.

ghost use Rattle.std.specs.Prelude.{◌≡◌, IfOk, option_map};

use compound_object::Blob;
use meta_text::Label;
use std::alloc::AllocError;

/// A file of an instance: the object that carries it, its location, its type where it has one, and
/// its bytes.
#[derive(Drop)]
pub struct FileOf {
    pub toi: u128,
    pub location: Label,
    pub kind: Option<Label>,
    pub body: Blob,
}

impl FileOf {
    /// An equal file.
    pub fn copy(&self) -> Result<FileOf, AllocError>
        ensures { IfOk result (λ r. r ≡ self.now) }
    {
        Ok(FileOf {
            toi: self.toi,
            location: self.location.copy()?,
            kind: copied_kind(&self.kind)?,
            body: self.body.copy()?,
        })
    }
}

fn copied_kind(kind: &Option<Label>) -> Result<Option<Label>, AllocError>
    ensures { IfOk result (λ r. r ≡ kind.now) }
{
    match kind {
        Some(label) => Ok(Some(label.copy()?)),
        None => Ok(None),
    }
}
