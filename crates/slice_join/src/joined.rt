//! A file that was joined from slices, or that was none.

use crate::fault::JoinFault;
use compound_object::Blob;
use meta_text::Label;

/// An entry of what is joined from an instance: a file that is no slice, or what the slices under one location make.
#[derive(Drop)]
pub struct Joined {
    /// The identifier (TOI) of the file, or of the first listed slice.
    pub toi: u128,
    pub location: Label,
    /// The type of the whole file, where it has one. A file that is broken has none.
    pub kind: Option<Label>,
    pub outcome: Outcome,
}

/// Whether the file is there.
#[derive(Drop)]
pub enum Outcome {
    /// Its bytes.
    Whole(Blob),
    /// Its slices make no file.
    Broken(JoinFault),
}
