//! A finished instance on a shelf in memory.

ghost use Rattle.std.specs.Prelude.{◌≡◌};
ghost use Rattle.edge_io.specs.Shelved.{Finished};

use crate::ShelvedFile;
use std::marker::Model;

/// A finished instance on a shelf in memory: its number, its files and its manifest.
#[derive(Drop)]
pub struct FinishedInstance {
    number: u32,
    files: Vec<ShelvedFile>,
    manifest: Vec<u8>,
}

impl Model for FinishedInstance {
    ghost use Rattle.edge_io.specs.Shelved.{Finished};

    ghost Value = { Finished };

    ghost view = { λ a. record { number = a.number; files = a.files.items; manifest = a.manifest.items } };
}

impl FinishedInstance {
    /// The instance with this number, these files and this manifest.
    pub fn new(number: u32, files: Vec<ShelvedFile>, manifest: Vec<u8>) -> FinishedInstance
        ensures { result ≡ record { number = number; files = files.items; manifest = manifest.items } }
    {
        FinishedInstance {
            number,
            files,
            manifest,
        }
    }

    /// The number.
    pub fn number(&self) -> u32
        ensures { result ≡ self.now.number }
    {
        self.number
    }

    /// The files, in the order in which they were put.
    pub fn files(&self) -> &[ShelvedFile]
        ensures { result.now ≡ self.now.files }
    {
        self.files.as_slice()
    }

    /// The manifest.
    pub fn manifest(&self) -> &[u8]
        ensures { result.now ≡ self.now.manifest }
    {
        self.manifest.as_slice()
    }
}
