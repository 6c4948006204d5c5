//! A carousel instance with its files.

ghost use Rattle.std.specs.Prelude.{◌≡◌, IfOk};
ghost use Rattle.carousel_cid.specs.Instances.{IsListed};

use crate::{FileList, Identifiers};
use std::alloc::AllocError;
use std::marker::Model;

/// A carousel instance: its number, the object of its descriptor, the identifiers that this lists,
/// each once, and their files in that order (RFC 6968, section 3.2).
#[derive(Drop)]
pub struct Instance {
    pub number: u32,
    pub descriptor_toi: u128,
    pub listed: Identifiers,
    pub files: FileList,
}

impl Model for Instance {
    ghost use Rattle.carousel_cid.specs.Instances.{Shown, IsListed};

    ghost Value = { Shown };

    ghost view = { λ a. record { number = a.number; descriptor_toi = a.descriptor_toi; listed = a.listed; files = a.files } };

    ghost invariant = { λ a. IsListed a.listed a.files };
}

impl Instance {
    /// An instance of these parts. The listed identifiers differ, and the files carry them in order.
    pub fn new(number: u32, descriptor_toi: u128, listed: Identifiers, files: FileList) -> Instance
        requires { IsListed listed files }
        ensures { result ≡ record { number = number; descriptor_toi = descriptor_toi; listed = listed; files = files } }
    {
        Instance {
            number,
            descriptor_toi,
            listed,
            files,
        }
    }

    /// An equal instance.
    pub fn copy(&self) -> Result<Instance, AllocError>
        ensures { IfOk result (λ r. r ≡ self.now) }
    {
        Ok(Instance {
            number: self.number,
            descriptor_toi: self.descriptor_toi,
            listed: self.listed.copy()?,
            files: self.files.copy()?,
        })
    }
}
