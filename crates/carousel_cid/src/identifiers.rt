//! A list of object identifiers.

ghost use Rattle.std.specs.Prelude.{◌≡◌, IfOk};

use std::alloc::AllocError;
use std::marker::Model;

/// Object identifiers (TOI), in a descriptor's order.
#[derive(Drop)]
pub struct Identifiers {
    items: Vec<u128>,
}

impl Model for Identifiers {
    ghost use Rattle.std.specs.Prelude.{List, ℕ};

    ghost Value = { List ℕ };

    ghost view = { λ a. a.items.items };
}

impl Identifiers {
    /// A list of these identifiers.
    pub fn new(items: Vec<u128>) -> Identifiers
        ensures { result ≡ items.items }
    {
        Identifiers { items }
    }

    /// The identifiers.
    pub fn as_slice(&self) -> &[u128]
        ensures { result.now ≡ self.now }
    {
        self.items.as_slice()
    }

    /// The identifiers, which takes no memory.
    pub fn into_vec(self) -> Vec<u128>
        ensures { result.items ≡ self }
    {
        self.items
    }

    /// An equal list.
    pub fn copy(&self) -> Result<Identifiers, AllocError>
        ensures { IfOk result (λ r. r ≡ self.now) }
    {
        Ok(Identifiers {
            items: self.items.clone()?,
        })
    }
}
