//! What a sender sends: instances, and the files of each.

ghost use Rattle.std.specs.Prelude.{◌≡◌, ◌≤◌, ◌++◌, ◌∷◌, [], length, IfOk, OnOk, OnErr};
ghost use Rattle.sender_plan.specs.CatalogInstance.{IsItem, most_instances};
ghost use Rattle.sender_plan.specs.Names.{names_of};

use crate::names::{labels, name_set};
use meta_text::Label;
use std::alloc::AllocError;
use std::marker::Model;

/// A file of an instance. Its location isn't empty, and its location and its type are values, as `meta_text::is_value`
/// tests.
#[derive(Drop)]
pub struct CatalogItem {
    /// Its name where it lies.
    pub name: Label,
    /// Its location.
    pub location: Label,
    /// Its type, where it has one.
    pub kind: Option<Label>,
}

impl Model for CatalogItem {
    ghost use Rattle.sender_plan.specs.CatalogInstance as specs;

    ghost Value = { specs.CatalogItem };

    ghost view = { λ a. record { name = a.name; location = a.location; kind = a.kind } };

    ghost invariant = { λ a. specs.IsItem (record { name = a.name; location = a.location; kind = a.kind }) };
}

impl CatalogItem {
    /// A file with these texts.
    pub fn new(name: Label, location: Label, kind: Option<Label>) -> CatalogItem
        requires { IsItem (record { name = name; location = location; kind = kind }) }
        ensures { result ≡ record { name = name; location = location; kind = kind } }
    {
        CatalogItem {
            name,
            location,
            kind,
        }
    }
}

/// An instance of a catalog.
#[derive(Drop)]
pub struct CatalogInstance {
    /// Its number.
    pub number: u32,
    /// Its files, in order.
    pub items: Vec<CatalogItem>,
}

impl Model for CatalogInstance {
    ghost use Rattle.sender_plan.specs.CatalogInstance as specs;

    ghost Value = { specs.CatalogInstance };

    ghost view = { λ a. record { number = a.number; items = a.items.items } };
}

impl CatalogInstance {
    /// Adds a file at the end. Without memory for it, the instance is as it was.
    pub fn push(&mut self, item: CatalogItem) -> Result<(), AllocError>
        ensures ok { OnOk result (self.new ≡ record { number = self.old.number; items = self.old.items ++ item ∷ [] }) }
        ensures err { OnErr result (self.new ≡ self.old) }
    {
        self.items.push(item)?;
        Ok(())
    }
}

/// The instances of a sender, at most 256, in order.
#[derive(Drop)]
pub struct Catalog {
    instances: Vec<CatalogInstance>,
}

impl Model for Catalog {
    ghost use Rattle.std.specs.Prelude.{List, length, ◌≤◌};
    ghost use Rattle.sender_plan.specs.CatalogInstance as specs;

    ghost Value = { List specs.CatalogInstance };

    ghost view = { λ a. a.instances.items };

    ghost invariant = { λ a. length a.instances.items ≤ specs.most_instances };
}

impl Catalog {
    /// A catalog of these instances.
    pub fn new(instances: Vec<CatalogInstance>) -> Catalog
        requires { length instances.items ≤ most_instances }
        ensures { result ≡ instances.items }
    {
        Catalog { instances }
    }

    /// The instances.
    pub fn as_slice(&self) -> &[CatalogInstance]
        ensures instances { result.now ≡ self.now }
        ensures few { length self.now ≤ most_instances }
    {
        self.instances.as_slice()
    }

    /// The names of the files, each once, in the order of first appearance.
    pub fn names(&self) -> Result<Vec<Label>, AllocError>
        ensures { IfOk result (λ names. names.items ≡ names_of self.now) }
    {
        let alloc = *self.instances.allocator();
        labels(alloc, name_set(alloc, self.as_slice())?.as_slice())
    }
}
