//! The names of a catalog's files.

ghost use Rattle.std.specs.Prelude.{◌≡◌, [], map, IfOk, OnOk};
ghost use Rattle.std.specs.Str.{bytes_eq};
ghost use Rattle.sender_plan.specs.Names.{item_names, names_of};
ghost use Rattle.sender_plan.specs.Inner.Sets.{added_all};

use crate::catalog::{CatalogInstance, CatalogItem};
use indexmap::IndexSet;
use meta_text::Label;
use std::alloc::{AllocError, Global};

/// The names of the files of these instances, in the order of first appearance.
pub(crate) fn name_set<'a>(
    alloc: Global,
    instances: &'a [CatalogInstance],
) -> Result<IndexSet<&'a str>, AllocError>
    ensures { IfOk result (λ set. map (λ k. k.now) set.keys ≡ names_of instances.now) }
{
    let mut set = IndexSet::new(alloc);
    for instance in instances {
        add_names(&mut set, instance.items.as_slice())?;
    }
    Ok(set)
}

/// Adds the names of files.
fn add_names<'a>(set: &mut IndexSet<&'a str>, items: &'a [CatalogItem]) -> Result<(), AllocError>
    ensures { OnOk result (map (λ k. k.now) set.new.keys ≡ added_all bytes_eq (map (λ k. k.now) set.old.keys) (item_names items.now)) }
{
    for item in items {
        set.insert(item.name.as_str())?;
    }
    Ok(())
}

/// Labels with these texts.
pub(crate) fn labels(alloc: Global, texts: &[&str]) -> Result<Vec<Label>, AllocError>
    ensures { IfOk result (λ labels. labels.items ≡ map (λ k. k.now) texts.now) }
{
    let mut labels = Vec::new(alloc);
    for text in texts {
        labels.push(Label::new(String::from_str(alloc, text)?))?;
    }
    Ok(labels)
}
