//! The catalog of a drill.
ghost use Rattle.std.specs.Prelude.{◌≡◌, ◌≤◌, ◌<◌, ◌+◌, IfOk};
ghost use Rattle.run_drill.specs.Drill as specs;

use meta_text::Label;
use sender_plan::{Catalog, CatalogInstance, CatalogItem};
use std::alloc::{AllocError, Global};

/// How many files a drill has.
pub const FILES: u32 = 12;

/// How many of them an instance has.
const FILES_OF_INSTANCE: u32 = 8;

/// The catalog: three instances, each without the first two files of the one before and with two more.
#[tactic(auto, unfolding(crate::specs::Drill::drill_catalog))]
pub fn drill_catalog(alloc: Global) -> Result<Catalog, AllocError>
    ensures { IfOk result (λ c. c ≡ specs.drill_catalog) }
{
    let mut instances = Vec::new(alloc);
    instances.push(instance(alloc, 1, 0)?)?;
    instances.push(instance(alloc, 2, 2)?)?;
    instances.push(instance(alloc, 3, 4)?)?;
    Ok(Catalog::new(instances))
}

/// The instance with this number and eight files, from this one on.
fn instance(alloc: Global, number: u32, first: u32) -> Result<CatalogInstance, AllocError>
    requires { first + 8 ≤ 12 }
    ensures { IfOk result (λ i. i ≡ specs.instance_from number first) }
{
    let mut instance = CatalogInstance {
        number,
        items: Vec::new(alloc),
    };
    for place in 0..FILES_OF_INSTANCE {
        instance.push(item(alloc, first + place)?)?;
    }
    Ok(instance)
}

/// A file of the catalog. Its name is its location.
fn item(alloc: Global, file: u32) -> Result<CatalogItem, AllocError>
    requires { file < 12 }
    ensures { IfOk result (λ i. i ≡ specs.item file) }
{
    let location = location(alloc, file)?;
    let name = location.copy()?;
    Ok(CatalogItem::new(name, location, None))
}

fn location(alloc: Global, file: u32) -> Result<Label, AllocError>
    ensures { IfOk result (λ l. l ≡ specs.location file) }
{
    let mut text = String::from_str(alloc, "drill/")?;
    let digits = file.to_string(alloc)?;
    text.push_str(digits.as_str())?;
    Ok(Label::new(text))
}
