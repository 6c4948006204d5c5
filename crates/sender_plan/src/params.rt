//! How a catalog is sent, and whether it can be.

ghost use Rattle.std.specs.Prelude.{◌≡◌, ◌≢◌, ◌≤◌, None, Some, length, OnOk, IfErr, option_map};
ghost use Rattle.wire_bytes.specs.FirstFault.{first_fault};
ghost use Rattle.sender_plan.specs.declared.fault.PlanFault.TheVariants.{Memory};
ghost use Rattle.sender_plan.specs.CatalogInstance.{most_instances};
ghost use Rattle.sender_plan.specs.Check as specs;
ghost use Rattle.sender_plan.specs.Check.{check_faults};

use crate::catalog::{Catalog, CatalogInstance};
use crate::fault::PlanFault;

/// How many files an instance may have, repeats counted.
const MOST_FILES: usize = 4096;

/// How a session is sent.
#[derive(Clone, Copy, Debug, PartialEq, Eq)]
pub struct Params {
    /// The session's identifier (TSI).
    pub tsi: u32,
    /// E, the bytes of an encoding symbol.
    pub symbol: u16,
    /// B, the most source symbols of a block.
    pub max_block: u8,
    /// The most encoding symbols of a block.
    pub max_n: u8,
    /// How many times each instance is sent.
    pub cycles: u16,
}

/// What refuses a catalog under these parameters, before its files are read: the first of `NumberNotRising`,
/// `TooManyFiles` and `Params` that holds. It takes no memory.
pub fn check(catalog: &Catalog, params: &Params) -> Result<(), PlanFault>
    ensures ok { OnOk result (first_fault (check_faults catalog.now params.now) ≡ None) }
    ensures err { IfErr result (λ fault. first_fault (check_faults catalog.now params.now) ≡ Some fault) }
    ensures memory { IfErr result (λ fault. fault ≢ Memory) }
    ensures few { length catalog.now ≤ most_instances }
{
    let instances = catalog.as_slice();
    if let Some(at) = not_rising(instances) {
        return Err(PlanFault::NumberNotRising { at });
    }
    if let Some(at) = too_many(instances) {
        return Err(PlanFault::TooManyFiles { at });
    }
    if params.max_n < params.max_block {
        return Err(PlanFault::Params);
    }
    Ok(())
}

/// The place of the first instance whose number isn't above the one before.
fn not_rising(instances: &[CatalogInstance]) -> Option<u64>
    ensures { result ≡ specs.not_rising 1 None instances.now }
{
    let mut before: Option<u32> = None;
    let mut at: u64 = 0;
    for instance in instances {
        at += 1;
        if is_within(instance.number, before) {
            return Some(at);
        }
        before = Some(instance.number);
    }
    None
}

/// A number that isn't above the one before, where there is one.
fn is_within(number: u32, before: Option<u32>) -> bool
    ensures { result ≡ specs.is_within number before }
{
    match before {
        Some(before) => number <= before,
        None => false,
    }
}

/// The place of the first instance with too many files.
fn too_many(instances: &[CatalogInstance]) -> Option<u64>
    ensures { result ≡ specs.too_many 1 instances.now }
{
    let mut at: u64 = 0;
    for instance in instances {
        at += 1;
        if instance.items.len() > MOST_FILES {
            return Some(at);
        }
    }
    None
}
