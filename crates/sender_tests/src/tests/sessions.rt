//! Sessions to be sent.

ghost use Rattle.std.specs.Prelude.{◌≡◌, ◌≤◌, ◌<◌, ◌^◌, ◌-◌, All, IfOk, IsTrue, length};
ghost use Rattle.sender_plan.specs.Session as specs;
ghost use Rattle.sender_plan.specs.Session.{IsObject, IsInstance};

use compound_object::Blob;
use oti_blocks::Oti;
use sender_plan::{SentInstance, SentObject, Session};
use std::alloc::Global;
use std::test::Fail;

/// The object with this identifier and these bytes.
pub fn object(
    alloc: Global,
    toi: u128,
    bytes: &[u8],
    symbol: u16,
    max_block: u8,
    max_n: u8,
) -> Result<SentObject, Fail>
    requires number { 1 ≤ toi }
    requires symbol { symbol ≤ 65475 }
    ensures { IfOk result (λ o. IsObject (toi - 1) o) }
{
    if bytes.len() >= 1 << 48 {
        return Err(Fail::from("it is short"));
    }
    match Oti::new(bytes.len() as u64, symbol, max_block, max_n) {
        Ok(oti) => Ok(SentObject {
            toi,
            oti,
            bytes: Blob::new(Vec::from_slice(alloc, bytes)?),
        }),
        Err(_) => Err(Fail::from("it is sound")),
    }
}

/// The instance of a descriptor and these objects.
pub fn instance(
    alloc: Global,
    descriptor_toi: u128,
    listed: &[u128],
) -> Result<SentInstance, Fail> {
    Ok(SentInstance {
        number: 1,
        descriptor_toi,
        listed: Vec::from_slice(alloc, listed)?,
    })
}

/// The session of three objects and of instances that each list one of them at most.
pub fn session(
    alloc: Global,
    one: SentObject,
    two: SentObject,
    three: SentObject,
    instances: Vec<SentInstance>,
    cycles: u16,
) -> Result<Session, Fail>
    requires one { IsObject 0 one }
    requires two { IsObject 1 two }
    requires three { IsObject 2 three }
    requires cycles { 1 ≤ cycles }
{
    if !are_instances(instances.as_slice()) {
        return Err(Fail::from("they list objects"));
    }
    let mut objects = Vec::new(alloc);
    objects.push(one)?;
    objects.push(two)?;
    objects.push(three)?;
    Ok(Session::new(1, objects, instances, cycles))
}

fn are_instances(instances: &[SentInstance]) -> bool
    ensures { IsTrue result → (s : specs.Session) → 3 ≤ length s.objects → All (IsInstance s) instances.now }
{
    for i in 0..instances.len() {
        if !is_instance(&instances[i]) {
            return false;
        }
    }
    true
}

/// Whether its descriptor is one of three objects, and lists nothing or another one.
fn is_instance(instance: &SentInstance) -> bool
    ensures { IsTrue result → (s : specs.Session) → 3 ≤ length s.objects → IsInstance s instance.now }
{
    if !is_known(instance.descriptor_toi) {
        return false;
    }
    match instance.listed.as_slice() {
        [] => true,
        [toi] => is_known(*toi) && *toi != instance.descriptor_toi,
        _ => false,
    }
}

fn is_known(toi: u128) -> bool
    ensures { IsTrue result → (s : specs.Session) → 3 ≤ length s.objects → specs.HasObject s toi }
{
    1 <= toi && toi <= 3
}
