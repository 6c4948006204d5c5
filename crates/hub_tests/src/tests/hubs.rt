//! Small instances, and hubs that publish them.
ghost use Rattle.std.specs.Prelude.{◌≡◌, ◌+◌, ◌-◌, ◌<◌, ◌≤◌, ◌^◌, [], length, IfOk, OnOk};
ghost use Rattle.snapshot_hub.specs.Histories.{height};

use carousel_cid::{FileList, FileOf, Identifiers, Instance};
use compound_object::Blob;
use meta_text::Label;
use snapshot_hub::{Look, Naming, Publisher};
use std::alloc::Global;
use std::sync::Wait;
use std::test::Fail;

/// A file whose bytes are the instance's number.
fn file(alloc: Global, toi: u128, number: u32) -> Result<FileOf, Fail>
    ensures { IfOk result (λ f. f.toi ≡ toi) }
{
    Ok(FileOf {
        toi,
        location: Label::new(String::from_str(alloc, "a")?),
        kind: None,
        body: Blob::new(Vec::from_slice(alloc, &number.to_be_bytes())?),
    })
}

/// An instance of this number, with two files.
fn instance(alloc: Global, number: u32) -> Result<Instance, Fail>
    ensures { IfOk result (λ i. i.number ≡ number) }
{
    let listed = vec![in alloc; 1u128, 2u128]?;
    let files = vec![in alloc; file(alloc, 1, number)?, file(alloc, 2, number)?]?;
    Ok(Instance::new(
        number,
        u128::from(number) + 3,
        Identifiers::new(listed),
        FileList::new(files),
    ))
}

/// Says whether all parts are those of one instance.
pub fn is_whole(instance: &Instance) -> bool {
    let bytes = instance.number.to_be_bytes();
    instance.descriptor_toi == u128::from(instance.number) + 3
        && instance.files.as_slice().len() == 2
        && instance
            .files
            .as_slice()
            .iter()
            .all(|file| file.body.as_slice() == bytes.as_slice())
}

/// Publishes an instance of this number.
#[tactic(auto, using(snapshot_hub::proofs::Public::last_snoc))]
pub fn publish<H: Naming, R: Wait>(
    rt: &R,
    alloc: Global,
    publisher: &mut Publisher<H>,
    number: u32,
) -> Result<(), Fail>
    requires number { height publisher.old ≤ number + 1 }
    requires room { length publisher.old < 2 ^ 32 - 1 }
    ensures height { OnOk result (height publisher.new ≡ number + 1) }
    ensures length { OnOk result (length publisher.new ≡ length publisher.old + 1) }
{
    match publisher.publish(rt, instance(alloc, number)?) {
        Ok(()) => Ok(()),
        Err((_, error)) => Err(error.into()),
    }
}

/// Publishes an instance of each number below this one.
pub fn publish_below<H: Naming, R: Wait>(
    rt: &R,
    alloc: Global,
    publisher: &mut Publisher<H>,
    count: u32,
) -> Result<(), Fail>
    requires { publisher.old ≡ [] }
{
    for number in 0..count {
        publish(rt, alloc, publisher, number)?;
    }
    Ok(())
}

/// Looks, and says which number it was shown.
pub fn seen<H: Naming>(look: Look<H>) -> (Look<H>, Option<u32>) {
    let glance = look.look();
    let number = glance.instance().map(|instance| instance.number);
    (glance.leave(), number)
}
