//! How far the receiver is with objects.

use super::arrivals::Content::{self, Compressed, Descriptor, File, Spoiled};
use super::arrivals::arrives;
use super::trial::{Trial, settles, stands};
use carousel_cid::Cause;
use receiver_core::Standing;
use std::process::Abort;
use std::test::Fail;

/// An object, and how it stands after a settling, which installs nothing.
type Case = (u32, Content, Standing);

/// Takes these objects. One that became ready is whole up to the next settling, and from then on it is what it is.
fn all_stand(rt: &impl Abort, trial: &mut Trial, cases: &[Case], first: u32) {
    let mut row = first;
    for (toi, content, wanted) in cases {
        arrives(rt, trial, *toi, *content, row);
        settles(rt, trial, None, row);
        stands(rt, trial, *toi, *wanted, row);
        row = row.saturating_add(1);
    }
}

#[test]
fn files_and_descriptors(rt: HostRuntime) -> Result<(), Fail> {
    let mut trial = Trial::start(rt.alloc(), 1 << 20)?;
    let cases = [
        (1, File, Standing::File),
        (2, Descriptor(4, "9"), Standing::Descriptor { number: 4 }),
    ];
    all_stand(&rt, &mut trial, &cases, 1);
    stands(&rt, &trial, 9, Standing::Unknown, 3);
    Ok(())
}

#[test]
fn unusable_objects(rt: HostRuntime) -> Result<(), Fail> {
    let mut trial = Trial::start(rt.alloc(), 1 << 20)?;
    let cases = [
        (3, Compressed, Standing::Unusable(Cause::Compound(5))),
        (4, Spoiled, Standing::Unusable(Cause::Compound(7))),
    ];
    all_stand(&rt, &mut trial, &cases, 4);
    Ok(())
}

/// Descriptors with lists that can't be used.
#[test]
fn unusable_lists(rt: HostRuntime) -> Result<(), Fail> {
    let mut trial = Trial::start(rt.alloc(), 1 << 20)?;
    let at_0 = Standing::Unusable(Cause::BadList { at: 0 });
    let at_2 = Standing::Unusable(Cause::BadList { at: 2 });
    let long = Standing::Unusable(Cause::ListTooLong);
    let cases = [
        (10, Descriptor(4, "1,"), at_2),
        (11, Descriptor(4, "3-1"), at_0),
        (12, Descriptor(4, "1,3-1"), at_2),
        (13, Descriptor(4, "0-9999999"), long),
    ];
    all_stand(&rt, &mut trial, &cases, 6);
    Ok(())
}
