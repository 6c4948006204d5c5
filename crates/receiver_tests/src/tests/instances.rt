//! Which instance is installed.

use super::arrivals::Content::{self, Compressed, Descriptor, File, Spoiled};
use super::arrivals::arrives;
use super::same::same;
use super::trial::{Trial, has, settles};
use carousel_cid::Instance;
use std::alloc::Global;
use std::process::Abort;
use std::test::Fail;

/// An instance, told by its number and its descriptor's object.
type Best = Option<(u32, u128)>;

/// An object, what a settling after it answers, and what is installed then.
type Arrival = (u32, Content, Option<u32>, Best);

/// Takes the objects, with a settling after each.
fn come_promptly(rt: &impl Abort, trial: &mut Trial, arrivals: &[Arrival], first: u32) {
    let mut row = first;
    for (toi, content, number, best) in arrivals {
        arrives(rt, trial, *toi, *content, row);
        settles(rt, trial, *number, row);
        has(rt, trial, *best, row);
        row = row.saturating_add(1);
    }
}

/// Takes the objects, and settles once after all of them.
fn come_late(rt: &impl Abort, trial: &mut Trial, arrivals: &[Arrival], row: u32, best: Best) {
    for (toi, content, _, _) in arrivals {
        arrives(rt, trial, *toi, *content, row);
    }
    let _number = trial.settle();
    has(rt, trial, best, row);
}

/// A receiver that took the objects, with a settling after each.
fn prompt(rt: &impl Abort, alloc: Global, arrivals: &[Arrival], first: u32) -> Result<Trial, Fail> {
    let mut trial = Trial::start(alloc, 1 << 20)?;
    come_promptly(rt, &mut trial, arrivals, first);
    Ok(trial)
}

/// Of these objects this instance is installed at last, however often the receiver settles. The rows count from `first`
/// on, and the receiver that settles once has the row in front of that.
fn ends_with(
    rt: &impl Abort,
    alloc: Global,
    arrivals: &[Arrival],
    first: u32,
    best: Best,
) -> Result<(), Fail> {
    let _trial = prompt(rt, alloc, arrivals, first)?;
    let mut late = Trial::start(alloc, 1 << 20)?;
    come_late(rt, &mut late, arrivals, first.saturating_sub(1), best);
    Ok(())
}

#[test]
fn two_that_share_a_file(rt: HostRuntime) -> Result<(), Fail> {
    let arrivals = [
        (3, File, None, None),
        (1, Descriptor(1, "3"), Some(1), Some((1, 1))),
        (2, Descriptor(2, "3"), Some(2), Some((2, 2))),
    ];
    ends_with(&rt, rt.alloc(), &arrivals, 11, Some((2, 2)))
}

#[test]
fn ranges_of_which_some_are_there(rt: HostRuntime) -> Result<(), Fail> {
    let arrivals = [
        (10, Descriptor(1, "5,1-3,7"), None, None),
        (3, File, None, None),
        (5, File, None, None),
        (2, File, None, None),
        (7, File, None, None),
        (11, Descriptor(2, "1-7"), None, None),
        (1, File, Some(1), Some((1, 10))),
        (9, Descriptor(1, "4"), None, Some((1, 10))),
        (4, File, Some(1), Some((1, 9))),
        (6, File, Some(2), Some((2, 11))),
    ];
    ends_with(&rt, rt.alloc(), &arrivals, 401, Some((2, 11)))
}

/// Some of those that wait are beaten by what is installed meanwhile, and their files come later.
#[test]
fn beaten_while_they_wait(rt: HostRuntime) -> Result<(), Fail> {
    let arrivals = [
        (10, Descriptor(1, "1"), None, None),
        (11, Descriptor(3, "2"), None, None),
        (12, Descriptor(2, "1"), None, None),
        (13, Descriptor(4, "2-3"), None, None),
        (20, Descriptor(2, ""), Some(2), Some((2, 20))),
        (14, Descriptor(2, "4"), None, Some((2, 20))),
        (1, File, Some(2), Some((2, 12))),
        (21, Descriptor(3, ""), Some(3), Some((3, 21))),
        (2, File, Some(3), Some((3, 11))),
        (4, File, None, Some((3, 11))),
        (3, File, Some(4), Some((4, 13))),
    ];
    ends_with(&rt, rt.alloc(), &arrivals, 421, Some((4, 13)))
}

#[test]
fn a_lower_number_later(rt: HostRuntime) -> Result<(), Fail> {
    let arrivals = [
        (1, Descriptor(3, ""), Some(3), Some((3, 1))),
        (2, Descriptor(2, ""), None, Some((3, 1))),
    ];
    ends_with(&rt, rt.alloc(), &arrivals, 21, Some((3, 1)))
}

#[test]
fn equal_numbers(rt: HostRuntime) -> Result<(), Fail> {
    let arrivals = [
        (9, Descriptor(5, ""), Some(5), Some((5, 9))),
        (4, Descriptor(5, ""), Some(5), Some((5, 4))),
        (7, Descriptor(5, ""), None, Some((5, 4))),
    ];
    ends_with(&rt, rt.alloc(), &arrivals, 31, Some((5, 4)))
}

/// Descriptors that list themselves, an object that never comes, or another descriptor.
#[test]
fn lists_that_are_never_complete(rt: HostRuntime) -> Result<(), Fail> {
    let arrivals = [
        (1, Descriptor(1, ""), Some(1), Some((1, 1))),
        (2, Descriptor(9, "2"), None, Some((1, 1))),
        (3, Descriptor(8, "77"), None, Some((1, 1))),
        (4, Descriptor(7, "1"), None, Some((1, 1))),
        (10, Descriptor(2, ""), Some(2), Some((2, 10))),
    ];
    ends_with(&rt, rt.alloc(), &arrivals, 41, Some((2, 10)))
}

#[test]
fn files_that_are_unusable(rt: HostRuntime) -> Result<(), Fail> {
    let arrivals = [
        (5, Compressed, None, None),
        (6, Descriptor(6, "5"), None, None),
        (8, Spoiled, None, None),
        (9, Descriptor(5, "8"), None, None),
        (10, Descriptor(2, ""), Some(2), Some((2, 10))),
    ];
    ends_with(&rt, rt.alloc(), &arrivals, 51, Some((2, 10)))
}

/// Whether this many files are there, each with location `a` and the body `hi`.
fn has_files(instance: &Instance, count: usize) -> bool {
    let files = instance.files.as_slice();
    files.len() == count
        && files.iter().all(|f| f.location.as_str() == "a" && f.body.as_slice() == b"hi".as_slice())
}

/// Whether the installed instance lists these objects, and has as many such files.
fn shows(trial: &Trial, listed: &[u128]) -> bool {
    match trial.instance() {
        Some(instance) => {
            instance.listed.as_slice() == listed && has_files(instance, listed.len())
        }
        None => false,
    }
}

/// An instance of four files, which come behind their descriptor.
#[test]
fn files_behind_their_descriptor(rt: HostRuntime) -> Result<(), Fail> {
    let arrivals = [
        (5, Descriptor(1, "1-3,2,7"), None, None),
        (7, File, None, None),
        (2, File, None, None),
        (1, File, None, None),
        (3, File, Some(1), Some((1, 5))),
    ];
    ends_with(&rt, rt.alloc(), &arrivals, 61, Some((1, 5)))?;
    let trial = prompt(&rt, rt.alloc(), &arrivals, 71)?;
    same(&rt, &shows(&trial, &[1, 2, 3, 7]), &true, 81);
    Ok(())
}
