//! Slices that are joined, and those that make no file.

use super::files::{Says, body, one, three};
use super::same::same;
use carousel_cid::Instance;
use meta_text::Label;
use slice_join::{JoinFault, Joined, Outcome, cut, join};
use std::alloc::Global;
use std::process::Abort;
use std::test::Fail;

/// The bytes that were joined, or why there are none.
fn outcome(joined: &Joined) -> Result<&[u8], JoinFault> {
    match &joined.outcome {
        Outcome::Whole(body) => Ok(body.as_slice()),
        Outcome::Broken(fault) => Err(*fault),
    }
}

fn text(label: &Option<Label>) -> Option<&str> {
    match label {
        None => None,
        Some(label) => Some(label.as_str()),
    }
}

/// Asserts that an instance gives one entry: its identifier, its type, and its bytes or what is wrong.
fn check_one(
    rt: &impl Abort,
    alloc: Global,
    instance: &Instance,
    toi: u128,
    kind: Option<&str>,
    wanted: Result<&[u8], JoinFault>,
    row: u32,
) -> Result<(), Fail> {
    let found = join(alloc, instance)?;
    same(rt, &found.len(), &1, row);
    for joined in found.as_slice() {
        same(rt, &joined.toi, &toi, row);
        same(rt, &joined.location.as_str(), &"a", row);
        same(rt, &text(&joined.kind), &kind, row);
        same(rt, &outcome(joined), &wanted, row);
    }
    Ok(())
}

/// An instance of three slices under one location, each with this type.
fn slices(alloc: Global, kind: &str, says: [Says; 3]) -> Result<Instance, Fail> {
    let [first, second, third] = says;
    let first = body(alloc, first)?;
    let second = body(alloc, second)?;
    let third = body(alloc, third)?;
    three(
        alloc,
        ("a", Some(kind), &first),
        ("a", Some(kind), &second),
        ("a", Some(kind), &third),
    )
}

#[test]
fn whole_in_any_order(rt: HostRuntime) -> Result<(), Fail> {
    let (he, ll, o): (Says, Says, Says) = ((1, 3, 5, b"he"), (2, 3, 5, b"ll"), (3, 3, 5, b"o"));
    let orders = [
        (1, [he, ll, o]),
        (2, [he, o, ll]),
        (3, [ll, he, o]),
        (4, [ll, o, he]),
        (5, [o, he, ll]),
        (6, [o, ll, he]),
    ];
    for (row, says) in orders {
        let instance = slices(rt.alloc(), "fcast-slice;text/plain", says)?;
        check_one(
            &rt,
            rt.alloc(),
            &instance,
            1,
            Some("text/plain"),
            Ok(b"hello"),
            row,
        )?;
    }
    Ok(())
}

#[test]
fn faults(rt: HostRuntime) -> Result<(), Fail> {
    let cases: [(u32, [Says; 3], JoinFault); 10] = [
        (
            11,
            [(1, 3, 3, b"a"), (0, 3, 3, b"b"), (3, 3, 3, b"c")],
            JoinFault::Header { toi: 2 },
        ),
        (
            12,
            [(1, 3, 3, b"a"), (1, 3, 3, b"b"), (4, 3, 3, b"c")],
            JoinFault::Header { toi: 3 },
        ),
        (
            13,
            [(1, 4097, 3, b"a"), (2, 4097, 3, b"b"), (3, 4097, 3, b"c")],
            JoinFault::Header { toi: 1 },
        ),
        (
            14,
            [(1, 3, 3, b"a"), (2, 3, 3, b"b"), (2, 4, 3, b"c")],
            JoinFault::Disagree { toi: 3 },
        ),
        (
            15,
            [(1, 3, 3, b"a"), (1, 3, 4, b"b"), (3, 3, 3, b"c")],
            JoinFault::Disagree { toi: 2 },
        ),
        (
            16,
            [(1, 2, 3, b"a"), (2, 2, 3, b"b"), (2, 2, 3, b"b")],
            JoinFault::Twice { place: 2 },
        ),
        (
            17,
            [(5, 5, 3, b"a"), (4, 5, 3, b"b"), (4, 5, 3, b"c")],
            JoinFault::Twice { place: 4 },
        ),
        (
            18,
            [(5, 4096, 3, b"a"), (1, 4096, 3, b"b"), (4, 4096, 3, b"c")],
            JoinFault::Missing { place: 2 },
        ),
        (
            19,
            [(1, 3, 4, b"a"), (2, 3, 4, b"b"), (3, 3, 4, b"c")],
            JoinFault::Total { found: 3 },
        ),
        (
            20,
            [(1, 3, 2, b"a"), (2, 3, 2, b"b"), (3, 3, 2, b"c")],
            JoinFault::Total { found: 3 },
        ),
    ];
    for (row, says, fault) in cases {
        let instance = slices(rt.alloc(), "fcast-slice;text/plain", says)?;
        check_one(&rt, rt.alloc(), &instance, 1, None, Err(fault), row)?;
    }
    Ok(())
}

/// A body that is too short is told before a place that comes twice, and the types of the slices have to be one.
#[test]
fn short_bodies_and_types(rt: HostRuntime) -> Result<(), Fail> {
    let alloc = rt.alloc();
    let first = body(alloc, (1, 2, 2, b"a"))?;
    let second = body(alloc, (2, 2, 2, b"b"))?;
    let slice = ("a", Some("fcast-slice"), first.as_slice());
    let cut_off: &[u8] = b"\0\0\0\x01\0\0\0\x02\0\0\0\0\0\0\0";
    let short = ("a", Some("fcast-slice"), cut_off);
    let other = ("a", Some("fcast-slice;"), second.as_slice());
    let bad = three(alloc, slice, slice, short)?;
    let fault = JoinFault::Header { toi: 3 };
    check_one(&rt, alloc, &bad, 1, None, Err(fault), 31)?;
    let bad = three(alloc, slice, other, other)?;
    let fault = JoinFault::Disagree { toi: 2 };
    check_one(&rt, alloc, &bad, 1, None, Err(fault), 32)
}

#[test]
fn single_files(rt: HostRuntime) -> Result<(), Fail> {
    let alloc = rt.alloc();
    let empty = body(alloc, (1, 1, 0, b""))?;
    let full = body(alloc, (1, 1, 2, b"x"))?;
    let cases: [(u32, &str, &[u8], Option<&str>, Result<&[u8], JoinFault>); 4] = [
        (41, "fcast-slice;", &empty, Some(""), Ok(b"")),
        (42, "fcast-slice", &empty, None, Ok(b"")),
        (
            43,
            "fcast-slice",
            &full,
            None,
            Err(JoinFault::Total { found: 1 }),
        ),
        (44, "fcast-slices", b"hi", Some("fcast-slices"), Ok(b"hi")),
    ];
    for (row, kind, bytes, wanted_kind, wanted) in cases {
        let instance = one(alloc, ("a", Some(kind), bytes))?;
        check_one(&rt, alloc, &instance, 7, wanted_kind, wanted, row)?;
    }
    Ok(())
}

/// A file under the location of slices, but with another type, is an entry by itself; entries stand in the order of
/// their first files.
#[test]
fn entries_in_order(rt: HostRuntime) -> Result<(), Fail> {
    let alloc = rt.alloc();
    let first = body(alloc, (1, 2, 2, b"a"))?;
    let second = body(alloc, (2, 2, 2, b"b"))?;
    let instance = three(
        alloc,
        ("a", Some("fcast-slice"), &second),
        ("a", None, &first),
        ("a", Some("fcast-slice"), &first),
    )?;
    let found = join(alloc, &instance)?;
    let wanted: [(u32, u128, Result<&[u8], JoinFault>); 2] = [
        (51, 1, Ok(b"ab")),
        (52, 2, Ok(first.as_slice())),
    ];
    same(&rt, &found.len(), &2, 50);
    for (joined, (row, toi, bytes)) in found.iter().zip(wanted) {
        same(&rt, &joined.toi, &toi, row);
        same(&rt, &outcome(joined), &bytes, row);
    }
    Ok(())
}

#[test]
fn cut_and_joined(rt: HostRuntime) -> Result<(), Fail> {
    let alloc = rt.alloc();
    let pieces = cut(alloc, None, b"hello", 2)?;
    let [first, second, third] = pieces.as_slice() else {
        return Err(Fail::from("three pieces"));
    };
    let instance = three(
        alloc,
        ("a", Some(third.kind.as_str()), third.body.as_slice()),
        ("a", Some(first.kind.as_str()), first.body.as_slice()),
        ("a", Some(second.kind.as_str()), second.body.as_slice()),
    )?;
    check_one(&rt, alloc, &instance, 1, None, Ok(b"hello"), 61)
}
