//! Sessions that are planned: the identifiers of files and descriptors, and their bytes.
ghost use Rattle.std.specs.Prelude.{◌≤◌, length, All, IfOk};
ghost use Rattle.sender_plan.specs.Session.{HasObject};

use super::same::same;
use compound_object::Blob;
use sender_plan::{Params, SentInstance, SentObject, Session, plan, read_catalog};
use std::alloc::Global;
use std::process::Abort;
use std::test::Fail;

/// Symbols of 25 bytes, blocks of two source symbols and three encoding symbols.
pub const PARAMS: Params = Params {
    tsi: 1,
    symbol: 25,
    max_block: 2,
    max_n: 3,
    cycles: 1,
};

/// Bodies of two bytes each.
fn blobs(alloc: Global, bodies: &[&[u8; 2]]) -> Result<Vec<Blob>, Fail>
    ensures { IfOk result (λ blobs. All (λ body. length body ≤ 16777216) blobs.items) }
{
    let mut blobs = Vec::new(alloc);
    for body in bodies {
        blobs.push(Blob::new(Vec::from_slice(alloc, *body)?))?;
    }
    Ok(blobs)
}

/// The session of the catalog of a short text, whose files have these bodies in the order of its names.
#[tactic(auto, using(sender_plan::proofs::Public::texts_within))]
fn planned(alloc: Global, text: &[u8], bodies: &[&[u8; 2]]) -> Result<Session, Fail> {
    if text.len() > 1000 {
        return Err(Fail::from("the text is short"));
    }
    let catalog = read_catalog(alloc, text)?;
    let bodies = blobs(alloc, bodies)?;
    if bodies.len() != catalog.names()?.len() {
        return Err(Fail::from("each name has a body"));
    }
    Ok(plan(alloc, &catalog, bodies.as_slice(), &PARAMS)?)
}

/// The number of an instance, the identifier of its descriptor, and what this lists.
type Sent<'a> = (u32, u128, &'a [u128]);

/// Asserts the parts of an instance.
fn check_instance(rt: &impl Abort, instance: &SentInstance, wanted: &Sent<'_>, row: u32) {
    same(rt, &instance.number, &wanted.0, row);
    same(rt, &instance.descriptor_toi, &wanted.1, row);
    same(rt, &instance.listed.as_slice(), &wanted.2, row);
}

/// Asserts the instances of the session that is planned.
fn check_planned(
    rt: &impl Abort,
    alloc: Global,
    text: &[u8],
    bodies: &[&[u8; 2]],
    wanted: &[Sent<'_>],
    row: u32,
) -> Result<(), Fail> {
    let session = planned(alloc, text, bodies)?;
    same(rt, &session.instances().len(), &wanted.len(), row);
    for (instance, expected) in session.instances().iter().zip(wanted) {
        check_instance(rt, instance, expected, row);
    }
    Ok(())
}

/// A file that comes again in an instance or in a later one has one object, and files that differ have different ones.
#[test]
fn identifiers_of_files_and_descriptors(rt: HostRuntime) -> Result<(), Fail> {
    let cases: [(u32, &[u8], &[&[u8; 2]], &[Sent<'_>]); 7] = [
        (
            1,
            b"instance\t1\nfile\tf\ta\ninstance\t2\nfile\tf\ta\nfile\tg\tb\n",
            &[b"hi", b"ho"],
            &[(1, 2, &[1]), (2, 4, &[1, 3])],
        ),
        (
            2,
            b"instance\t1\nfile\tf\ta\nfile\tf\tb\n",
            &[b"hi"],
            &[(1, 3, &[1, 2])],
        ),
        (
            3,
            b"instance\t1\nfile\tf\ta\tp\nfile\tf\ta\tq\n",
            &[b"hi"],
            &[(1, 3, &[1, 2])],
        ),
        (
            4,
            b"instance\t1\nfile\tf\ta\nfile\tg\ta\n",
            &[b"hi", b"hi"],
            &[(1, 2, &[1])],
        ),
        (5, b"instance\t1\n", &[], &[(1, 1, &[])]),
        (
            6,
            b"instance\t1\nfile\tf\ta\nfile\tf\ta\n",
            &[b"hi"],
            &[(1, 2, &[1])],
        ),
        (
            7,
            b"instance\t1\nfile\tx\ta\ninstance\t2\nfile\ty\ta\ninstance\t3\nfile\tx\ta\n",
            &[b"hi", b"ho"],
            &[(1, 2, &[1]), (2, 4, &[3]), (3, 5, &[1])],
        ),
    ];
    for (row, text, bodies, wanted) in cases {
        check_planned(&rt, rt.alloc(), text, bodies, wanted, row)?;
    }
    Ok(())
}

/// An object whose identifier isn't above a known one.
fn object_up_to(session: &Session, toi: u128, known: u128) -> &SentObject
    requires known { HasObject session.now known }
    requires some { 1 ≤ toi }
    requires within { toi ≤ known }
{
    session.object(toi)
}

/// The bytes of the first instance's descriptor, and of the file that this lists first.
fn first_objects(session: &Session) -> Option<(&[u8], &[u8])> {
    let instance = session.instances().first()?;
    let toi = *instance.listed.first()?;
    let descriptor = session.object(instance.descriptor_toi);
    if toi < 1 || instance.descriptor_toi < toi {
        return None;
    }
    let file = object_up_to(session, toi, instance.descriptor_toi);
    Some((descriptor.bytes.as_slice(), file.bytes.as_slice()))
}

#[test]
fn bytes_of_a_file_and_of_its_descriptor(rt: HostRuntime) -> Result<(), Fail> {
    let session = planned(rt.alloc(), b"instance\t1\nfile\tf\ta\n", &[b"hi"])?;
    let Some((descriptor, file)) = first_objects(&session) else {
        return Err(Fail::from("it lists a file"));
    };
    let wanted = b"\x03\x00\x69\xFA\x00\x00\x00\x19Fcast-CID-ID: 1\r\n\x00\x00\x001";
    same(&rt, &descriptor, &wanted.as_slice(), 10);
    let wanted = b"\x02\x00\xEE\xDF\x00\x00\x00\x30Content-Location: a\r\nContent-Length: 2\r\nhi";
    same(&rt, &file, &wanted.as_slice(), 11);
    Ok(())
}
