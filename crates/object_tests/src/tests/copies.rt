//! Instances that are copied.

use super::same::same;
use carousel_cid::{FileList, FileOf, Identifiers, Instance};
use compound_object::Blob;
use meta_text::Label;
use std::alloc::{AllocError, Global};
use std::process::Abort;
use std::test::Fail;

/// Instance 7 of object 3, with one file, of object 5; without a type where `kind` is empty.
fn with_one_file(alloc: Global, kind: &str) -> Result<Instance, AllocError> {
    let kind = if kind.is_empty() {
        None
    } else {
        Some(Label::new(kind.to_string(alloc)?))
    };
    let file = FileOf {
        toi: 5,
        location: Label::new("a/b".to_string(alloc)?),
        kind,
        body: Blob::new(Vec::from_slice(alloc, b"hi")?),
    };
    let listed = Identifiers::new(vec![in alloc; 5u128]?);
    let files = FileList::new(vec![in alloc; file]?);
    Ok(Instance::new(7, 3, listed, files))
}

/// It is the file of that instance.
fn is_that_file(file: &FileOf, kind: &str) -> bool {
    let kind_is = match &file.kind {
        Some(label) => label.as_str() == kind,
        None => kind.is_empty(),
    };
    file.toi == 5
        && file.location.as_str() == "a/b"
        && kind_is
        && file.body.as_slice() == b"hi".as_slice()
}

/// Asserts the parts of that instance.
fn check_instance(rt: &impl Abort, instance: &Instance, kind: &str, row: u32) {
    same(rt, &instance.number, &7, row);
    same(rt, &instance.descriptor_toi, &3, row);
    same(rt, &instance.listed.as_slice(), &[5].as_slice(), row);
    same(rt, &instance.files.as_slice().len(), &1, row);
    for file in instance.files.as_slice() {
        same(rt, &is_that_file(file, kind), &true, row);
    }
}

#[test]
fn copies(rt: HostRuntime) -> Result<(), Fail> {
    for (row, kind) in [(1, ""), (2, "text/plain")] {
        let copy = with_one_file(rt.alloc(), kind)?.copy()?;
        check_instance(&rt, &copy, kind, row);
    }
    Ok(())
}
