//! Files, slices and instances to join.
ghost use Rattle.std.specs.Prelude.{◌≡◌, IfOk};

use carousel_cid::{FileList, FileOf, Identifiers, Instance};
use compound_object::Blob;
use meta_text::Label;
use std::alloc::Global;
use std::test::Fail;

/// The location, the type and the body of a file.
pub type Parts<'a> = (&'a str, Option<&'a str>, &'a [u8]);

/// The place, the count, the total and the part that a slice says.
pub type Says = (u32, u32, u64, &'static [u8]);

/// The body of a slice.
pub fn body(alloc: Global, says: Says) -> Result<Vec<u8>, Fail> {
    let (place, count, total, part) = says;
    let mut body = Vec::from_slice(alloc, &place.to_be_bytes())?;
    body.extend_from_slice(&count.to_be_bytes())?;
    body.extend_from_slice(&total.to_be_bytes())?;
    body.extend_from_slice(part)?;
    Ok(body)
}

fn file(alloc: Global, toi: u128, parts: Parts<'_>) -> Result<FileOf, Fail>
    ensures { IfOk result (λ f. f.toi ≡ toi) }
{
    let (location, kind, body) = parts;
    Ok(FileOf {
        toi,
        location: Label::new(String::from_str(alloc, location)?),
        kind: label(alloc, kind)?,
        body: Blob::new(Vec::from_slice(alloc, body)?),
    })
}

fn label(alloc: Global, text: Option<&str>) -> Result<Option<Label>, Fail> {
    match text {
        None => Ok(None),
        Some(text) => Ok(Some(Label::new(String::from_str(alloc, text)?))),
    }
}

/// An instance of one file, 7.
pub fn one(alloc: Global, parts: Parts<'_>) -> Result<Instance, Fail> {
    let listed = vec![in alloc; 7u128]?;
    let files = vec![in alloc; file(alloc, 7, parts)?]?;
    Ok(Instance::new(1, 100, Identifiers::new(listed), FileList::new(files)))
}

/// An instance of three files, 1, 2 and 3.
pub fn three(
    alloc: Global,
    first: Parts<'_>,
    second: Parts<'_>,
    third: Parts<'_>,
) -> Result<Instance, Fail> {
    let listed = vec![in alloc; 1u128, 2u128, 3u128]?;
    let files = vec![in alloc;
        file(alloc, 1, first)?,
        file(alloc, 2, second)?,
        file(alloc, 3, third)?,
    ]?;
    Ok(Instance::new(1, 100, Identifiers::new(listed), FileList::new(files)))
}
