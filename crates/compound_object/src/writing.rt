//! The bytes of a compound object.

ghost use Rattle.std.specs.Prelude.{◌≡◌, ◌≤◌, ◌++◌, ◌∷◌, [], length, Ok, IfOk, OnOk};
ghost use Rattle.meta_text.specs.Fields.{written};
ghost use Rattle.compound_object.specs.Object.{first_byte, layout, object_bytes, SpellsObject};
ghost use Rattle.compound_object.specs.Reading.{reading};
ghost use Rattle.meta_text.specs.Reading as fields_specs;

use crate::sums::checksum;
use meta_text::Fields;
use std::alloc::{AllocError, Global};

/// The object of these fields and this body, a descriptor or a file: version 0, the checksum over the
/// whole object, metadata as plain text.
pub fn write(
    alloc: Global,
    descriptor: bool,
    fields: &Fields,
    body: &[u8],
) -> Result<Vec<u8>, AllocError>
    requires { length (written fields.now) ≤ 4294967287 }
    ensures bytes { IfOk result (λ v. v.items ≡ object_bytes descriptor fields.now body.now) }
    ensures spells { IfOk result (λ v. SpellsObject v.items descriptor fields.now body.now) }
    ensures read_again { IfOk result (λ v. reading v.items ≡ Ok (record { descriptor = descriptor; fields = fields.now; body = body.now })) }
{
    let mut object = unsummed(alloc, descriptor, fields, body)?;
    let sum = checksum(&object).to_be_bytes();
    object[2] = sum[0];
    object[3] = sum[1];
    Ok(object)
}

/// The object with 0 in place of its checksum.
fn unsummed(
    alloc: Global,
    descriptor: bool,
    fields: &Fields,
    body: &[u8],
) -> Result<Vec<u8>, AllocError>
    requires { length (written fields.now) ≤ 4294967287 }
    ensures object { IfOk result (λ v. v.items ≡ layout (first_byte descriptor) 0 (written fields.now) body.now) }
    ensures fields { OnOk result (fields_specs.reading (written fields.now) ≡ Ok fields.now) }
{
    let header_length = 8 + fields.written_len();
    let body_start = header_length.div_ceil(4) * 4;
    let mut object = Vec::with_capacity(alloc, body_start.saturating_add(body.len()))?;
    object.extend_from_slice(&[if descriptor { 3 } else { 2 }, 0, 0, 0])?;
    object.extend_from_slice(&(header_length as u32).to_be_bytes())?;
    fields.write_to(&mut object)?;
    object.resize(body_start, 0)?;
    object.extend_from_slice(body)?;
    Ok(object)
}
