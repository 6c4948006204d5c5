//! The objects of files and of descriptors.

ghost use Rattle.std.specs.Prelude.{◌≡◌, [], ◌≤◌, ◌<◌, ◌+◌, ◌^◌, length, Some, None, true, IfOk, OnOk, ◌++◌, unwrap_or};
ghost use Rattle.std.specs.Option.{option_copied, ForSome};
ghost use Rattle.std.specs.List.{AllByRecursion};
ghost use Rattle.std.specs.Fmt.{decimal};
ghost use Rattle.meta_text.specs.Text.{IsValue};
ghost use Rattle.meta_text.specs.Fields.{written};
ghost use Rattle.carousel_cid.specs.File.{type_fields, file_fields, file_bytes, ReadsFile};
ghost use Rattle.carousel_cid.specs.Descriptor.{descriptor_bytes, ReadsDescriptor};
ghost use Rattle.carousel_cid.specs.Descriptor as descriptors;
ghost use Rattle.carousel_cid.specs.Repeats.{are_different};
ghost use Rattle.carousel_cid.specs.Inner.Walks.{with_text};
ghost use Rattle.carousel_cid.specs.Kinds.{kind_of_object};

use crate::Kind;
use crate::reading::{LENGTH, LOCATION, NUMBER, TYPE};
use meta_text::Fields;
use std::alloc::{AllocError, Global};

/// The object of a file: its location, its type where it has one, and its body, whose length it states.
pub fn write_file(
    alloc: Global,
    location: &str,
    kind: Option<&str>,
    body: &[u8],
) -> Result<Vec<u8>, AllocError>
    requires somewhere { 0 < length location.now }
    requires location { IsValue location.now }
    requires kind { ForSome kind (λ k. IsValue k.now) }
    requires body { length body.now ≤ 16777216 }
    requires texts { length location.now + length (unwrap_or (option_copied kind) []) ≤ 16777216 }
    ensures bytes { IfOk result (λ v. v.items ≡ file_bytes location.now (option_copied kind.entry) body.now) }
    ensures spells { IfOk result (λ v. ReadsFile v.items location.now (option_copied kind.entry) body.now) }
    ensures read_again { IfOk result (λ v. kind_of_object v.items ≡ Kind.File location.now (option_copied kind.entry) body.now) }
{
    file_object(alloc, location, kind, body)
}

#[tactic(auto, unfolding(crate::specs::File::file_bytes))]
fn file_object(
    alloc: Global,
    location: &str,
    kind: Option<&str>,
    body: &[u8],
) -> Result<Vec<u8>, AllocError>
    requires location { IsValue location.now }
    requires kind { ForSome kind (λ k. IsValue k.now) }
    requires texts { length location.now + length (unwrap_or (option_copied kind) []) ≤ 16777216 }
    ensures { IfOk result (λ v. v.items ≡ file_bytes location.now (option_copied kind.entry) body.now) }
{
    let fields = file_fields(alloc, location, kind, body.len())?;
    compound_object::write(alloc, false, &fields, body)
}

/// The fields of a file whose body has this size.
fn file_fields(
    alloc: Global,
    location: &str,
    kind: Option<&str>,
    size: usize,
) -> Result<Fields, AllocError>
    requires location { IsValue location.now }
    requires kind { ForSome kind (λ k. IsValue k.now) }
    ensures { IfOk result (λ fields. fields ≡ file_fields location.now (option_copied kind.entry) size) }
{
    let length = size.to_string(alloc)?;
    let mut fields = Fields::new(alloc);
    fields.push(LOCATION, location)?;
    push_type(&mut fields, kind)?;
    fields.push(LENGTH, length.as_str())?;
    Ok(fields)
}

fn push_type(fields: &mut Fields, kind: Option<&str>) -> Result<(), AllocError>
    requires { ForSome kind (λ k. IsValue k.now) }
    ensures { OnOk result (fields.new ≡ fields.old ++ type_fields (option_copied kind.entry)) }
{
    match kind {
        None => Ok(()),
        Some(text) => fields.push(TYPE, text),
    }
}

/// The object of a descriptor: its number, and the identifiers that it lists.
pub fn write_descriptor(alloc: Global, number: u32, listed: &[u128]) -> Result<Vec<u8>, AllocError>
    requires few { length listed.now ≤ 4096 }
    requires different { are_different listed.now ≡ true }
    requires small { AllByRecursion (λ toi. toi < 2 ^ 112) listed.now }
    ensures bytes { IfOk result (λ v. v.items ≡ descriptor_bytes number listed.now) }
    ensures spells { IfOk result (λ v. ReadsDescriptor v.items number listed.now) }
    ensures read_again { IfOk result (λ v. kind_of_object v.items ≡ Kind.Descriptor number listed.now) }
{
    descriptor_object(alloc, number, listed)
}

#[tactic(auto, unfolding(crate::specs::Descriptor::descriptor_bytes))]
fn descriptor_object(alloc: Global, number: u32, listed: &[u128]) -> Result<Vec<u8>, AllocError>
    ensures { IfOk result (λ v. v.items ≡ descriptor_bytes number listed.now) }
{
    let text = number.to_string(alloc)?;
    let mut fields = Fields::new(alloc);
    fields.push(NUMBER, text.as_str())?;
    let list = list_text(alloc, listed)?;
    compound_object::write(alloc, true, &fields, &list)
}

fn list_text(alloc: Global, listed: &[u128]) -> Result<Vec<u8>, AllocError>
    ensures { IfOk result (λ v. v.items ≡ descriptors.list_text listed.now) }
{
    let mut list = Vec::new(alloc);
    for toi in listed {
        push_identifier(&mut list, *toi)?;
    }
    Ok(list)
}

/// A list with an identifier more.
fn push_identifier(list: &mut Vec<u8>, toi: u128) -> Result<(), AllocError>
    ensures { OnOk result (list.new.items ≡ with_text list.old.items (decimal toi)) }
{
    if !list.is_empty() {
        list.push(b',')?;
    }
    let alloc = *list.allocator();
    list.extend_from_slice(toi.to_string(alloc)?.as_bytes())?;
    Ok(())
}
