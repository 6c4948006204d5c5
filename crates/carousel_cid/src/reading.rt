//! What an object is: a file, a descriptor, or neither.

ghost use Rattle.std.specs.Prelude.{◌≡◌, ◌≢◌, ◌↔◌, ◌^◌, ◌<◌, ℕ, List, [], Option, Some, None, IsOk, IfOk, OnOk, OnErr, IfErr, MatchOption, true, unwrap_or};
ghost use Rattle.std.specs.Option.{option_copied};
ghost use Rattle.compound_object.specs.Reading.{parts_of, reading};
ghost use Rattle.compound_object.specs.declared.fault.CompoundFault.TheVariants as faults;
ghost use Rattle.carousel_cid.specs.File.{ReadsFile};
ghost use Rattle.carousel_cid.specs.Descriptor.{ReadsDescriptor};
ghost use Rattle.carousel_cid.specs.Repeats.{are_different, first_places};
ghost use Rattle.carousel_cid.specs.KnownFields as names;
ghost use Rattle.carousel_cid.specs.KnownFields.{is_known_twice, value_of};
ghost use Rattle.carousel_cid.specs.Listing.{texts_in, identifiers_in};
ghost use Rattle.carousel_cid.specs.Causes as causes;
ghost use Rattle.carousel_cid.specs.Kinds as kinds;
ghost use Rattle.carousel_cid.specs.Kinds.{kind_of_parts, kind_of_object, kind_unless, file_in, descriptor_in, code_of, IsUsable};

use crate::list::read_list;
use crate::number::{number_below, writes_number};
use crate::{Cause, Kind, Listed};
use compound_object::{Blob, Compound, CompoundFault};
use meta_text::{Field, Fields, Label};
use std::alloc::{AllocError, Global};

/// The names of the known fields.
pub(crate) const LOCATION: &str = "Content-Location";

pub(crate) const TYPE: &str = "Content-Type";

pub(crate) const LENGTH: &str = "Content-Length";

pub(crate) const NUMBER: &str = "Fcast-CID-ID";

const COMPLETE: &str = "Fcast-CID-Complete";

/// What the object with these bytes is.
pub fn kind_of(alloc: Global, bytes: &[u8]) -> Result<Kind, AllocError>
    ensures kind { IfOk result (λ k. k ≡ kind_of_object bytes.now) }
    // It is told as a file exactly where it is one, and as a descriptor exactly where it is one.
    ensures file { (location : List ℕ) (kind : Option (List ℕ)) (body : List ℕ)
        → IfOk result (λ k. (k ≡ Kind.File location kind body) ↔ ReadsFile bytes.now location kind body) }
    ensures descriptor { (number : ℕ) (listed : List ℕ)
        → IfOk result (λ k. (k ≡ Kind.Descriptor number listed) ↔ ReadsDescriptor bytes.now number listed) }
    // What a descriptor lists differs.
    ensures listed { (number : ℕ) (listed : List ℕ) → IfOk result (λ k. k ≡ Kind.Descriptor number listed → are_different listed ≡ true) }
    // Memory runs out at a compound object alone.
    ensures memory { OnErr result (IsOk (reading bytes.now)) }
{
    kind_read(alloc, bytes)
}

#[tactic(auto, unfolding(crate::specs::Kinds::kind_of_object))]
fn kind_read(alloc: Global, bytes: &[u8]) -> Result<Kind, AllocError>
    ensures kind { IfOk result (λ k. k ≡ kind_of_object bytes.now) }
    ensures memory { OnErr result (IsOk (reading bytes.now)) }
{
    match compound_object::read(alloc, bytes) {
        Ok(compound) => classify(alloc, &compound),
        Err(fault) => match code(fault) {
            Some(code) => Ok(Kind::Unusable(Cause::Compound(code))),
            None => Err(AllocError),
        },
    }
}

/// The code of a fault; want of memory has none.
fn code(fault: CompoundFault) -> Option<u8>
    ensures { MatchOption result (fault ≡ faults.Memory) (λ n. (n ≡ code_of fault) × (fault ≢ faults.Memory)) }
{
    match fault {
        CompoundFault::Short => Some(1),
        CompoundFault::Version => Some(2),
        CompoundFault::HeaderLength => Some(3),
        CompoundFault::Format => Some(4),
        CompoundFault::Gzip => Some(5),
        CompoundFault::FillNotZero => Some(6),
        CompoundFault::Checksum { .. } => Some(7),
        CompoundFault::Fields(_) => Some(8),
        CompoundFault::Memory => None,
    }
}

/// What an object with these parts is. Memory is taken only where nothing is wrong with it.
pub fn classify(alloc: Global, compound: &Compound<'_>) -> Result<Kind, AllocError>
    ensures kind { IfOk result (λ kind. kind ≡ kind_of_parts (parts_of compound.now)) }
    ensures memory { OnErr result (IsUsable (kind_of_parts (parts_of compound.now))) }
{
    let fields = &compound.fields;
    if is_known_twice(fields) {
        return Ok(Kind::Unusable(Cause::KnownTwice));
    }
    if differs_from(compound.body.len(), value(fields, LENGTH)) {
        return Ok(Kind::Unusable(Cause::LengthDiffers));
    }
    if compound.descriptor {
        descriptor(alloc, fields, compound.body)
    } else {
        file(alloc, fields, compound.body)
    }
}

#[tactic(auto, unfolding(crate::specs::KnownFields::is_known_twice))]
fn is_known_twice(fields: &Fields) -> bool
    ensures { result ≡ is_known_twice fields.now }
{
    is_twice(fields, LOCATION)
        || is_twice(fields, TYPE)
        || is_twice(fields, LENGTH)
        || is_twice(fields, NUMBER)
        || is_twice(fields, COMPLETE)
}

#[tactic(auto, unfolding(crate::specs::KnownFields::is_twice))]
fn is_twice(fields: &Fields, name: &str) -> bool
    ensures { result ≡ names.is_twice fields.now name.now }
{
    match fields.get(name) {
        Field::Absent => false,
        Field::Once(_) => false,
        Field::Twice => true,
    }
}

/// The value under a name, where one pair has it.
#[tactic(auto, unfolding(crate::specs::KnownFields::value_of))]
fn value<'a>(fields: &'a Fields, name: &str) -> Option<&'a str>
    ensures { option_copied result ≡ value_of name.now fields.now }
{
    match fields.get(name) {
        Field::Absent => None,
        Field::Once(value) => Some(value),
        Field::Twice => None,
    }
}

/// Says whether a length is stated that isn't this one.
fn differs_from(size: usize, stated: Option<&str>) -> bool
    ensures { result ≡ causes.differs_from size (option_copied stated.entry) }
{
    match stated {
        None => false,
        Some(text) => !writes_number(text.as_bytes(), size),
    }
}

/// A file with these fields and this body, or what is wrong with it.
#[tactic(auto, unfolding(crate::specs::Causes::file_fault))]
fn file(alloc: Global, fields: &Fields, body: &[u8]) -> Result<Kind, AllocError>
    ensures kind { IfOk result (λ kind. kind ≡ kind_unless (causes.file_fault fields.now) (file_in fields.now body.now)) }
    ensures memory { OnErr result (causes.file_fault fields.now ≡ None) }
{
    let location = location_in(fields);
    if location.is_empty() {
        return Ok(Kind::Unusable(Cause::NoLocation));
    }
    located_file(alloc, location, value(fields, TYPE), body)
}

/// The location that the fields say, or the empty text.
fn location_in(fields: &Fields) -> &str
    ensures { result.now ≡ unwrap_or (value_of names.location_name fields.now) [] }
{
    match value(fields, LOCATION) {
        None => "",
        Some(location) => location,
    }
}

/// The file with this location, this type and this body, each in memory of its own.
fn located_file(
    alloc: Global,
    location: &str,
    kind: Option<&str>,
    body: &[u8],
) -> Result<Kind, AllocError>
    ensures { IfOk result (λ file. file ≡ Kind.File location.now (option_copied kind.entry) body.now) }
{
    Ok(Kind::File {
        location: label(alloc, location)?,
        kind: type_label(alloc, kind)?,
        body: Blob::new(Vec::from_slice(alloc, body)?),
    })
}

fn label(alloc: Global, text: &str) -> Result<Label, AllocError>
    ensures { IfOk result (λ label. label ≡ text.now) }
{
    Ok(Label::new(String::from_str(alloc, text)?))
}

fn type_label(alloc: Global, kind: Option<&str>) -> Result<Option<Label>, AllocError>
    ensures { IfOk result (λ label. label ≡ option_copied kind.entry) }
{
    match kind {
        None => Ok(None),
        Some(text) => Ok(Some(label(alloc, text)?)),
    }
}

/// A descriptor with these fields and this body, or what is wrong with it.
fn descriptor(alloc: Global, fields: &Fields, body: &[u8]) -> Result<Kind, AllocError>
    ensures kind { IfOk result (λ kind. kind ≡ kind_unless (causes.descriptor_fault fields.now body.now) (descriptor_in fields.now body.now)) }
    ensures memory { OnErr result (causes.descriptor_fault fields.now body.now ≡ None) }
{
    match numbered_list(alloc, fields, body) {
        Err(cause) => Ok(Kind::Unusable(cause)),
        Ok((number, listed)) => Ok(Kind::Descriptor {
            number,
            listed: listed?,
        }),
    }
}

/// The number of a descriptor and the identifiers that it lists; or what is wrong with it. Memory is told of a
/// descriptor alone in which nothing is wrong.
#[tactic(auto, unfolding(crate::specs::Causes::descriptor_fault))]
fn numbered_list(
    alloc: Global,
    fields: &Fields,
    body: &[u8],
) -> Result<(u32, Result<Listed, AllocError>), Cause>
    ensures sound { OnOk result (causes.descriptor_fault fields.now body.now ≡ None) }
    ensures number { IfOk result (λ found. Some found.0 ≡ causes.number_in (value_of names.number_name fields.now)) }
    ensures listed { IfOk result (λ found. IfOk found.1 (λ v. v ≡ first_places (identifiers_in (texts_in body.now)))) }
    ensures fault { IfErr result (λ cause. causes.descriptor_fault fields.now body.now ≡ Some cause) }
{
    let text = value(fields, NUMBER);
    if text.is_none() {
        return Err(Cause::NoNumber);
    }
    let Some(number) = instance_number(text) else {
        return Err(Cause::BadNumber);
    };
    let listed = read_list(alloc, body)?;
    Ok((number, listed))
}

/// The number that a text says, where it is one of an instance.
fn instance_number(text: Option<&str>) -> Option<u32>
    ensures { result ≡ causes.number_in (option_copied text.entry) }
{
    let number = number_below(1 << 32, text?.as_bytes())?;
    Some(number as u32)
}
