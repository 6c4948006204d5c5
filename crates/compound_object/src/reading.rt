//! A compound object read from its bytes, or the first fault that holds.

ghost use Rattle.std.specs.Prelude.{ℕ, Bool, List, Ok, IsOk, ◌≡◌, ◌≢◌, ◌≤◌, ◌<◌, ◌^◌, ◌==◌, length, Some, None, OnOk, IfOk, IfErr};
ghost use Rattle.compound_object.specs.Checksum.{checksum};
ghost use Rattle.meta_text.specs.Fields.{Pair};
ghost use Rattle.compound_object.specs.Object as objects;
ghost use Rattle.compound_object.specs.Object.{SpellsObject};
ghost use Rattle.meta_text.specs.Reading as metadata_specs;
ghost use Rattle.compound_object.specs.Reading as specs;
ghost use Rattle.compound_object.specs.Reading.{without_sum, refusal, reading, Gives, GivesFields};

use crate::compound::Compound;
use crate::fault::CompoundFault;
use crate::sums::sum_from;
use byteorder::{BigEndian, ByteOrder};
use meta_text::{FieldFault, Fields};
use std::alloc::Global;
use wire_bytes::is_zero;

/// Reads a compound object; its body stays where it is.
///
/// The faults come in the order of their list: the first cause that holds.
pub fn read(alloc: Global, bytes: &[u8]) -> Result<Compound<'_>, CompoundFault>
    // What is read is spelled so, each byte of it.
    ensures spells { IfOk result (λ c. SpellsObject bytes.now c.descriptor c.fields c.body.now) }
    // What is spelled so is read, unless memory runs out.
    ensures only { (descriptor : Bool) (fields : List Pair) (body : List ℕ) → SpellsObject bytes.now descriptor fields body
        → Gives result (Ok (record { descriptor = descriptor; fields = fields; body = body })) }
    // Which fault it is.
    ensures exact { Gives result (reading bytes.now) }
    // Memory runs out at an object alone.
    ensures memory { IfErr result (λ e. e ≡ CompoundFault.Memory → IsOk (reading bytes.now)) }
{
    unpack(alloc, bytes)
}

fn unpack(alloc: Global, bytes: &[u8]) -> Result<Compound<'_>, CompoundFault>
    ensures reading { Gives result (reading bytes.now) }
    ensures memory { IfErr result (λ e. e ≡ CompoundFault.Memory → IsOk (reading bytes.now)) }
{
    let header_length = sound_header(bytes)?;
    let fields = fields_of(alloc, &bytes[8..header_length])?;
    Ok(Compound {
        descriptor: bytes[0] % 2 == 1,
        fields,
        body: &bytes[rounded(header_length)..],
    })
}

/// The header's length, where nothing before the metadata is wrong.
fn sound_header(bytes: &[u8]) -> Result<usize, CompoundFault>
    ensures sound { OnOk result (refusal bytes.now ≡ None) }
    ensures length { IfOk result (λ h. h ≡ specs.header_length bytes.now) }
    ensures least { IfOk result (λ h. 8 ≤ h) }
    ensures most { IfOk result (λ h. h < 2 ^ 32) }
    ensures within { OnOk result (specs.body_start bytes.now ≤ length bytes.now) }
    ensures fault { IfErr result (λ e. refusal bytes.now ≡ Some e) }
    ensures memory { IfErr result (λ e. e ≢ CompoundFault.Memory) }
{
    if bytes.len() < 8 {
        return Err(CompoundFault::Short);
    }
    if bytes[0] / 64 != 0 {
        return Err(CompoundFault::Version);
    }
    let header_length = header_length(bytes);
    let body_start = rounded(header_length);
    if header_length < 8 || body_start > bytes.len() {
        return Err(CompoundFault::HeaderLength);
    }
    if bytes[1] / 16 != 0 || bytes[1] % 16 > 1 {
        return Err(CompoundFault::Format);
    }
    if bytes[1] % 16 == 1 {
        return Err(CompoundFault::Gzip);
    }
    if !is_zero(&bytes[header_length..body_start]) {
        return Err(CompoundFault::FillNotZero);
    }
    let (stated, found) = (stated_sum(bytes), found_sum(bytes, body_start));
    if stated != found {
        return Err(CompoundFault::Checksum { stated, found });
    }
    Ok(header_length)
}

/// A length rounded up to a multiple of four.
fn rounded(length: usize) -> usize
    requires { length < 2 ^ 32 }
    ensures { result ≡ objects.rounded length }
{
    length.div_ceil(4) * 4
}

#[tactic(auto, unfolding(crate::specs::Reading::header_length))]
fn header_length(bytes: &[u8]) -> usize
    requires { 8 ≤ length bytes.now }
    ensures value { result ≡ specs.header_length bytes.now }
    ensures small { result < 2 ^ 32 }
{
    BigEndian::read_u32(&bytes[4..]) as usize
}

#[tactic(auto, unfolding(crate::specs::Reading::stated_sum))]
fn stated_sum(bytes: &[u8]) -> u16
    requires { 8 ≤ length bytes.now }
    ensures { result ≡ specs.stated_sum bytes.now }
{
    BigEndian::read_u16(&bytes[2..])
}

#[tactic(auto, unfolding(crate::specs::Reading::found_sum))]
fn found_sum(bytes: &[u8], body_start: usize) -> u16
    requires head { 8 ≤ length bytes.now }
    requires start { body_start ≡ specs.body_start bytes.now }
    requires least { 8 ≤ body_start }
    requires within { body_start ≤ length bytes.now }
    ensures { result ≡ specs.found_sum bytes.now }
{
    sum_without_field(covered(bytes, body_start))
}

/// What the checksum covers: the whole object, or the header with its filling.
fn covered(bytes: &[u8], body_start: usize) -> &[u8]
    requires head { 8 ≤ length bytes.now }
    requires start { body_start ≡ specs.body_start bytes.now }
    requires within { body_start ≤ length bytes.now }
    ensures { result.now ≡ specs.covered bytes.now }
{
    if bytes[0] / 2 % 2 == 1 {
        bytes
    } else {
        &bytes[..body_start]
    }
}

/// The checksum of bytes whose own field, at place 2, counts as 0.
fn sum_without_field(bytes: &[u8]) -> u16
    requires { 4 ≤ length bytes.now }
    ensures { result ≡ checksum (without_sum bytes.now) }
{
    u16::MAX - sum_from(u16::from_be_bytes([bytes[0], bytes[1]]), &bytes[4..])
}

fn fields_of(alloc: Global, metadata: &[u8]) -> Result<Fields, CompoundFault>
    ensures fields { GivesFields result (metadata_specs.reading metadata.now) }
    ensures memory { IfErr result (λ e. e ≡ CompoundFault.Memory → IsOk (metadata_specs.reading metadata.now)) }
{
    match Fields::read(alloc, metadata) {
        Ok(fields) => Ok(fields),
        Err(FieldFault::Memory) => Err(CompoundFault::Memory),
        Err(fault) => Err(CompoundFault::Fields(fault)),
    }
}
