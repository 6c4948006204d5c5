//! Fields read from a text, or its first fault.

ghost use Rattle.std.specs.Prelude.{◌≡◌, ◌≢◌, ◌≤◌, ◌++◌, ◌∷◌, [], Some, None, IsOk, OnOk, OnErr, IfOk, IfErr};
ghost use Rattle.meta_text.specs.declared.fault.FieldFault.TheVariants.{Memory};
ghost use Rattle.meta_text.specs.Lines.{numbered, lines_of, pairs_in};
ghost use Rattle.meta_text.specs.Reading.{fault_in, reading, Gives};

use crate::fault::FieldFault;
use crate::fields::Fields;
use crate::lines::{pair_in, split_line};
use std::alloc::Global;

/// The fields of a text, or the fault of its first faulty line. It is read twice: no memory is taken before
/// its lines are known to be sound.
pub(crate) fn read(alloc: Global, bytes: &[u8]) -> Result<Fields, FieldFault>
    ensures reading { Gives result (reading bytes.now) }
    ensures memory { IfErr result (λ e. e ≡ Memory → IsOk (reading bytes.now)) }
{
    let pairs = sound_pairs(bytes)?;
    collect(alloc, bytes, pairs)
}

/// How many pairs the lines say, where none is faulty.
fn sound_pairs(bytes: &[u8]) -> Result<usize, FieldFault>
    ensures sound { OnOk result (fault_in (numbered 1 (lines_of bytes.now)) ≡ None) }
    ensures fault { IfErr result (λ e. fault_in (numbered 1 (lines_of bytes.now)) ≡ Some e) }
{
    let mut rest = bytes;
    let mut number: u64 = 0;
    let mut pairs: usize = 0;
    while !rest.is_empty() {
        let (line, after) = split_line(rest);
        number += 1;
        pairs += sound_line(line, number)?;
        rest = after;
    }
    Ok(pairs)
}

/// How many pairs a line says: one, or none where it is empty.
fn sound_line(line: &[u8], number: u64) -> Result<usize, FieldFault>
    ensures sound { OnOk result (fault_in (numbered number (line.now ∷ [])) ≡ None) }
    ensures few { IfOk result (λ pairs. pairs ≤ 1) }
    ensures fault { IfErr result (λ e. fault_in (numbered number (line.now ∷ [])) ≡ Some e) }
{
    if line.is_empty() {
        return Ok(0);
    }
    match pair_in(line, number) {
        Ok(_) => Ok(1),
        Err(fault) => Err(fault),
    }
}

/// The fields of a text with so many pairs.
fn collect(alloc: Global, bytes: &[u8], pairs: usize) -> Result<Fields, FieldFault>
    ensures { Gives result (reading bytes.now) }
{
    let mut fields = Fields::with_capacity(alloc, pairs, bytes.len())?;
    let mut rest = bytes;
    let mut number: u64 = 0;
    while !rest.is_empty() {
        let (line, after) = split_line(rest);
        number += 1;
        add_line(&mut fields, number, line)?;
        rest = after;
    }
    Ok(fields)
}

/// Adds the pair of a line; an empty line says nothing.
fn add_line(fields: &mut Fields, number: u64, line: &[u8]) -> Result<(), FieldFault>
    ensures sound { OnOk result (fault_in (numbered number (line.now ∷ [])) ≡ None) }
    ensures ok { OnOk result (fields.new ≡ fields.old ++ pairs_in (numbered number (line.now ∷ []))) }
    ensures fault { IfErr result (λ e. e ≢ Memory → fault_in (numbered number (line.now ∷ [])) ≡ Some e) }
{
    if line.is_empty() {
        return Ok(());
    }
    let (name, value) = pair_in(line, number)?;
    fields.push(name, value)?;
    Ok(())
}
