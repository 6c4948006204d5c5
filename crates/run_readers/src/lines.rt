//! The lines of the readers.
ghost use Rattle.std.specs.Prelude.{◌≡◌, ◌≤◌, ◌++◌, [], map, vec_len, Contains, IfOk, IfSome, OnOk, string_bytes, option_map};
ghost use Rattle.std.specs.Fmt.{decimal};
ghost use Rattle.snapshot_hub.specs.Histories.{height, last_of};
ghost use Rattle.run_readers.specs.ReaderLines.{number_or_none, reader_line, AreReaderLines};
ghost use Rattle.run_readers.specs.Inner.Noted.{one_more};

use crate::reader::Stopped;
use carousel_cid::Instance;
use itoa::Buffer;
use snapshot_hub::{Glance, Look, Naming, Publisher, Told};
use std::alloc::AllocError;

/// How many bytes a line has at most: 19 of its own, two digits of a reader, and twice ten of another number.
pub const LINE: usize = 41;

/// Adds the line of each reader, once it was told what was published and has looked again. `numbers` are those of the
/// instances that were published.
pub fn push_lines<H: Naming>(
    lines: &mut String,
    publisher: &Publisher<H>,
    numbers: &[u32],
    stopped: Vec<Stopped<H>>,
) -> Result<(), AllocError>
    requires empty { string_bytes lines.old ≡ [] }
    requires numbers { numbers.now ≡ map (λ i. i.number) publisher.now }
    requires few { vec_len stopped ≤ 16 }
    ensures { OnOk result (AreReaderLines publisher.now (vec_len stopped) (string_bytes lines.new)) }
{
    let mut reader: u32 = 1;
    for one in stopped {
        let last = last_number(publisher, numbers, one.look)?;
        push_line(lines, reader, noted(numbers, one.saw), last)?;
        reader += 1;
    }
    Ok(())
}

/// The number that a reader noted, where it is one of those that were published.
fn noted(numbers: &[u32], saw: Option<u32>) -> Option<u32>
    ensures { IfSome result (λ n. Contains numbers.now n) }
{
    match saw {
        Some(number) if numbers.contains(&number) => Some(number),
        _ => None,
    }
}

/// The number that a reader is shown at last, but none above that of the last instance.
fn last_number<H: Naming>(
    publisher: &Publisher<H>,
    numbers: &[u32],
    look: Look<H>,
) -> Result<Option<u32>, AllocError>
    requires { numbers.now ≡ map (λ i. i.number) publisher.now }
    ensures { IfOk result (λ n. n ≡ option_map (λ i. i.number) (last_of publisher.now)) }
{
    let glance = last_glance(look, publisher.tell()?);
    Ok(lesser(number_of(glance.instance()), numbers.last().copied()))
}

/// What a reader is shown once it was told this.
#[tactic(auto, using(crate::proofs::Noted::as_high_as_told))]
fn last_glance<H: Naming>(look: Look<H>, told: Told<H>) -> Glance<H>
    ensures { height told ≤ height result }
{
    look.learn(told).look()
}

/// The number of an instance, where there is one.
pub fn number_of(instance: Option<&Instance>) -> Option<u32>
    ensures { result ≡ option_map (λ i. i.number) (option_map (λ i. i.now) instance.entry) }
{
    match instance {
        Some(instance) => Some(instance.number),
        None => None,
    }
}

/// The lesser of what was seen and what is installed, which is no greater.
fn lesser(seen: Option<u32>, installed: Option<u32>) -> Option<u32>
    requires { one_more installed ≤ one_more seen }
    ensures { result ≡ installed }
{
    match (seen, installed) {
        (Some(seen), Some(installed)) => Some(seen.min(installed)),
        _ => None,
    }
}

/// Adds the line of a reader.
fn push_line(
    lines: &mut String,
    reader: u32,
    saw: Option<u32>,
    last: Option<u32>,
) -> Result<(), AllocError>
    ensures { OnOk result (string_bytes lines.new ≡ string_bytes lines.old ++ reader_line reader saw last) }
{
    lines.push_str("reader ")?;
    push_number(lines, reader)?;
    lines.push_str(" saw ")?;
    push_number_or_none(lines, saw)?;
    lines.push_str(" last ")?;
    push_number_or_none(lines, last)?;
    lines.push_str("\n")
}

fn push_number_or_none(lines: &mut String, number: Option<u32>) -> Result<(), AllocError>
    ensures { OnOk result (string_bytes lines.new ≡ string_bytes lines.old ++ number_or_none number) }
{
    match number {
        Some(number) => push_number(lines, number),
        None => lines.push_str("none"),
    }
}

/// Adds the digits of a number. It takes memory only where the text has no room for them.
fn push_number(lines: &mut String, number: u32) -> Result<(), AllocError>
    ensures { OnOk result (string_bytes lines.new ≡ string_bytes lines.old ++ decimal number) }
{
    let mut digits = Buffer::new();
    lines.push_str(digits.format(number))
}
