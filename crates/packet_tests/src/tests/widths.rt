//! Headers of every width, written and read again.

use super::same::same;
use lct_header::{HeaderView, read, write};
use std::alloc::{AllocError, Global};
use std::process::Abort;
use std::test::Fail;

/// The widths of TSI and TOI in bytes, and the flags S, O and H that say them, as the second byte.
const WIDTHS: [(u8, u8, u8); 16] = [
    (0, 0, 0x00),
    (0, 4, 0x20),
    (0, 8, 0x40),
    (0, 12, 0x60),
    (4, 0, 0x80),
    (4, 4, 0xA0),
    (4, 8, 0xC0),
    (4, 12, 0xE0),
    (2, 2, 0x10),
    (2, 6, 0x30),
    (2, 10, 0x50),
    (2, 14, 0x70),
    (6, 2, 0x90),
    (6, 6, 0xB0),
    (6, 10, 0xD0),
    (6, 14, 0xF0),
];

/// Asserts that bytes are a header of these widths, and are written so again.
fn check_width(
    rt: &impl Abort,
    alloc: Global,
    bytes: &[u8],
    tsi_length: u8,
    toi_length: u8,
    row: u32,
) -> Result<(), Fail> {
    let view = read(bytes).ok().ok_or("a sample of this width")?;
    let header = view.header;
    same(rt, &header.tsi_bits, &tsi_length.wrapping_mul(8), row);
    same(rt, &header.toi_bits, &toi_length.wrapping_mul(8), row);
    same(rt, &header.tsi, &u64::from(tsi_length.min(1)), row);
    same(rt, &header.toi, &u128::from(toi_length.min(1)), row);
    same(rt, &header.close_session, &true, row);
    same(rt, &header.close_object, &false, row);
    same(rt, &header.codepoint, &9, row);
    same(rt, &view.area, &[0x40, 1, 7, 8].as_slice(), row);
    same(rt, &written(alloc, &view)?.as_slice(), &bytes, row);
    Ok(())
}

#[test]
fn every_width_is_written_and_read(rt: HostRuntime) -> Result<(), Fail> {
    for (tsi_length, toi_length, flags) in WIDTHS {
        let bytes = sample(rt.alloc(), tsi_length, toi_length, flags)?;
        let row = u32::from(flags);
        check_width(&rt, rt.alloc(), &bytes, tsi_length, toi_length, row)?;
    }
    Ok(())
}

/// No TSI, no TOI, and one extension of 253 words.
#[test]
fn longest_header_is_written(rt: HostRuntime) -> Result<(), Fail> {
    let mut bytes = [7u8; 1020];
    bytes[..10].copy_from_slice(&[0x10, 0, 255, 9, 0, 0, 0, 0, 0x40, 253]);
    let view = read(&bytes).ok().ok_or("the longest header")?;
    same(&rt, &view.length, &1020, 300);
    same(&rt, &view.area.len(), &1012, 301);
    let again = written(rt.alloc(), &view)?;
    same(&rt, &again.as_slice(), &bytes.as_slice(), 302);
    Ok(())
}

/// The view's header and area, written again.
fn written(alloc: Global, view: &HeaderView<'_>) -> Result<Vec<u8>, AllocError> {
    let header = view.header;
    let area = view.area;
    let numbers = usize::from(header.tsi_bits / 8) + usize::from(header.toi_bits / 8);
    if numbers + area.len() > 1012 {
        return Err(AllocError);
    }
    write(alloc, &header, area)
}

/// A header with both numbers 1, where they have bits, and an EXT_FTI that isn't one.
fn sample(alloc: Global, tsi_length: u8, toi_length: u8, flags: u8) -> Result<Vec<u8>, AllocError> {
    let fields = usize::from(tsi_length).wrapping_add(usize::from(toi_length));
    let words = (fields.wrapping_add(12) / 4) as u8;
    let mut bytes = vec![in alloc; 0x10, flags | 2, words, 9, 0, 0, 0, 0]?;
    for length in [tsi_length, toi_length] {
        for i in 0..length {
            bytes.push(u8::from(i.wrapping_add(1) == length))?;
        }
    }
    bytes.extend_from_slice(&[0x40, 1, 7, 8])?;
    Ok(bytes)
}
