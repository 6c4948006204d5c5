//! Encoding symbols, weights and places.
ghost use Rattle.std.specs.Prelude.{◌≡◌, ◌<◌};
ghost use Rattle.rs_code.specs.Weights.{ArePlaces};

use super::same::same;
use arrayvec::ArrayVec;
use rs_code::{Block, Places, are_places, first_difference, symbol_byte, symbol_into, weights};
use std::alloc::{AllocError, Global};
use std::process::Abort;
use std::test::Fail;

/// Asserts that the symbol `esi` of one-byte rows is the byte, by both calls.
fn check_symbol(rt: &impl Abort, block: &Block<'_>, esi: u8, byte: u8, row: u32)
    requires esi { esi < 255 }
    requires size { block.now.size ≡ 1 }
{
    let mut out = [0xEE];
    symbol_into(block, esi, &mut out);
    same(rt, &symbol_byte(block, esi, 0), &byte, row);
    same(rt, &out[0], &byte, row);
}

/// Asserts that the places have these weights at a place, by the call and by the places that are kept.
fn check_weights(rt: &impl Abort, places: &[u8], at: u8, expected: &[u8], row: u32)
    requires places { ArePlaces places.now }
    requires at { at < 255 }
{
    let mut out = ArrayVec::new();
    weights(places, at, &mut out);
    same(rt, &out.as_slice(), &expected, row);
    Places::new(places).weights(at, &mut out);
    same(rt, &out.as_slice(), &expected, row);
}

/// The bytes (31 * i + 9) mod 256 for i below `count`.
fn sample_bytes(alloc: Global, count: u8) -> Result<Vec<u8>, AllocError> {
    let mut bytes = Vec::new(alloc);
    for i in 0..count {
        bytes.push(i.wrapping_mul(31).wrapping_add(9))?;
    }
    Ok(bytes)
}

#[test]
fn repair_symbols_of_two_rows(rt: HostRuntime) {
    let block = Block::new(2, 1, &[0x00, 0x03]);
    for (row, esi, byte) in [
        (1, 0, 0x00),
        (2, 1, 0x03),
        (3, 2, 0x05),
        (4, 3, 0x09),
        (5, 4, 0x11),
    ] {
        check_symbol(&rt, &block, esi, byte, row);
    }
    // Symbol 2 is 02 times the first row and 03 times the second.
    let rows = [
        0x03, 0x00, 0x69, 0xFA, 0x80, 0xFA, 0x8E, //
        0x00, 0x00, 0x00, 0x31, 0x31, 0x03, 0x00,
    ];
    let wide = Block::new(2, 7, &rows);
    let mut out = [0xEE; 7];
    symbol_into(&wide, 2, &mut out);
    same(&rt, &out, &[0x06, 0x00, 0xD2, 0xBA, 0x4E, 0xEC, 0x01], 6);
    same(&rt, &symbol_byte(&wide, 2, 3), &0xBA, 7);
    // One row repeats.
    let one = Block::new(1, 1, &[0xA7]);
    for (row, esi) in [(8, 0), (9, 1), (10, 2), (11, 254)] {
        check_symbol(&rt, &one, esi, 0xA7, row);
    }
}

/// Symbol 2 is 02 times the first row and 03 times the second. Zeros stand behind the bytes.
#[test]
fn first_differences_from_symbols(rt: HostRuntime) {
    let rows = [0x03, 0x00, 0x69, 0x00, 0x00, 0x31];
    let block = Block::new(2, 3, &rows);
    for (row, esi, bytes, at) in [
        (20, 2, [0x06, 0x00, 0x81], None),
        (21, 2, [0x07, 0x00, 0x81], Some(0)),
        (22, 2, [0x06, 0x01, 0x80], Some(1)),
        (23, 2, [0x06, 0x00, 0x80], Some(2)),
        (24, 1, [0x00, 0x00, 0x31], None),
        (25, 1, [0x00, 0x00, 0x69], Some(2)),
    ] {
        same(&rt, &first_difference(&block, esi, &bytes), &at, row);
    }
    same(&rt, &first_difference(&block, 2, &[0x06]), &Some(2), 26);
    let narrow = Block::new(2, 2, &rows[..4]);
    same(&rt, &first_difference(&narrow, 1, &[0x69]), &None, 27);
}

/// The symbol is made in pieces, which end before these places or after them.
#[test]
fn first_differences_from_a_long_symbol(rt: HostRuntime) -> Result<(), Fail> {
    let mut rows = Vec::new(rt.alloc());
    for i in 0..2200usize {
        rows.push((i % 251) as u8)?;
    }
    let mut symbol = vec![in rt.alloc(); 0u8; 1100]?;
    if rows.len() != 2200 || symbol.len() != 1100 {
        return Err(Fail::from("two rows of 1,100 bytes"));
    }
    let block = Block::new(2, 1100, &rows);
    symbol_into(&block, 2, &mut symbol);
    same(&rt, &first_difference(&block, 2, &symbol), &None, 30);
    for at in [1099usize, 1024, 1023, 512, 511, 1, 0] {
        if let Some(byte) = symbol.get_mut(at) {
            *byte ^= 1;
        }
        same(&rt, &first_difference(&block, 2, &symbol), &Some(at), 31);
    }
    Ok(())
}

#[test]
fn source_symbols_are_the_rows(rt: HostRuntime) -> Result<(), Fail> {
    let bytes = sample_bytes(rt.alloc(), 255)?;
    if bytes.len() != 255 {
        return Err(Fail::from("255 rows"));
    }
    let block = Block::new(255, 1, &bytes);
    for (row, esi) in [(40, 0u8), (41, 1), (42, 100), (43, 254)] {
        check_symbol(&rt, &block, esi, esi.wrapping_mul(31).wrapping_add(9), row);
    }
    Ok(())
}

/// Row i is the byte (31 * i + 9) mod 256; two other programs agree on these symbols.
#[test]
fn repair_symbols_of_other_programs(rt: HostRuntime) -> Result<(), Fail> {
    let rows = sample_bytes(rt.alloc(), 200)?;
    if rows.len() != 200 {
        return Err(Fail::from("200 rows"));
    }
    let symbols = [
        (50, 3, 3, 0x2D),
        (51, 3, 4, 0x13),
        (52, 3, 254, 0xB1),
        (53, 5, 5, 0x8A),
        (54, 5, 6, 0xB1),
        (55, 200, 200, 0x6A),
        (56, 200, 254, 0xAB),
    ];
    for (row, k, esi, byte) in symbols {
        let block = Block::new(k, 1, &rows[..usize::from(k)]);
        check_symbol(&rt, &block, esi, byte, row);
    }
    Ok(())
}

#[test]
fn weights_of_places(rt: HostRuntime) {
    // A polynomial of one coefficient has one value everywhere.
    check_weights(&rt, &[5], 9, &[0x01], 60);
    check_weights(&rt, &[254], 0, &[0x01], 61);
    check_weights(&rt, &[0, 1], 2, &[0x02, 0x03], 62);
    // At a place that is among them the value is the one there.
    check_weights(&rt, &[2, 3, 7], 3, &[0x00, 0x01, 0x00], 63);
    check_weights(&rt, &[7, 3, 2], 2, &[0x00, 0x00, 0x01], 64);
    let mut out = ArrayVec::new();
    Places::sources(255).weights(100, &mut out);
    same(&rt, &out.len(), &255, 65);
    for (i, weight) in out.as_slice().iter().enumerate() {
        same(&rt, weight, &u8::from(i == 100), 66);
    }
}

#[test]
fn lists_of_places(rt: HostRuntime) -> Result<(), Fail> {
    let mut all = Vec::new(rt.alloc());
    for place in 0..255u8 {
        all.push(254 - place)?;
    }
    same(&rt, &are_places(all.as_slice()), &true, 70);
    // 256 of them.
    all.push(255)?;
    same(&rt, &are_places(all.as_slice()), &false, 71);
    let lists: [(u32, &[u8], bool); 5] = [
        (72, &[7, 0, 254], true),
        (73, &[0, 1, 255], false),
        (74, &[3, 4, 3], false),
        (75, &[4, 3, 3], false),
        (76, &[], false),
    ];
    for (row, list, are) in lists {
        same(&rt, &are_places(list), &are, row);
    }
    Ok(())
}
