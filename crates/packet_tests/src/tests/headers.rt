//! Headers that are read, their extensions, and the faults of bytes that are none.

use super::same::same;
use lct_header::{Extensions, HeaderFault, HeaderView, extensions, read};
use std::process::Abort;
use std::test::Fail;

/// TSI and TOI of one word each, no extension.
const SHORT_HEADER: [u8; 16] = [
    0x10, 0xA0, 0x04, 0x05, // version 1, S = 1, O = 1, four words, codepoint 5
    0x00, 0x00, 0x00, 0x00, // CCI
    0x00, 0x00, 0x00, 0x01, // TSI
    0x00, 0x00, 0x00, 0x01, // TOI
];

/// The header of an object of 28 bytes, with its EXT_FTI.
const EMPTY_INSTANCE_HEADER: [u8; 28] = [
    0x10, 0xA0, 0x07, 0x05, // version 1, S = 1, O = 1, seven words, codepoint 5
    0x00, 0x00, 0x00, 0x00, // CCI
    0x00, 0x00, 0x00, 0x01, // TSI
    0x00, 0x00, 0x00, 0x01, // TOI
    0x40, 0x03, 0x00, 0x00, 0x00, 0x00, 0x00, 0x1C, 0x00, 0x1C, 0x01, 0x01, // EXT_FTI
];

/// The widest fields and four extensions; CCI and the contents of the first three are any bytes.
const WIDE_HEADER: [u8; 68] = [
    0x1C, 0xF0, 0x11, 0x05, // version 1, C = 3, S = 1, O = 3, H = 1, 17 words, codepoint 5
    0x01, 0x02, 0x03, 0x04, 0x05, 0x06, 0x07, 0x08, 0x09, 0x0A, 0x0B, 0x0C, 0x0D, 0x0E, 0x0F, 0x10, // CCI
    0x00, 0x00, 0x00, 0x01, 0x02, 0x03, // TSI
    0xFF, 0xFE, 0xFD, 0xFC, 0xFB, 0xFA, 0xF9, 0xF8, 0xF7, 0xF6, 0xF5, 0xF4, 0xF3, 0xF2, // TOI
    0x00, 0x01, 0x00, 0x00, // EXT_NOP, at place 40
    0x02, 0x02, 0x21, 0x22, 0x23, 0x24, 0x25, 0x26, // EXT_TIME
    0xC8, 0x31, 0x32, 0x33, // an unknown extension of one word
    0x40, 0x03, 0x00, 0x00, 0x00, 0x00, 0x00, 0x1C, 0x00, 0x1C, 0x01, 0x01, // EXT_FTI
];

/// Asserts the numbers of a header, their widths, and how long the header is.
fn check_numbers(
    rt: &impl Abort,
    view: &HeaderView<'_>,
    tsi: (u64, u8),
    toi: (u128, u8),
    length: usize,
    row: u32,
) {
    same(rt, &view.header.tsi, &tsi.0, row);
    same(rt, &view.header.tsi_bits, &tsi.1, row);
    same(rt, &view.header.toi, &toi.0, row);
    same(rt, &view.header.toi_bits, &toi.1, row);
    same(rt, &view.length, &length, row);
}

/// Asserts a header of one word each: session 1, object 1, codepoint 5, no flag.
fn check_narrow(rt: &impl Abort, bytes: &[u8], row: u32) -> Result<(), Fail> {
    let view = read(bytes).ok().ok_or("a header of one word each")?;
    check_numbers(rt, &view, (1, 32), (1, 32), bytes.len(), row);
    same(rt, &view.header.close_session, &false, row);
    same(rt, &view.header.close_object, &false, row);
    same(rt, &view.header.codepoint, &5, row);
    same(rt, &view.area, &&bytes[16.min(bytes.len())..], row);
    Ok(())
}

#[test]
fn headers_are_read(rt: HostRuntime) -> Result<(), Fail> {
    check_narrow(&rt, &SHORT_HEADER, 1)?;
    check_narrow(&rt, &EMPTY_INSTANCE_HEADER, 2)?;
    let view = read(&WIDE_HEADER).ok().ok_or("the wide header")?;
    let toi = (0xFFFE_FDFC_FBFA_F9F8_F7F6_F5F4_F3F2, 112);
    check_numbers(&rt, &view, (0x01_0203, 48), toi, 68, 3);
    same(&rt, &view.area, &&WIDE_HEADER[40..], 4);
    Ok(())
}

/// Asserts the extension that comes next.
fn check_next(
    rt: &impl Abort,
    left: &mut Extensions<'_>,
    het: u8,
    content: &[u8],
    row: u32,
) -> Result<(), Fail> {
    let extension = left.next().ok_or("an extension more")?;
    same(rt, &extension.het, &het, row);
    same(rt, &extension.content, &content, row);
    Ok(())
}

#[test]
fn extensions_come_in_order(rt: HostRuntime) -> Result<(), Fail> {
    let expected: [(u32, u8, &[u8]); 4] = [
        (10, 0, &[0, 0]),
        (11, 2, &[0x21, 0x22, 0x23, 0x24, 0x25, 0x26]),
        (12, 200, &[0x31, 0x32, 0x33]),
        (13, 64, &[0, 0, 0, 0, 0, 0x1C, 0, 0x1C, 1, 1]),
    ];
    let view = read(&WIDE_HEADER).ok().ok_or("the wide header")?;
    let mut left = extensions(&view);
    for (row, het, content) in expected {
        check_next(&rt, &mut left, het, content, row)?;
    }
    same(&rt, &left.next().is_none(), &true, 14);

    let view = read(&SHORT_HEADER).ok().ok_or("no extensions")?;
    same(&rt, &extensions(&view).count(), &0, 15);

    // One word at the very end of the header.
    let bytes = [
        0x10, 0xA0, 0x05, 0x05, 0, 0, 0, 0, 0, 0, 0, 1, 0, 0, 0, 1, 0xFF, 1, 2, 3, 9,
    ];
    let view = read(&bytes).ok().ok_or("an extension of one word")?;
    same(&rt, &view.length, &20, 16);
    check_next(&rt, &mut extensions(&view), 255, &[1, 2, 3], 17)
}

/// The bytes with one of them changed.
fn with(bytes: &[u8; 68], at: usize, byte: u8) -> [u8; 68] {
    let mut changed = *bytes;
    if at < changed.len() {
        changed[at] = byte;
    }
    changed
}

/// Asserts the fault of bytes that are no header.
fn check_fault(rt: &impl Abort, bytes: &[u8], fault: HeaderFault, row: u32) {
    same(rt, &read(bytes).err(), &Some(fault), row);
}

#[test]
fn faults_are_told(rt: HostRuntime) {
    let faults: [(u32, &[u8], HeaderFault); 5] = [
        (20, &[], HeaderFault::Short),
        (21, &[0x20, 0, 0], HeaderFault::Short),
        (22, &[0x20, 0, 0, 0], HeaderFault::Version),
        (23, &[0, 0, 0, 0], HeaderFault::Version),
        (24, &[0x10, 0xA0, 4, 5], HeaderFault::LengthField),
    ];
    for (row, bytes, fault) in faults {
        check_fault(&rt, bytes, fault, row);
    }
    // The fixed fields alone are four words. EXT_NOP of no words; EXT_TIME past the end; EXT_FTI past the end.
    let changes = [
        (25, 2, 9, HeaderFault::LengthField),
        (26, 2, 18, HeaderFault::LengthField),
        (27, 41, 0, HeaderFault::ExtensionZero { at: 40 }),
        (28, 45, 7, HeaderFault::ExtensionLong { at: 44 }),
        (29, 57, 4, HeaderFault::ExtensionLong { at: 56 }),
    ];
    for (row, at, byte, fault) in changes {
        check_fault(&rt, &with(&WIDE_HEADER, at, byte), fault, row);
    }
}
