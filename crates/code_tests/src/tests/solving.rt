//! Blocks from k of their symbols, with the row steps that it took.
ghost use Rattle.std.specs.Prelude.{◌≡◌};

use super::same::same;
use gf256::Gf;
use rs_code::{Block, are_places, symbol_into};
use rs_solve::{Steps, solve};
use std::alloc::{AllocError, Global};
use std::process::Abort;
use std::test::Fail;

/// Asserts that the rows at the places give the block, in so many steps.
fn check_solved(
    rt: &impl Abort,
    alloc: Global,
    size: usize,
    places: &[u8],
    rows: &[u8],
    wanted: (&[u8], u64),
    row: u32,
) -> Result<(), Fail> {
    if !are_places(places) || size == 0 || size > 1000 {
        return Err(Fail::from("places and a size"));
    }
    if rows.len() != places.len() * size {
        return Err(Fail::from("a row for each place"));
    }
    let mut steps = Steps::start(());
    let solved = solve(alloc, size, places, rows, &mut steps)?;
    same(rt, &solved.as_slice(), &wanted.0, row);
    same(rt, &steps.count(), &wanted.1, row);
    Ok(())
}

/// The symbols of the block at the places, one after another.
fn symbols(
    alloc: Global,
    block: &Block<'_>,
    size: usize,
    places: &[u8],
) -> Result<Vec<u8>, AllocError>
    requires { block.now.size ≡ size }
{
    let mut rows = vec![in alloc]?;
    for place in places {
        if *place == 255 {
            return Ok(rows);
        }
        let mut row = vec![in alloc; 0; size]?;
        symbol_into(block, *place, row.as_mut_slice());
        rows.extend_from_slice(row.as_slice())?;
    }
    Ok(rows)
}

/// The bytes (31 * i + 9) mod 256 for i below `count`.
fn sample_bytes(alloc: Global, count: u8) -> Result<Vec<u8>, AllocError> {
    let mut bytes = vec![in alloc]?;
    for i in 0..count {
        bytes.push(i.wrapping_mul(31).wrapping_add(9))?;
    }
    Ok(bytes)
}

#[test]
fn rows_of_other_programs(rt: HostRuntime) -> Result<(), Fail> {
    let cases: [(u32, &[u8], &[u8], &[u8], u64); 6] = [
        (1, &[2, 3], &[0x05, 0x09], &[0x00, 0x03], 4),
        (2, &[3, 2], &[0x09, 0x05], &[0x00, 0x03], 4),
        (3, &[3, 0], &[0x09, 0x00], &[0x00, 0x03], 2),
        (4, &[254], &[0xA7], &[0xA7], 1),
        (5, &[254, 3, 4], &[0xB1, 0x2D, 0x13], &[0x09, 0x28, 0x47], 9),
        (
            6,
            &[2, 6, 3, 5, 4],
            &[0x47, 0xB1, 0x66, 0x8A, 0x85],
            &[0x09, 0x28, 0x47, 0x66, 0x85],
            10,
        ),
    ];
    for (row, places, rows, block, steps) in cases {
        check_solved(&rt, rt.alloc(), 1, places, rows, (block, steps), row)?;
    }
    Ok(())
}

#[test]
fn two_missing_of_200_rows(rt: HostRuntime) -> Result<(), Fail> {
    let alloc = rt.alloc();
    let block = sample_bytes(alloc, 200)?;
    let mut places = vec![in alloc; 200u8, 254]?;
    let mut rows = vec![in alloc; 0x6Au8, 0xAB]?;
    for i in 2..200u8 {
        places.push(i)?;
        rows.push(i.wrapping_mul(31).wrapping_add(9))?;
    }
    check_solved(&rt, alloc, 1, &places, &rows, (&block, 400), 10)
}

/// The places that the bits of `chosen` name.
fn places_of(alloc: Global, chosen: u8) -> Result<Vec<u8>, AllocError> {
    let mut places = vec![in alloc]?;
    for place in 0..8u8 {
        if (chosen >> place) & 1 == 1 {
            places.push(place)?;
        }
    }
    Ok(places)
}

#[test]
fn any_four_of_eight_symbols(rt: HostRuntime) -> Result<(), Fail> {
    let alloc = rt.alloc();
    let bytes = sample_bytes(alloc, 12)?;
    if bytes.len() != 12 {
        return Err(Fail::from("12 bytes"));
    }
    let block = Block::new(4, 3, &bytes);
    for chosen in 0..=255u8 {
        if chosen.count_ones() == 4 {
            let places = places_of(alloc, chosen)?;
            let rows = symbols(alloc, &block, 3, &places)?;
            let missing = (chosen % 16).count_zeros().saturating_sub(4);
            let steps = u64::from(missing).saturating_mul(4);
            let row = 100 + u32::from(chosen);
            check_solved(&rt, alloc, 3, &places, &rows, (&bytes, steps), row)?;
        }
    }
    Ok(())
}

/// Asserts that the block of the sample bytes comes from the symbols at these places, one byte each.
fn check_sample(
    rt: &impl Abort,
    alloc: Global,
    count: u8,
    places: &[u8],
    steps: u64,
    row: u32,
) -> Result<(), Fail> {
    let bytes = sample_bytes(alloc, count)?;
    if count == 0 || bytes.len() != usize::from(count) {
        return Err(Fail::from("a byte a row"));
    }
    let rows = symbols(alloc, &Block::new(count, 1, &bytes), 1, places)?;
    check_solved(rt, alloc, 1, places, &rows, (&bytes, steps), row)
}

/// All 255 places that exist, and all but the first.
#[test]
fn places_of_every_symbol(rt: HostRuntime) -> Result<(), Fail> {
    let mut falling = vec![in rt.alloc()]?;
    for i in 0..255u8 {
        falling.push(254 - i)?;
    }
    check_sample(&rt, rt.alloc(), 255, &falling, 0, 20)?;
    let mut rising = vec![in rt.alloc()]?;
    for place in 1..255u8 {
        rising.push(place)?;
    }
    check_sample(&rt, rt.alloc(), 254, &rising, 254, 21)
}

#[test]
fn a_row_step_is_counted(rt: HostRuntime) {
    let mut steps = Steps::start(());
    let mut row = [0x0F];
    steps.row(&mut row, &[0x03], Gf(0x03));
    same(&rt, &row, &[0x0A], 30);
    same(&rt, &steps.count(), &1, 31);
}
