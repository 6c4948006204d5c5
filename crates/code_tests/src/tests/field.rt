//! The field: products, inverses, powers, values of polynomials and sums of rows.

use super::same::same;
use gf256::{Gf, add, eval, inv, mul, power, row_add};
use std::alloc::{AllocError, Global};
use std::process::Abort;
use std::test::Fail;

/// The product by its definition: the sum of `a` doubled i times, over the bits i of `b` that are one.
fn product_of_terms(a: u8, b: u8) -> u8 {
    let mut sum = 0;
    let mut term = a;
    for bit in 0..8u32 {
        if (b >> bit) & 1 == 1 {
            sum ^= term;
        }
        let carry = term >= 0x80;
        term <<= 1;
        if carry {
            term ^= 0x1D;
        }
    }
    sum
}

#[test]
fn products_are_sums_of_shifted_terms(rt: HostRuntime) {
    for a in 0..=255u8 {
        for b in 0..=255u8 {
            let row = u32::from(a) * 256 + u32::from(b);
            same(&rt, &mul(Gf(a), Gf(b)), &Gf(product_of_terms(a, b)), row);
        }
    }
}

#[test]
fn products_inverses_and_powers(rt: HostRuntime) {
    let products = [
        (70_001, 0x02, 0x80, 0x1D),
        (70_002, 0x03, 0x03, 0x05),
        (70_003, 0x02, 0xFA, 0xE9),
        (70_004, 0x03, 0x31, 0x53),
        (70_005, 0x02, 0x8E, 0x01),
    ];
    for (row, a, b, product) in products {
        same(&rt, &mul(Gf(a), Gf(b)), &Gf(product), row);
        same(&rt, &mul(Gf(b), Gf(a)), &Gf(product), row);
    }
    same(&rt, &inv(Gf(0x02)), &Gf(0x8E), 70_006);
    for a in 1..=255u8 {
        let row = 71_000 + u32::from(a);
        same(&rt, &product_of_terms(a, inv(Gf(a)).0), &0x01, row);
    }
    same(&rt, &add(Gf(0x53), Gf(0xCA)), &Gf(0x99), 70_007);
    let powers = [
        (70_010, 0, 0x01),
        (70_011, 1, 0x02),
        (70_012, 8, 0x1D),
        (70_013, 255, 0x01),
        (70_014, 256, 0x02),
        (70_015, 4294967295, 0x01),
    ];
    for (row, j, element) in powers {
        same(&rt, &power(j), &Gf(element), row);
    }
}

/// 1 + 2x + 3x^2, at 0, at 1 and at alpha: 3 times 4 is 0C.
#[test]
fn values_of_polynomials(rt: HostRuntime) {
    let coefs = [0x01, 0x02, 0x03];
    same(&rt, &eval(&coefs, Gf(0x00)), &Gf(0x01), 72_001);
    same(&rt, &eval(&coefs, Gf(0x01)), &Gf(0x00), 72_002);
    same(&rt, &eval(&coefs, Gf(0x02)), &Gf(0x09), 72_003);
    same(&rt, &eval(&coefs[..0], Gf(0x02)), &Gf(0x00), 72_004);
}

/// So many bytes from `first` on, each higher by `step` than the one before it.
fn stepping(alloc: Global, count: u8, first: u8, step: u8) -> Result<Vec<u8>, AllocError> {
    let mut bytes = Vec::new(alloc);
    for i in 0..count {
        bytes.push(i.wrapping_mul(step).wrapping_add(first))?;
    }
    Ok(bytes)
}

/// The byte of a sum of rows by the definition.
fn sum_at(row: &[u8], other: &[u8], by: u8, i: usize) -> Option<u8> {
    Some(*row.get(i)? ^ product_of_terms(by, *other.get(i)?))
}

/// Asserts each byte of the sum of two rows of one length.
fn check_sum(
    rt: &impl Abort,
    alloc: Global,
    row: &[u8],
    other: &[u8],
    by: u8,
    number: u32,
) -> Result<(), Fail> {
    let mut sum = Vec::from_slice(alloc, row)?;
    if sum.len() != other.len() {
        return Err(Fail::from("rows of one length"));
    }
    row_add(&mut sum, other, Gf(by));
    for i in 0..row.len() {
        same(rt, &sum.get(i).copied(), &sum_at(row, other, by, i), number);
    }
    Ok(())
}

#[test]
fn rows_of_every_length(rt: HostRuntime) -> Result<(), Fail> {
    let src = stepping(rt.alloc(), 130, 3, 7)?;
    let dst = stepping(rt.alloc(), 130, 5, 11)?;
    for by in [0x00u8, 0x01, 0x02, 0x53, 0x80, 0xFF] {
        for length in 0..131u32 {
            let row = src.get(..length as usize).ok_or("the other row")?;
            let number = 80_000 + u32::from(by) * 200 + length;
            let into = dst.get(..length as usize).ok_or("the row")?;
            check_sum(&rt, rt.alloc(), into, row, by, number)?;
        }
    }
    Ok(())
}
