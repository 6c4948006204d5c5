//! Each option of each command at the ends of its range.

use super::same::same;
use super::telling::{add, catalog_of, check_told, check_usage, values_of, words_of};
use fcast_words::read_words;
use meta_text::Label;
use std::alloc::{AllocError, Global};
use std::process::Abort;
use std::test::Fail;

/// The other options that a line needs.
#[derive(Clone, Copy)]
enum Others {
    None,
    /// Of a source over UDP all but the port.
    Ports,
    /// All but the count.
    Counts,
    /// An address, a port and a count.
    Whole,
    Catalog,
    CatalogAddress,
}

fn add_others(words: &mut Vec<Label>, others: Others) -> Result<(), AllocError> {
    match others {
        Others::None => Ok(()),
        Others::Ports => add_all(words, &["--addr", "1.2.3.4", "--count", "1"]),
        Others::Counts => add_all(words, &["--addr", "1.2.3.4", "--port", "1"]),
        Others::Whole => add_all(words, &["--addr", "1.2.3.4", "--port", "1", "--count", "1"]),
        Others::Catalog => add_all(words, &["--catalog", "c"]),
        Others::CatalogAddress => add_all(words, &["--catalog", "c", "--addr", "1.2.3.4"]),
    }
}

fn add_all(words: &mut Vec<Label>, list: &[&str]) -> Result<(), AllocError> {
    for word in list {
        add(words, word)?;
    }
    Ok(())
}

/// An option of a command, with the other options that a line of it needs.
#[derive(Clone, Copy)]
struct Case<'a> {
    command: &'a str,
    others: Others,
    option: &'a str,
}

/// The line that gives the option this value, behind the others.
fn line_of(alloc: Global, case: &Case<'_>, value: &str) -> Result<Vec<Label>, AllocError> {
    let mut words = words_of(alloc, &[case.command])?;
    add_others(&mut words, case.others)?;
    add(&mut words, case.option)?;
    add(&mut words, value)?;
    Ok(words)
}

/// The line with the option in front of the others.
fn turned_line(alloc: Global, case: &Case<'_>, value: &str) -> Result<Vec<Label>, AllocError> {
    let mut words = words_of(alloc, &[case.command])?;
    add(&mut words, case.option)?;
    add(&mut words, value)?;
    add_others(&mut words, case.others)?;
    Ok(words)
}

/// The number with zeros in front, so many digits in all.
fn padded(alloc: Global, number: u128, digits: usize) -> Result<String, AllocError> {
    let text = number.to_string(alloc)?;
    let mut out = String::new(alloc);
    for _zero in text.len()..digits {
        out.push_str("0")?;
    }
    out.push_str(text.as_str())?;
    Ok(out)
}

/// The value is taken, in each order and with zeros in front.
fn check_taken(
    rt: &impl Abort,
    alloc: Global,
    case: &Case<'_>,
    value: u128,
    row: u32,
) -> Result<(), Fail> {
    let text = value.to_string(alloc)?;
    let zeros = padded(alloc, value, 20)?;
    let plain = line_of(alloc, case, &text)?;
    let command = read_words(alloc, &plain).ok().ok_or("a command")?;
    let wanted = values_of(&command);
    let catalog = catalog_of(&command);
    let number = u64::try_from(value).ok();
    same(rt, &wanted.numbers.contains(&number), &true, row);
    check_told(
        rt,
        alloc,
        &turned_line(alloc, case, &text)?,
        wanted,
        catalog,
        row,
    )?;
    check_told(
        rt,
        alloc,
        &line_of(alloc, case, &zeros)?,
        wanted,
        catalog,
        row,
    )
}

/// A line that gives the option this value is no command.
fn check_refused(
    rt: &impl Abort,
    alloc: Global,
    case: &Case<'_>,
    value: &str,
    row: u32,
) -> Result<(), AllocError> {
    check_usage(rt, alloc, &line_of(alloc, case, value)?, row);
    Ok(())
}

/// The number below this one; below zero there is none, so a text that is no number.
fn text_below(alloc: Global, least: u128) -> Result<String, AllocError> {
    match least.checked_sub(1) {
        Some(below) => below.to_string(alloc),
        None => String::from_str(alloc, "-1"),
    }
}

/// The values around the range, the greatest with 21 digits, and no value at all.
fn check_outside(
    rt: &impl Abort,
    alloc: Global,
    case: &Case<'_>,
    least: u128,
    greatest: u128,
    row: u32,
) -> Result<(), AllocError> {
    let below = text_below(alloc, least)?;
    let above = greatest.saturating_add(1).to_string(alloc)?;
    let long = padded(alloc, greatest, 21)?;
    check_refused(rt, alloc, case, below.as_str(), row)?;
    check_refused(rt, alloc, case, above.as_str(), row)?;
    check_refused(rt, alloc, case, long.as_str(), row)?;
    check_refused(rt, alloc, case, "", row)
}

/// The option and its value as one word.
fn joined(alloc: Global, option: &str, value: &str) -> Result<String, AllocError> {
    let mut out = String::from_str(alloc, option)?;
    out.push_str("=")?;
    out.push_str(value)?;
    Ok(out)
}

/// The line that ends with the option and its value as one word, or with the option alone where there is no value.
fn short_line(alloc: Global, case: &Case<'_>, value: &str) -> Result<Vec<Label>, AllocError> {
    let mut words = words_of(alloc, &[case.command])?;
    add_others(&mut words, case.others)?;
    if value.is_empty() {
        add(&mut words, case.option)?;
    } else {
        add(&mut words, &joined(alloc, case.option, value)?)?;
    }
    Ok(words)
}

/// The option twice, without a value behind it, and joined to its value.
fn check_forms(
    rt: &impl Abort,
    alloc: Global,
    case: &Case<'_>,
    value: u128,
    row: u32,
) -> Result<(), AllocError> {
    let text = value.to_string(alloc)?;
    let mut twice = line_of(alloc, case, &text)?;
    add(&mut twice, case.option)?;
    add(&mut twice, &text)?;
    check_usage(rt, alloc, &twice, row);
    check_usage(rt, alloc, &short_line(alloc, case, "")?, row);
    check_usage(rt, alloc, &short_line(alloc, case, &text)?, row);
    Ok(())
}

/// The ends of the option's range, what stands outside of it, and its forms: rows row to row + 3.
fn check_case(
    rt: &impl Abort,
    alloc: Global,
    case: &Case<'_>,
    least: u128,
    greatest: u128,
    row: u32,
) -> Result<(), Fail> {
    check_taken(rt, alloc, case, least, row)?;
    check_taken(rt, alloc, case, greatest, row.wrapping_add(1))?;
    check_outside(rt, alloc, case, least, greatest, row.wrapping_add(2))?;
    check_forms(rt, alloc, case, least, row.wrapping_add(3))?;
    Ok(())
}

/// A row, the option, the others that a line needs, and the least and the greatest value.
type Row = (u32, &'static str, Others, u128, u128);

fn check_command(rt: &impl Abort, alloc: Global, command: &str, rows: &[Row]) -> Result<(), Fail> {
    for (row, option, others, least, greatest) in rows {
        let case = Case {
            command,
            others: *others,
            option,
        };
        check_case(rt, alloc, &case, *least, *greatest, *row)?;
    }
    Ok(())
}

const TSI: u128 = 281_474_976_710_655;

const BUDGET: u128 = 1_073_741_824;

const DATAGRAMS: u128 = 4_294_967_295;

#[test]
fn of_receiving(rt: HostRuntime) -> Result<(), Fail> {
    let replay: [Row; 3] = [
        (10, "--tsi", Others::None, 0, TSI),
        (20, "--budget", Others::None, 4096, BUDGET),
        (30, "--most", Others::None, 1, DATAGRAMS),
    ];
    check_command(&rt, rt.alloc(), "replay", &replay)?;
    let recv: [Row; 4] = [
        (40, "--tsi", Others::Whole, 0, TSI),
        (50, "--budget", Others::Whole, 4096, BUDGET),
        (60, "--port", Others::Ports, 1, 65_535),
        (70, "--count", Others::Counts, 1, DATAGRAMS),
    ];
    check_command(&rt, rt.alloc(), "recv", &recv)?;
    let listen: [Row; 6] = [
        (80, "--tsi", Others::None, 0, TSI),
        (90, "--budget", Others::None, 4096, BUDGET),
        (100, "--most", Others::None, 1, DATAGRAMS),
        (110, "--readers", Others::None, 1, 16),
        (120, "--port", Others::Ports, 1, 65_535),
        (130, "--count", Others::Counts, 1, DATAGRAMS),
    ];
    check_command(&rt, rt.alloc(), "listen", &listen)
}

#[test]
fn of_the_others(rt: HostRuntime) -> Result<(), Fail> {
    let send: [Row; 6] = [
        (200, "--port", Others::CatalogAddress, 1, 65_535),
        (210, "--symbol", Others::Catalog, 8, 65_475),
        (220, "--block", Others::Catalog, 1, 255),
        (230, "--maxn", Others::Catalog, 1, 255),
        (240, "--cycles", Others::Catalog, 1, 1000),
        (250, "--tsi", Others::Catalog, 0, 4_294_967_295),
    ];
    check_command(&rt, rt.alloc(), "send", &send)?;
    let dump: [Row; 1] = [(260, "--most", Others::None, 1, DATAGRAMS)];
    check_command(&rt, rt.alloc(), "dump", &dump)?;
    let greatest = 18_446_744_073_709_551_615;
    let drill: [Row; 1] = [(270, "--start", Others::None, 0, greatest)];
    check_command(&rt, rt.alloc(), "drill", &drill)
}
