//! The lines of events.

use super::same::same;
use super::watchers::{compare, events, hear_all, text};
use edge_io::MemText;
use std::alloc::{AllocError, Global};
use std::process::Abort;
use std::test::Fail;
use watch_list::{Bell, Event, Lines, Unheard, Watch};

/// The lines of one event of each kind.
const LINES: &[u8] = b"refused 3 0
elsewhere 2
control 1
new 1 0 0 1 1
repeat 1 0 0
spare 1 0 1
oti differs 1
symbol differs 1 0 0 27
over budget 1 0 3 3320 1000
installed 1
";

/// Events with the greatest values, or with no flag.
const LARGE: [Event; 6] = [
    Event::Refused {
        code: 255,
        detail: 18_446_744_073_709_551_615,
    },
    Event::Control { close: false },
    Event::New {
        toi: 5_192_296_858_534_827_628_530_496_329_220_095,
        sbn: 4_294_967_295,
        esi: 255,
        block_done: true,
        object_done: false,
    },
    Event::SymbolDiffers {
        toi: 340_282_366_920_938_463_463_374_607_431_768_211_455,
        sbn: 4_294_967_295,
        esi: 255,
        at: 65_535,
    },
    Event::OverBudget {
        toi: 340_282_366_920_938_463_463_374_607_431_768_211_455,
        sbn: 4_294_967_295,
        esi: 255,
        count: 18_446_744_073_709_551_615,
        charge: 18_446_744_073_709_551_614,
    },
    Event::Installed {
        number: 4_294_967_295,
    },
];

/// The lines of `LARGE`.
const LARGE_LINES: &[u8] = b"refused 255 18446744073709551615
control 0
new 5192296858534827628530496329220095 4294967295 255 1 0
symbol differs 340282366920938463463374607431768211455 4294967295 255 65535
over budget 340282366920938463463374607431768211455 4294967295 255 18446744073709551615 18446744073709551614
installed 4294967295
";

/// Compares the lines that were written, and how many writes it took.
fn compare_text(rt: &impl Abort, text: &MemText, wanted: &[u8], writes: u64, row: u32) {
    same(rt, &text.written(), &wanted, row);
    same(rt, &text.calls.made, &writes, row);
}

/// The lines of these events, none of which fails.
fn compare_lines(
    rt: &impl Abort,
    alloc: Global,
    events: &[Event],
    wanted: &[u8],
    row: u32,
) -> Result<(), AllocError> {
    let mut lines = Lines::new(text(alloc, &[])?);
    same(rt, &hear_all(&mut lines, events), &Ok(()), row);
    let count = events.len() as u64;
    compare_text(rt, &lines.text, wanted, count, row);
    compare(rt, &lines, count, None, row);
    Ok(())
}

#[test]
fn lines_writes_the_line_of_each_event(rt: HostRuntime) -> Result<(), Fail> {
    let alloc = rt.alloc();
    compare_lines(&rt, alloc, &events(), LINES, 1)?;
    compare_lines(&rt, alloc, &LARGE, LARGE_LINES, 2)?;
    Ok(())
}

#[test]
fn lines_is_deaf_where_its_text_fails(rt: HostRuntime) -> Result<(), Fail> {
    let mut lines = Lines::new(text(rt.alloc(), &[3])?);
    same(
        &rt,
        &hear_all(&mut lines, &events()),
        &Err(Unheard::Deaf),
        3,
    );
    compare(&rt, &lines, 2, None, 4);
    compare_text(&rt, &lines.text, b"refused 3 0\nelsewhere 2\n", 3, 5);
    same(
        &rt,
        &lines.hear(&Event::Installed { number: 7 }),
        &Ok(()),
        6,
    );
    compare(&rt, &lines, 3, None, 7);
    compare_text(
        &rt,
        &lines.text,
        b"refused 3 0\nelsewhere 2\ninstalled 7\n",
        4,
        8,
    );
    Ok(())
}

#[test]
fn bell_writes_an_installed_alone(rt: HostRuntime) -> Result<(), Fail> {
    let mut bell = Bell::new(text(rt.alloc(), &[])?);
    same(&rt, &hear_all(&mut bell, &events()), &Ok(()), 9);
    compare_text(&rt, &bell.text, b"installed 1\n", 1, 10);
    compare(&rt, &bell, 10, None, 11);
    Ok(())
}

#[test]
fn bell_is_deaf_where_its_text_fails(rt: HostRuntime) -> Result<(), Fail> {
    let mut bell = Bell::new(text(rt.alloc(), &[1])?);
    same(
        &rt,
        &hear_all(&mut bell, &events()),
        &Err(Unheard::Deaf),
        12,
    );
    compare(&rt, &bell, 9, None, 13);
    same(
        &rt,
        &bell.hear(&Event::Installed { number: 2 }),
        &Ok(()),
        14,
    );
    compare_text(&rt, &bell.text, b"installed 2\n", 2, 15);
    Ok(())
}
