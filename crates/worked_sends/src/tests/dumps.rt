//! What `dump` writes.

use super::same::same;
use std::alloc::{AllocError, Global};
use std::process::Abort;
use std::test::Fail;
use worked_runs::logs::{EMPTY_INSTANCE_DATAGRAM, log_of, log_of_copies};
use worked_runs::playing::{NONE, play};
use worked_runs::texts::joined;

/// The line of the empty instance's datagram, but for its place.
const LINE: &str =
    " symbol tsi 1 toi 1 sbn 0 esi 0 length 28 size 28 block 1 maxn 1 bytes 28 close 0 data 03009afa0000001946636173742d4349\n";

/// A run of these words over the log ends with this status and these texts, and leaves the shelf alone.
fn ends_with(
    rt: &impl Abort,
    alloc: Global,
    words: &[&str],
    log: &[u8],
    wanted: (u8, &[&str]),
    row: u32,
) -> Result<(), AllocError> {
    let (status, texts) = wanted;
    let text = joined(alloc, texts)?;
    let ran = play(alloc, words, log, false, NONE)?;
    same(rt, &ran.status, &status, row);
    same(rt, &ran.edge.text.written(), &text.as_bytes(), row);
    same(rt, &ran.edge.shelf.finished().is_none(), &true, row);
    Ok(())
}

/// A dump of this log ends so.
fn dumps(
    rt: &impl Abort,
    alloc: Global,
    log: &[u8],
    wanted: (u8, &[&str]),
    row: u32,
) -> Result<(), AllocError> {
    ends_with(rt, alloc, &["dump"], log, wanted, row)
}

#[test]
fn whole_and_torn_logs(rt: HostRuntime) -> Result<(), Fail> {
    let alloc = rt.alloc();
    let none = log_of_copies(alloc, 0)?;
    let one = log_of_copies(alloc, 1)?;
    let two = log_of_copies(alloc, 2)?;
    let mut torn = log_of_copies(alloc, 1)?;
    torn.extend_from_slice(&[0, 0x3C, 1, 2, 3])?;
    let rows: [(u32, &[u8], (u8, &[&str])); 5] = [
        (1, none.as_slice(), (0, &[])),
        (2, b"", (3, &["torn at 0\n"])),
        (3, one.as_slice(), (0, &["0", LINE])),
        (4, two.as_slice(), (0, &["0", LINE, "1", LINE])),
        // It ends in an item that isn't whole.
        (5, torn.as_slice(), (3, &["0", LINE, "torn at 70\n"])),
    ];
    for (row, log, wanted) in rows {
        dumps(&rt, alloc, log, wanted, row)?;
    }
    Ok(())
}

/// A header alone, a cut datagram and an empty one.
#[test]
fn other_datagrams(rt: HostRuntime) -> Result<(), Fail> {
    let whole = &EMPTY_INSTANCE_DATAGRAM;
    let log = log_of(rt.alloc(), &[&whole[..28], &whole[..30], &[]])?;
    let text =
        "0 control tsi 1 close 0\n1 refused 16 0 data 10a00705000000000000000100000001\n2 refused 1 0 data -\n";
    dumps(&rt, rt.alloc(), log.as_slice(), (0, &[text]), 11)?;
    Ok(())
}

#[test]
fn more_datagrams_than_may_be(rt: HostRuntime) -> Result<(), Fail> {
    let log = log_of_copies(rt.alloc(), 2)?;
    let words = ["dump", "--most", "1"];
    let wanted: (u8, &[&str]) = (11, &["0", LINE, "too many datagrams\n"]);
    ends_with(&rt, rt.alloc(), &words, log.as_slice(), wanted, 21)?;
    Ok(())
}
