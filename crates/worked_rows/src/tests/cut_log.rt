//! A log that is cut at each of its bytes.

use super::same::same;
use std::alloc::{AllocError, Global};
use std::process::Abort;
use std::test::Fail;
use worked_runs::logs::log_of_packets;
use worked_runs::pieces::{ALL, packets_of};
use worked_runs::playing::{NONE, NOTHING, Outcome, is, play};

/// Where the six items of the log start, each of two bytes and a datagram of 57, and where the last one ends.
const STARTS: [usize; 7] = [8, 67, 126, 185, 244, 303, 362];

/// The report of the file `hi`, which five of the datagrams bring.
const REPORT: &str = "instance 1\ndescriptor 2\nfiles 1\nfile 1 2\nlocation a\n";

/// How many datagrams are whole in the first bytes, so many, of the log.
fn whole_in(length: usize) -> usize {
    let items = STARTS.iter().filter(|start| **start <= length).count();
    items.saturating_sub(1)
}

/// Where the log is torn that has so many bytes, if it is.
fn torn_at(length: usize) -> Option<usize> {
    let last = STARTS.iter().rfind(|start| **start <= length);
    match last {
        None => Some(0),
        Some(start) if *start == length => None,
        Some(start) => Some(*start),
    }
}

/// How many events come of so many datagrams: one each, and with the fifth that the instance is installed.
fn events_of(whole: usize) -> u64 {
    if whole >= 5 {
        (whole as u64).saturating_add(1)
    } else {
        whole as u64
    }
}

/// What a replay of the first bytes of the log, so many, comes to, where this line says that it is torn, if it is.
fn outcome_of(length: usize, torn: Option<&str>) -> Outcome<'_> {
    let installs = whole_in(length) >= 5;
    Outcome {
        status: match torn {
            Some(_) => 3,
            None if installs => 0,
            None => 2,
        },
        best: if installs { REPORT } else { NOTHING },
        rest: torn.unwrap_or(""),
        shelf: match torn {
            None if installs => Some((1, &[(1, b"hi")])),
            _ => None,
        },
    }
}

/// Replays the first bytes of the log, so many.
fn replays_first(rt: &impl Abort, alloc: Global, log: &[u8], row: u32) -> Result<(), AllocError> {
    let length = row as usize;
    let line = match torn_at(length) {
        Some(at) => Some(format!(in alloc; "torn at {at}\n")?),
        None => None,
    };
    let torn = line.as_ref().map(|line| line.as_str());
    let first = log.get(..length).unwrap_or(b"");
    let ran = play(alloc, &["replay"], first, false, NONE)?;
    same(rt, &is(&ran, &outcome_of(length, torn)), &true, row);
    same(rt, &ran.heard, &Some(events_of(whole_in(length))), row);
    same(rt, &ran.edge.shelf.calls.made, &calls_at(length), row);
    Ok(())
}

/// How often the shelf is called: not where the log is torn.
fn calls_at(length: usize) -> u64 {
    if length == 303 || length == 362 { 3 } else { 0 }
}

#[test]
fn a_log_is_cut_at_each_byte(rt: HostRuntime) -> Result<(), Fail> {
    let packets = packets_of(rt.alloc(), &ALL)?;
    let log = log_of_packets(rt.alloc(), packets.as_slice())?;
    same(&rt, &log.len(), &362, 1_000);
    for length in 0..=362u32 {
        replays_first(&rt, rt.alloc(), log.as_slice(), length)?;
    }
    Ok(())
}
