//! What `replay` installs.

use super::rows::{plays, plays_log, replays};
use super::same::same;
use std::alloc::{AllocError, Global};
use std::process::Abort;
use std::test::Fail;
use worked_runs::logs::{EMPTY_INSTANCE_DATAGRAM, empty_instance, log_of};
use worked_runs::packets::with_byte;
use worked_runs::playing::{
    INSTALLS_1, INSTALLS_NOTHING, NONE, NOTHING, Outcome, REPORT_OF_1, is, play,
};

/// A replay of this log, which is read as a whole or byte by byte, installs instance 1, and its watcher hears of a new
/// symbol and of another instance.
fn installs_1(
    rt: &impl Abort,
    alloc: Global,
    log: &[u8],
    one_by_one: bool,
    row: u32,
) -> Result<(), AllocError> {
    let ran = play(alloc, &["replay"], log, one_by_one, NONE)?;
    same(rt, &is(&ran, &INSTALLS_1), &true, row);
    same(rt, &ran.heard, &Some(2), row);
    Ok(())
}

#[test]
fn empty_instance_is_installed(rt: HostRuntime) -> Result<(), Fail> {
    let log = log_of(rt.alloc(), &[&EMPTY_INSTANCE_DATAGRAM])?;
    same(&rt, &log.len(), &70, 1);
    installs_1(&rt, rt.alloc(), log.as_slice(), false, 2)?;
    installs_1(&rt, rt.alloc(), log.as_slice(), true, 3)?;
    Ok(())
}

const OF_2: Outcome<'static> = Outcome {
    best: "instance 2\ndescriptor 2\nfiles 0\n",
    shelf: Some((2, &[])),
    ..INSTALLS_1
};

const OF_3: Outcome<'static> = Outcome {
    best: "instance 3\ndescriptor 3\nfiles 0\n",
    shelf: Some((3, &[])),
    ..INSTALLS_1
};

const OF_9: Outcome<'static> = Outcome {
    best: "instance 5\ndescriptor 9\nfiles 0\n",
    shelf: Some((5, &[])),
    ..INSTALLS_1
};

const OF_4: Outcome<'static> = Outcome {
    best: "instance 5\ndescriptor 4\nfiles 0\n",
    shelf: Some((5, &[])),
    ..INSTALLS_1
};

#[test]
fn repeats_and_other_numbers(rt: HostRuntime) -> Result<(), Fail> {
    let one = EMPTY_INSTANCE_DATAGRAM;
    let two = empty_instance(2, 2);
    let three = empty_instance(3, 3);
    let nine = empty_instance(9, 5);
    let four = empty_instance(4, 5);
    let alloc = rt.alloc();
    replays(&rt, alloc, &[], &INSTALLS_NOTHING, 11)?;
    replays(&rt, alloc, &[&one, &one], &INSTALLS_1, 12)?;
    replays(&rt, alloc, &[&one, &two], &OF_2, 13)?;
    replays(&rt, alloc, &[&two, &one], &OF_2, 14)?;
    // A lower number that comes later isn't installed.
    replays(&rt, alloc, &[&three, &two], &OF_3, 15)?;
    replays(&rt, alloc, &[&three, &two, &one], &OF_3, 16)?;
    // Among equal numbers the least identifier is.
    replays(&rt, alloc, &[&nine], &OF_9, 17)?;
    replays(&rt, alloc, &[&nine, &four], &OF_4, 18)?;
    replays(&rt, alloc, &[&four, &nine], &OF_4, 19)?;
    Ok(())
}

/// The datagram installs nothing by itself, and changes nothing where instance 1 comes first.
fn is_left_out(
    rt: &impl Abort,
    alloc: Global,
    datagram: &[u8],
    row: u32,
) -> Result<(), AllocError> {
    replays(rt, alloc, &[datagram], &INSTALLS_NOTHING, row)?;
    changes_nothing(rt, alloc, datagram, row)
}

/// The datagram changes nothing where instance 1 comes first.
fn changes_nothing(
    rt: &impl Abort,
    alloc: Global,
    datagram: &[u8],
    row: u32,
) -> Result<(), AllocError> {
    let datagrams = [EMPTY_INSTANCE_DATAGRAM.as_slice(), datagram];
    replays(rt, alloc, &datagrams, &INSTALLS_1, row)
}

/// The lengths of a control of the session, and of datagrams that are refused.
const CUTS: [(u32, usize); 3] = [(21, 28), (22, 30), (23, 32)];

/// A byte at a place of the header, with which a datagram is refused.
const REFUSED: [(u32, usize, u8); 4] = [(24, 2, 6), (25, 2, 4), (26, 2, 3), (27, 3, 6)];

#[test]
fn refused_and_control_datagrams(rt: HostRuntime) -> Result<(), Fail> {
    for (row, length) in CUTS {
        let cut = EMPTY_INSTANCE_DATAGRAM.as_slice().get(..length);
        is_left_out(&rt, rt.alloc(), cut.ok_or("cut")?, row)?;
    }
    for (row, at, byte) in REFUSED {
        let refused = with_byte(rt.alloc(), at, byte)?;
        is_left_out(&rt, rt.alloc(), refused.as_slice(), row)?;
    }
    Ok(())
}

#[test]
fn what_differs_is_left_out(rt: HostRuntime) -> Result<(), Fail> {
    // Another symbol, and other transmission information, than what is held.
    for (row, at, byte) in [(31u32, 59usize, 1u8), (32, 27, 2)] {
        let other = with_byte(rt.alloc(), at, byte)?;
        changes_nothing(&rt, rt.alloc(), other.as_slice(), row)?;
    }
    // Another session.
    let words = ["replay", "--tsi", "2"];
    let one = EMPTY_INSTANCE_DATAGRAM;
    plays(&rt, rt.alloc(), &words, &[&one], &INSTALLS_NOTHING, 33)?;
    Ok(())
}

/// More datagrams came than may be taken.
const TOO_MANY: Outcome<'static> = Outcome {
    status: 11,
    best: REPORT_OF_1,
    rest: "too many datagrams\n",
    shelf: None,
};

/// What instance 1 twice comes to, of which at most so many datagrams are taken.
const LIMITS: [(u32, &str, Outcome<'static>); 3] = [
    (41, "1", TOO_MANY),
    (42, "2", INSTALLS_1),
    (43, "3", INSTALLS_1),
];

#[test]
fn the_limit_of_datagrams(rt: HostRuntime) -> Result<(), Fail> {
    let one = EMPTY_INSTANCE_DATAGRAM;
    for (row, most, outcome) in &LIMITS {
        let words = ["replay", "--most", *most];
        plays(&rt, rt.alloc(), &words, &[&one, &one], outcome, *row)?;
    }
    Ok(())
}

/// The log is torn, which leaves the shelf alone; the text is this report and this line.
fn is_torn(
    rt: &impl Abort,
    alloc: Global,
    log: &[u8],
    best: &'static str,
    rest: &'static str,
    row: u32,
) -> Result<(), AllocError> {
    let outcome = Outcome {
        status: 3,
        best,
        rest,
        shelf: None,
    };
    plays_log(rt, alloc, &["replay"], log, &outcome, row)
}

#[test]
fn torn_logs_leave_the_shelf_alone(rt: HostRuntime) -> Result<(), Fail> {
    let alloc = rt.alloc();
    let mut log = log_of(alloc, &[&EMPTY_INSTANCE_DATAGRAM])?;
    log.extend_from_slice(&[0, 60, 1, 2, 3, 4, 5, 6, 7, 8, 9, 10])?;
    let cut = log.as_slice().get(..69).ok_or("cut")?;
    is_torn(&rt, alloc, b"", NOTHING, "torn at 0\n", 51)?;
    is_torn(&rt, alloc, b"FCASTLG2", NOTHING, "torn at 0\n", 52)?;
    is_torn(&rt, alloc, cut, NOTHING, "torn at 8\n", 53)?;
    is_torn(&rt, alloc, log.as_slice(), REPORT_OF_1, "torn at 70\n", 54)?;
    Ok(())
}
