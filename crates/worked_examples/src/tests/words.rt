//! Words that are no command.

use super::rows::plays_log;
use std::test::Fail;
use worked_runs::logs::{EMPTY_INSTANCE_DATAGRAM, log_of};
use worked_runs::playing::Outcome;

const USAGE: Outcome<'static> = Outcome {
    status: 1,
    best: "usage: replay, recv, send, dump, drill or listen\n",
    rest: "",
    shelf: None,
};

const ROWS: [(u32, &[&str]); 10] = [
    (1, &[]),
    (2, &["replay", "--most"]),
    (3, &["replay", "--most=1"]),
    (4, &["replay", "--most", "0"]),
    (5, &["replay", "--most", "1", "--most", "1"]),
    (6, &["replay", "--"]),
    (7, &["--help"]),
    (8, &["Replay"]),
    (9, &["replay", "replay"]),
    // `run_listen` does this one.
    (10, &["listen"]),
];

#[test]
fn other_words_are_no_command(rt: HostRuntime) -> Result<(), Fail> {
    let log = log_of(rt.alloc(), &[&EMPTY_INSTANCE_DATAGRAM])?;
    for (row, words) in ROWS {
        plays_log(&rt, rt.alloc(), words, log.as_slice(), &USAGE, row)?;
    }
    Ok(())
}
