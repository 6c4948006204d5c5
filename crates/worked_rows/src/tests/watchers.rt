//! Watchers that don't hear all.

use super::same::same;
use super::watched::watch;
use std::alloc::{AllocError, Global};
use std::process::Abort;
use std::test::Fail;
use watch_list::Event;
use worked_runs::logs::{EMPTY_INSTANCE_DATAGRAM, log_of};
use worked_runs::playing::{INSTALLS_1, is};
use worked_runs::telling::new;

/// Of two diaries one is deaf at these calls, and is dropped; the other hears both events, and the run ends as ever.
fn one_is_dropped(
    rt: &impl Abort,
    alloc: Global,
    log: &[u8],
    deaf: &[&[u32]],
    row: u32,
) -> Result<(), AllocError> {
    let events = [new(1, 0, true, true), Event::Installed { number: 1 }];
    let watched = watch(alloc, &["replay"], log, false, deaf)?;
    same(rt, &watched.heard.len(), &1, row);
    same(rt, &watched.events(0), &events.as_slice(), row);
    same(rt, &is(&watched.ran, &INSTALLS_1), &true, row);
    Ok(())
}

#[test]
fn a_watcher_that_is_deaf_is_dropped(rt: HostRuntime) -> Result<(), Fail> {
    let log = log_of(rt.alloc(), &[&EMPTY_INSTANCE_DATAGRAM])?;
    let rows: [(u32, [&[u32]; 2]); 4] = [
        (1, [&[2], &[]]),
        (2, [&[1], &[]]),
        (3, [&[], &[2]]),
        (4, [&[], &[1]]),
    ];
    for (row, deaf) in &rows {
        one_is_dropped(&rt, rt.alloc(), log.as_slice(), deaf, *row)?;
    }
    Ok(())
}
