//! Watchers in boxes, as a run has them.

use super::same::same;
use super::watchers::{events, text};
use std::alloc::{AllocError, Global};
use std::process::Abort;
use std::test::Fail;
use watch_list::{Bell, Counter, Diary, Event, Lines, Watch};

/// Compares the events that the watcher shows with these, and that it shows no other.
fn compare_shown(rt: &impl Abort, watcher: &Box<dyn Watch>, events: &[Event], row: u32) {
    let mut place: u64 = 0;
    for event in events {
        same(rt, &watcher.heard(place), &Some(*event), row);
        place = place.saturating_add(1);
    }
    same(rt, &watcher.heard(place), &None, row);
}

/// Lets the watcher hear the events, and counts those that it refuses.
fn count_refused(watcher: &mut Box<dyn Watch>, events: &[Event]) -> u64 {
    let mut refused: u64 = 0;
    for event in events {
        if watcher.hear(event).is_err() {
            refused = refused.saturating_add(1);
        }
    }
    refused
}

/// Asserts that the watcher refuses this many of one event of each kind, hears the others, and shows these.
fn compare(rt: &impl Abort, watcher: Box<dyn Watch>, refused: u64, shown: &[Event], row: u32) {
    let mut watcher = watcher;
    same(rt, &count_refused(&mut watcher, &events()), &refused, row);
    same(rt, &watcher.tally(), &10u64.saturating_sub(refused), row);
    compare_shown(rt, &watcher, shown, row);
}

#[test]
fn counter_hears_in_a_box(rt: HostRuntime) -> Result<(), Fail> {
    let counter = Box::new(rt.alloc(), Counter::new())?;
    compare(&rt, counter, 0, &[], 1);
    Ok(())
}

/// Compares a diary in a box that is deaf at the call of this number.
fn compare_diary(
    rt: &impl Abort,
    alloc: Global,
    call: u32,
    refused: u64,
    shown: &[Event],
    row: u32,
) -> Result<(), AllocError> {
    let diary = Diary::new(Vec::from_slice(alloc, &[call])?);
    compare(rt, Box::new(alloc, diary)?, refused, shown, row);
    Ok(())
}

#[test]
fn diary_hears_in_a_box(rt: HostRuntime) -> Result<(), Fail> {
    compare_diary(&rt, rt.alloc(), 0, 0, &events(), 2)?;
    Ok(())
}

#[test]
fn diary_refuses_in_a_box(rt: HostRuntime) -> Result<(), Fail> {
    compare_diary(&rt, rt.alloc(), 1, 1, &events()[1..], 3)?;
    compare_diary(&rt, rt.alloc(), 10, 1, &events()[..9], 4)?;
    Ok(())
}

#[test]
fn lines_hears_in_a_box(rt: HostRuntime) -> Result<(), Fail> {
    let alloc = rt.alloc();
    for call in [0u32, 1, 10] {
        let lines = Box::new(alloc, Lines::new(text(alloc, &[call])?))?;
        compare(&rt, lines, u64::from(call.min(1)), &[], 5);
    }
    Ok(())
}

// Of the ten events one alone is written.
#[test]
fn bell_hears_in_a_box(rt: HostRuntime) -> Result<(), Fail> {
    let alloc = rt.alloc();
    for (call, refused) in [(0u32, 0u64), (1, 1), (2, 0)] {
        let bell = Box::new(alloc, Bell::new(text(alloc, &[call])?))?;
        compare(&rt, bell, refused, &[], 6);
    }
    Ok(())
}
