//! Events, and watchers that hear all of them.

use super::same::same;
use edge_io::MemText;
use std::alloc::{AllocError, Global};
use std::process::Abort;
use std::test::Fail;
use watch_list::{Counter, Diary, Event, Unheard, Watch};

/// One event of each kind.
const EVENTS: [Event; 10] = [
    Event::Refused { code: 3, detail: 0 },
    Event::Elsewhere { tsi: 2 },
    Event::Control { close: true },
    Event::New {
        toi: 1,
        sbn: 0,
        esi: 0,
        block_done: true,
        object_done: true,
    },
    Event::Repeat {
        toi: 1,
        sbn: 0,
        esi: 0,
    },
    Event::Spare {
        toi: 1,
        sbn: 0,
        esi: 1,
    },
    Event::OtiDiffers { toi: 1 },
    Event::SymbolDiffers {
        toi: 1,
        sbn: 0,
        esi: 0,
        at: 27,
    },
    Event::OverBudget {
        toi: 1,
        sbn: 0,
        esi: 3,
        count: 3320,
        charge: 1000,
    },
    Event::Installed { number: 1 },
];

/// One event of each kind, in a function of its own: a proof that meets them all is slow.
pub fn events() -> [Event; 10] {
    EVENTS
}

/// A text in memory, which is empty, and whose writes of these numbers fail.
pub fn text(alloc: Global, fails: &[u32]) -> Result<MemText, AllocError> {
    Ok(MemText::new(Vec::new(alloc), Vec::from_slice(alloc, fails)?))
}

/// Lets the watcher hear the events, up to the first that it doesn't hear.
pub fn hear_all<W: Watch>(watcher: &mut W, events: &[Event]) -> Result<(), Unheard> {
    for event in events {
        watcher.hear(event)?;
    }
    Ok(())
}

/// Compares how many events the watcher heard, and the first of them.
pub fn compare<W: Watch>(rt: &impl Abort, watcher: &W, tally: u64, first: Option<Event>, row: u32) {
    same(rt, &watcher.tally(), &tally, row);
    same(rt, &watcher.heard(0), &first, row);
}

#[test]
fn counter_counts_every_event(rt: HostRuntime) -> Result<(), Fail> {
    let mut counter = Counter::new();
    compare(&rt, &counter, 0, None, 1);
    same(&rt, &hear_all(&mut counter, &events()), &Ok(()), 2);
    compare(&rt, &counter, 10, None, 3);
    Ok(())
}

/// Compares each event that the diary shows with these, and that it shows no other.
fn compare_events(rt: &impl Abort, diary: &Diary, events: &[Event], row: u32) {
    let mut place: u64 = 0;
    for event in events {
        same(rt, &diary.heard(place), &Some(*event), row);
        place = place.saturating_add(1);
    }
    same(rt, &diary.heard(place), &None, row);
    same(rt, &diary.tally(), &place, row);
}

#[test]
fn diary_keeps_every_event(rt: HostRuntime) -> Result<(), Fail> {
    let mut diary = Diary::new(Vec::new(rt.alloc()));
    compare(&rt, &diary, 0, None, 4);
    same(&rt, &hear_all(&mut diary, &events()), &Ok(()), 5);
    compare_events(&rt, &diary, &events(), 6);
    same(&rt, &diary.heard(u64::MAX), &None, 7);
    Ok(())
}

#[test]
fn diary_is_deaf_at_the_stated_calls(rt: HostRuntime) -> Result<(), Fail> {
    let mut diary = Diary::new(Vec::from_slice(rt.alloc(), &[2, 4])?);
    let first = Event::OtiDiffers { toi: 5 };
    let event = Event::Elsewhere { tsi: 9 };
    same(&rt, &diary.hear(&first), &Ok(()), 8);
    same(&rt, &diary.hear(&event), &Err(Unheard::Deaf), 9);
    same(&rt, &diary.hear(&event), &Ok(()), 10);
    same(&rt, &diary.hear(&event), &Err(Unheard::Deaf), 11);
    compare_events(&rt, &diary, &[first, event], 12);
    Ok(())
}
