//! Lists of watchers that are told an event.

use super::same::same;
use fcast_run::tell_all;
use std::alloc::{AllocError, Global};
use std::process::Abort;
use std::test::Fail;
use watch_list::{Counter, Diary, Event, Watch};

/// The events that are told, in this order.
const EVENTS: [Event; 3] = [
    Event::Refused { code: 3, detail: 0 },
    Event::Elsewhere { tsi: 2 },
    Event::Installed { number: 1 },
];

/// A diary that is deaf at the call of this number, one that hears all, and a counter.
fn three_watchers(alloc: Global, call: u32) -> Result<Vec<Box<dyn Watch>>, AllocError> {
    let mut watchers: Vec<Box<dyn Watch>> = Vec::new(alloc);
    let deaf = Vec::from_slice(alloc, &[call])?;
    watchers.push(Box::new(alloc, Diary::new(deaf))?)?;
    watchers.push(Box::new(alloc, Diary::new(Vec::new(alloc)))?)?;
    watchers.push(Box::new(alloc, Counter::new())?)?;
    Ok(watchers)
}

/// The watcher that is deaf at this call is dropped there, and the others hear each event.
fn first_is_dropped(rt: &impl Abort, alloc: Global, call: u32) -> Result<(), AllocError> {
    let mut watchers = three_watchers(alloc, call)?;
    let mut number: u32 = 0;
    for event in &EVENTS {
        number = number.saturating_add(1);
        let dropped = tell_all(&mut watchers, event);
        same(rt, &(dropped == 1), &(number == call), call);
    }
    same(rt, &watchers.len(), &2, call);
    for watcher in watchers.as_slice() {
        same(rt, &watcher.tally(), &3, call);
    }
    Ok(())
}

#[test]
fn a_deaf_one_is_dropped_and_the_others_hear_all(rt: HostRuntime) -> Result<(), Fail> {
    for call in 1..4 {
        first_is_dropped(&rt, rt.alloc(), call)?;
    }
    Ok(())
}
