//! What the watchers of a run are told.

use crate::playing::{NONE, edge_of, labels_of};
use fcast_run::run;
use std::alloc::{AllocError, Global};
use watch_list::{Counter, Diary, Event, Watch};

/// What the watchers heard in a run.
#[derive(Drop)]
pub struct Heard {
    /// The events that the first of those still there keeps.
    pub events: Vec<Event>,
    /// How many the last of them heard.
    pub count: Option<u64>,
    /// How many are still there.
    pub watchers: usize,
}

/// Runs the words over this log, with a diary that is deaf at these calls, and a counter behind it.
pub fn told(alloc: Global, words: &[&str], log: &[u8], deaf: &[u32]) -> Result<Heard, AllocError> {
    let words = labels_of(alloc, words)?;
    let mut edge = edge_of(alloc, log, false, NONE)?;
    let mut watchers: Vec<Box<dyn Watch>> = Vec::new(alloc);
    let diary = Diary::new(Vec::from_slice(alloc, deaf)?);
    watchers.push(Box::new(alloc, diary)?)?;
    watchers.push(Box::new(alloc, Counter::new())?)?;
    run(alloc, words.as_slice(), &mut edge, &mut watchers);
    let mut events = Vec::new(alloc);
    if let Some(first) = watchers.as_slice().first() {
        for place in 0..first.tally() {
            if let Some(event) = first.heard(place) {
                events.push(event)?;
            }
        }
    }
    let count = watchers.as_slice().last().map(|last| last.tally());
    Ok(Heard {
        events,
        count,
        watchers: watchers.len(),
    })
}

/// A new symbol of block 0.
pub fn new(toi: u128, esi: u8, block_done: bool, object_done: bool) -> Event {
    Event::New {
        toi,
        sbn: 0,
        esi,
        block_done,
        object_done,
    }
}
