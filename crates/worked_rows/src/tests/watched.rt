//! Runs over a log, with diaries as watchers.

use fcast_run::run;
use std::alloc::{AllocError, Global};
use watch_list::{Diary, Event, Watch};
use worked_runs::playing::{NONE, Ran, edge_of, labels_of};

/// How a run ended, and what those of its watchers that are still there have heard.
#[derive(Drop)]
pub struct Watched {
    pub ran: Ran,
    pub heard: Vec<Vec<Event>>,
}

impl Watched {
    /// What the watcher at this place has heard; nothing where there is none.
    pub fn events(&self, place: usize) -> &[Event] {
        match self.heard.as_slice().get(place) {
            Some(events) => events.as_slice(),
            None => &[],
        }
    }
}

/// Runs these words over this log, which is read as a whole or byte by byte, with a diary for each of these lists of
/// the calls at which it is deaf.
pub fn watch(
    alloc: Global,
    words: &[&str],
    log: &[u8],
    one_by_one: bool,
    deaf: &[&[u32]],
) -> Result<Watched, AllocError> {
    let words = labels_of(alloc, words)?;
    let mut edge = edge_of(alloc, log, one_by_one, NONE)?;
    let mut watchers: Vec<Box<dyn Watch>> = Vec::new(alloc);
    for calls in deaf {
        let diary = Diary::new(Vec::from_slice(alloc, calls)?);
        watchers.push(Box::new(alloc, diary)?)?;
    }
    let status = run(alloc, words.as_slice(), &mut edge, &mut watchers);
    let mut heard = Vec::new(alloc);
    for watcher in watchers.as_slice() {
        let mut events = Vec::new(alloc);
        for place in 0..watcher.tally() {
            if let Some(event) = watcher.heard(place) {
                events.push(event)?;
            }
        }
        heard.push(events)?;
    }
    let ran = Ran {
        status,
        edge,
        heard: None,
    };
    Ok(Watched { ran, heard })
}
