//! What those who listened to a run have heard.

use std::io;
use std::io::Eprint;
use watch_list::Watch;

/// How many events each watcher heard, in order.
pub fn heard_by(watchers: &[Box<dyn Watch>], heard: &mut Vec<u64>) -> io::Result<()> {
    for watcher in watchers {
        heard.push(watcher.tally())?;
    }
    Ok(())
}

/// Says how many events each watcher heard that is still there, by its place from 1.
pub fn tell_heard(rt: &impl Eprint, heard: &[u64]) {
    let mut place: u64 = 0;
    for number in heard {
        place = place.saturating_add(1);
        let _told = eprintln!(rt; "watcher {place} heard {number}");
    }
}
