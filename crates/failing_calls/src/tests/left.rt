//! What a run leaves.

use super::devices::{Counted, DEVICES, Ended, Failing, OLD};
use super::same::same;
use edge_io::MemShelf;
use std::process::Abort;

/// What a shelf holds: the number of the finished instance, that of the part, and how many files the part has.
pub type Held = (Option<u32>, u32, usize);

/// The old instance, and no part.
pub const UNTOUCHED: Held = (Some(OLD), 0, 0);

/// What a run is to leave: its status, its text, what the shelf holds; and how often source, sink, files, shelf and text
/// were called.
#[derive(Clone, Copy)]
pub struct Left<'a> {
    pub status: u8,
    pub text: &'a str,
    pub shelf: Held,
    pub made: [u64; 5],
}

/// What the shelf holds.
pub fn held(shelf: &MemShelf) -> Held {
    let finished = shelf.finished().map(|instance| instance.number());
    (finished, shelf.part_number(), shelf.part_files().len())
}

/// Asserts that the run left this, and that exactly the call that was to fail did.
pub fn leaves<D: Counted, E: Counted>(
    rt: &impl Abort,
    ended: &Ended<D, E>,
    failing: Failing,
    left: &Left<'_>,
    row: u32,
) {
    same(rt, &ended.status, &left.status, row);
    let text = ended.edge.text.written();
    same(rt, &text, &left.text.as_bytes(), row);
    same(rt, &held(&ended.edge.shelf), &left.shelf, row);
    for (device, made) in DEVICES.iter().zip(left.made) {
        let counts = (made, failing.count_of(*device));
        same(rt, &ended.counts(*device), &counts, row);
    }
}
