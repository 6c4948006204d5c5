//! The files that a drill draws, and what the session of them comes to. It goes by docs/FORMATS.md, and has nothing from
//! the drill itself.

use crate::deliveries::{deliveries, next, row_steps};
use crate::sending::{Sent, send};
use crate::texts::push_parts;
use std::alloc::{AllocError, Global};

/// The locations of the files, which are their names too.
const LOCATIONS: [&str; 12] = [
    "drill/0", "drill/1", "drill/2", "drill/3", "drill/4", "drill/5", "drill/6", "drill/7",
    "drill/8", "drill/9", "drill/10", "drill/11",
];

/// The words that send the catalog of a drill.
const WORDS: [&str; 13] = [
    "send",
    "--catalog",
    "c",
    "--tsi",
    "1",
    "--symbol",
    "512",
    "--block",
    "32",
    "--maxn",
    "48",
    "--cycles",
    "2",
];

/// The files that the third instance leaves out stand in front of this one.
pub const FIRST_FILE_OF_3: usize = 4;

/// A file that is drawn in this state, and the state behind it.
pub fn drawn_file(alloc: Global, state: u64) -> Result<(Vec<u8>, u64), AllocError> {
    let mut state = next(state);
    let length = (state >> 32) % 200_000;
    let mut bytes = Vec::new(alloc);
    for _byte in 0..length {
        state = next(state);
        bytes.push(((state >> 32) % 256) as u8)?;
    }
    Ok((bytes, state))
}

/// The first twelve files that are drawn from this state on, and the state behind them.
pub fn drawn_files(alloc: Global, start: u64) -> Result<(Vec<Vec<u8>>, u64), AllocError> {
    let mut state = start;
    let mut files = Vec::new(alloc);
    for _file in 0..12 {
        let (bytes, after) = drawn_file(alloc, state)?;
        state = after;
        files.push(bytes)?;
    }
    Ok((files, state))
}

/// The text of the catalog: three instances of eight files each.
fn catalog(alloc: Global) -> Result<String, AllocError> {
    let mut text = String::new(alloc);
    push_instance(&mut text, "1", &LOCATIONS[0..8])?;
    push_instance(&mut text, "2", &LOCATIONS[2..10])?;
    push_instance(&mut text, "3", &LOCATIONS[4..12])?;
    Ok(text)
}

fn push_instance(text: &mut String, number: &str, locations: &[&str]) -> Result<(), AllocError> {
    push_parts(text, &["instance\t", number, "\n"])?;
    for location in locations {
        push_parts(text, &["file\t", location, "\t", location, "\n"])?;
    }
    Ok(())
}

/// Sends the catalog with these files.
fn send_drawn(alloc: Global, drawn: &[Vec<u8>]) -> Result<Sent, AllocError> {
    let catalog = catalog(alloc)?;
    let mut files = Vec::new(alloc);
    files.push(("c", catalog.as_bytes()))?;
    for (location, bytes) in LOCATIONS.iter().zip(drawn) {
        files.push((*location, bytes.as_slice()))?;
    }
    send(alloc, &WORDS, files.as_slice())
}

/// How many datagrams of a drill are sent and delivered, and the row steps that these take.
#[derive(Clone, Copy)]
pub struct Counts {
    pub sent: u64,
    pub delivered: u64,
    pub steps: u64,
}

/// What the drill of these files comes to, where this is the generator's state behind them.
pub fn counts_of(alloc: Global, drawn: &[Vec<u8>], state: u64) -> Result<Counts, AllocError> {
    let sent = send_drawn(alloc, drawn)?;
    let datagrams = sent.edge.emit.sent();
    let places = deliveries(alloc, datagrams.len(), state)?;
    Ok(Counts {
        sent: datagrams.len() as u64,
        delivered: places.len() as u64,
        steps: row_steps(alloc, datagrams, places.as_slice())?,
    })
}
