//! Runs over devices that never fail, for each status that they can end with.

use super::same::same;
use crate::{SureEdge, run_surely};
use edge_io::{SureDatagrams, SureEmit, SureFiles, SureShelf, SureText};
use fcast_run::{Edge, Wide, run_listen};
use std::alloc::{AllocError, Global};
use std::process::Abort;
use std::sync::{Arc, Wait};
use std::test::Fail;
use std::thread::Threads;
use std::time::Clock;
use worked_runs::given::{named, short};
use worked_runs::logs::EMPTY_INSTANCE_DATAGRAM;
use worked_runs::packets::zero_packets;
use worked_runs::playing::labels_of;

/// What comes from the outside: datagrams, where their log is torn, and files.
#[derive(Clone, Copy)]
struct Given<'a> {
    datagrams: &'a [Vec<u8>],
    torn: Option<u64>,
    files: &'a [(&'a str, &'a [u8])],
}

fn edge_of(alloc: Global, given: &Given<'_>) -> Result<SureEdge, AllocError> {
    let datagrams = short(alloc, given.datagrams)?;
    Ok(Edge {
        datagrams: SureDatagrams::new(datagrams, given.torn),
        emit: SureEmit::new(alloc),
        files: SureFiles::new(named(alloc, given.files)?),
        shelf: SureShelf::new(alloc, None),
        text: SureText::new(Vec::new(alloc)),
    })
}

/// A run of these words ends with this status.
fn ends(
    rt: &impl Abort,
    alloc: Global,
    words: &[&str],
    given: &Given<'_>,
    status: u8,
    row: u32,
) -> Result<(), AllocError> {
    let words = labels_of(alloc, words)?;
    let mut edge = edge_of(alloc, given)?;
    let found = run_surely(alloc, words.as_slice(), &mut edge);
    same(rt, &found, &status, row);
    Ok(())
}

/// The datagram of the empty instance, so often.
fn copies(alloc: Global, count: u8) -> Result<Vec<Vec<u8>>, AllocError> {
    let mut copies = Vec::new(alloc);
    for _copy in 0..count {
        copies.push(Vec::from_slice(alloc, &EMPTY_INSTANCE_DATAGRAM)?)?;
    }
    Ok(copies)
}

/// The words that receive two datagrams.
const TWO: [&str; 7] = [
    "recv",
    "--addr",
    "127.0.0.1",
    "--port",
    "4000",
    "--count",
    "2",
];

#[test]
fn receiving(rt: HostRuntime) -> Result<(), Fail> {
    let alloc = rt.alloc();
    let two = copies(alloc, 2)?;
    let eight = zero_packets(alloc, 1_000, 8)?;
    let whole = Given {
        datagrams: two.as_slice(),
        torn: None,
        files: &[],
    };
    let torn = Given {
        torn: Some(132),
        ..whole
    };
    let none = Given {
        datagrams: &[],
        ..whole
    };
    let large = Given {
        datagrams: eight.as_slice(),
        ..whole
    };
    ends(&rt, alloc, &["replay"], &whole, 0, 1)?;
    ends(&rt, alloc, &["replay"], &none, 2, 2)?;
    ends(&rt, alloc, &["replay"], &torn, 3, 3)?;
    ends(&rt, alloc, &["replay", "--budget", "4096"], &large, 7, 4)?;
    ends(&rt, alloc, &["replay", "--most", "1"], &whole, 11, 5)?;
    ends(&rt, alloc, &TWO, &torn, 0, 6)?;
    ends(&rt, alloc, &TWO, &none, 2, 7)?;
    ends(&rt, alloc, &["dump"], &whole, 0, 8)?;
    ends(&rt, alloc, &["dump"], &torn, 3, 9)?;
    ends(&rt, alloc, &["dump", "--most", "1"], &whole, 11, 10)?;
    Ok(())
}

/// A catalog and its file, and what is wrong with other catalogs.
const SENDS: [(u32, &[u8], u8); 4] = [
    (21, b"instance\t1\nfile\tf\ta\n", 0),
    (22, b"file\tf\ta\n", 8),
    (23, b"instance\t2\ninstance\t1\n", 8),
    (24, b"instance\t1\nfile\tg\ta\n", 10),
];

#[test]
fn other_commands(rt: HostRuntime) -> Result<(), Fail> {
    let alloc = rt.alloc();
    for (row, catalog, status) in SENDS {
        let given = Given {
            datagrams: &[],
            torn: None,
            files: &[("c", catalog), ("f", b"hi")],
        };
        ends(&rt, alloc, &["send", "--catalog", "c"], &given, status, row)?;
    }
    let nothing = Given {
        datagrams: &[],
        torn: None,
        files: &[],
    };
    ends(&rt, alloc, &["drill", "--start", "0"], &nothing, 0, 25)?;
    ends(&rt, alloc, &[], &nothing, 1, 26)?;
    ends(&rt, alloc, &["listen"], &nothing, 1, 27)?;
    Ok(())
}

/// A listening of these words ends with this status.
fn listens<R: Threads + Wait + Abort + Clock + Copy + Send + 'static>(
    rt: &R,
    alloc: Global,
    words: &[&str],
    given: &Given<'_>,
    status: u8,
    row: u32,
) -> Result<(), AllocError> {
    let words = labels_of(alloc, words)?;
    let mut edge = edge_of(alloc, given)?;
    let mut watchers = Vec::new(alloc);
    let gate = Arc::new(alloc, Wide)?;
    let found = run_listen(rt, alloc, words.as_slice(), &mut edge, &mut watchers, &gate);
    same(rt, &found, &status, row);
    Ok(())
}

#[test]
fn listening(rt: HostRuntime) -> Result<(), Fail> {
    let alloc = rt.alloc();
    let two = copies(alloc, 2)?;
    let whole = Given {
        datagrams: two.as_slice(),
        torn: None,
        files: &[],
    };
    let torn = Given {
        torn: Some(132),
        ..whole
    };
    listens(&rt, alloc, &["listen"], &whole, 0, 31)?;
    listens(&rt, alloc, &["listen"], &torn, 3, 32)?;
    listens(&rt, alloc, &["listen", "--most", "1"], &whole, 11, 33)?;
    listens(&rt, alloc, &["replay"], &whole, 1, 34)?;
    Ok(())
}
