//! A station: three instances are sent, each third datagram is lost, and the rest comes in reverse order.

use super::same::same;
use super::watched::watch;
use std::alloc::{AllocError, Global};
use std::process::Abort;
use std::test::Fail;
use watch_list::Event;
use worked_runs::logs::log_of_packets;
use worked_runs::playing::{Failing, NONE, Outcome, is, play};
use worked_runs::sending::send;

/// A page; a page and a picture; a changed page, the picture, and a program.
const CATALOG: &[u8] = b"instance\t1\nfile\tpage\tindex.html\ttext/html\n\
instance\t2\nfile\tpage\tindex.html\ttext/html\nfile\tpicture\tsky.jpg\timage/jpeg\n\
instance\t3\nfile\tchanged\tindex.html\ttext/html\nfile\tpicture\tsky.jpg\timage/jpeg\nfile\tprogram\tnode.bin\n";

/// The manifest of instance 3: the objects are the page, 1, the picture, the changed page, the program, and after its
/// files the descriptor of each instance.
const MANIFEST: &str = "instance 3\ndescriptor 7\nfiles 3\n\
file 5 4200\nlocation index.html\ntype text/html\n\
file 3 41000\nlocation sky.jpg\ntype image/jpeg\n\
file 6 307200\nlocation node.bin\n";

/// The files that are sent.
#[derive(Drop)]
struct Station {
    page: Vec<u8>,
    picture: Vec<u8>,
    changed: Vec<u8>,
    program: Vec<u8>,
}

impl Station {
    fn new(alloc: Global) -> Result<Station, AllocError> {
        Ok(Station {
            page: bytes_of(alloc, 4_200, 1)?,
            picture: bytes_of(alloc, 41_000, 2)?,
            changed: bytes_of(alloc, 4_200, 3)?,
            program: bytes_of(alloc, 307_200, 4)?,
        })
    }

    /// What is sent of them.
    fn sent(&self, alloc: Global) -> Result<Vec<Vec<u8>>, AllocError> {
        let files = [
            ("c", CATALOG),
            ("page", self.page.as_slice()),
            ("picture", self.picture.as_slice()),
            ("changed", self.changed.as_slice()),
            ("program", self.program.as_slice()),
        ];
        let sent = send(alloc, &["send", "--catalog", "c"], &files)?;
        copied(alloc, sent.edge.emit.sent())
    }
}

/// So many bytes, of which each is the product of its place and an odd number, but for its low half.
fn bytes_of(alloc: Global, size: u32, seed: u32) -> Result<Vec<u8>, AllocError> {
    let mut bytes = Vec::new(alloc);
    for place in 0..size {
        let product = place.wrapping_add(seed).wrapping_mul(2_654_435_761);
        bytes.push((product >> 24) as u8)?;
    }
    Ok(bytes)
}

fn copied(alloc: Global, datagrams: &[Vec<u8>]) -> Result<Vec<Vec<u8>>, AllocError> {
    let mut copies = Vec::new(alloc);
    for datagram in datagrams {
        copies.push(Vec::from_slice(alloc, datagram.as_slice())?)?;
    }
    Ok(copies)
}

/// A log of the datagrams but each third, the last first.
fn log_of_left(alloc: Global, sent: &[Vec<u8>]) -> Result<Vec<u8>, AllocError> {
    let mut left = Vec::new(alloc);
    for (place, datagram) in sent.iter().enumerate() {
        if place % 3 != 2 {
            left.push(Vec::from_slice(alloc, datagram.as_slice())?)?;
        }
    }
    left.as_mut_slice().reverse();
    log_of_packets(alloc, left.as_slice())
}

/// How many of these events there are of each kind: that an instance is installed, and others.
fn kinds_of(events: &[Event]) -> (usize, usize) {
    let installed = events
        .iter()
        .filter(|event| matches!(event, Event::Installed { .. }))
        .count();
    (installed, events.len().saturating_sub(installed))
}

/// All three files of instance 3 are installed from the log, which is read byte by byte.
fn installs_3(
    rt: &impl Abort,
    alloc: Global,
    station: &Station,
    log: &[u8],
) -> Result<(), AllocError> {
    let files = [
        (5, station.changed.as_slice()),
        (3, station.picture.as_slice()),
        (6, station.program.as_slice()),
    ];
    let outcome = Outcome {
        status: 0,
        best: MANIFEST,
        rest: "",
        shelf: Some((3, &files)),
    };
    let watched = watch(alloc, &["replay"], log, true, &[&[]])?;
    same(rt, &is(&watched.ran, &outcome), &true, 1);
    let events = watched.events(0);
    same(rt, &kinds_of(events), &(1, 535), 2);
    let installed = Event::Installed { number: 3 };
    same(rt, &events.contains(&installed), &true, 3);
    Ok(())
}

/// The shelf fails with its second file: the first is part of an instance that isn't finished.
fn stops_at_the_second_file(rt: &impl Abort, alloc: Global, log: &[u8]) -> Result<(), AllocError> {
    let failing = Failing {
        shelf: &[3],
        ..NONE
    };
    let ran = play(alloc, &["replay"], log, false, failing)?;
    let shelf = &ran.edge.shelf;
    same(rt, &(ran.status, shelf.calls.made), &(6, 3), 11);
    same(rt, &ran.edge.text.written(), &b"".as_slice(), 12);
    same(rt, &shelf.finished().is_none(), &true, 13);
    let part = (shelf.part_number(), shelf.part_files().len());
    same(rt, &part, &(3, 1), 14);
    Ok(())
}

#[test]
fn a_station_over_a_link_that_loses(rt: HostRuntime) -> Result<(), Fail> {
    let alloc = rt.alloc();
    let station = Station::new(alloc)?;
    let sent = station.sent(alloc)?;
    same(&rt, &sent.len(), &802, 21);
    let log = log_of_left(alloc, sent.as_slice())?;
    installs_3(&rt, alloc, &station, log.as_slice())?;
    stops_at_the_second_file(&rt, alloc, log.as_slice())?;
    Ok(())
}
