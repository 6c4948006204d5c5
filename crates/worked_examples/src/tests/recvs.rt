//! What `recv` takes and installs.

use super::same::same;
use std::alloc::{AllocError, Global};
use std::process::Abort;
use std::test::Fail;
use worked_runs::logs::empty_instance;
use worked_runs::receiving::{PLACE, RecvEdge, receive};

/// A list of the empty instances from 1 on, as long as this, which would be torn there, with this count in the words;
/// and what a run of `recv` comes to: its status, how many datagrams were asked for and how many taken, the number of
/// the instance on the shelf, and the report.
#[derive(Clone, Copy)]
struct Row {
    number: u32,
    length: usize,
    torn: Option<u64>,
    count: &'static str,
    status: u8,
    asked: u64,
    taken: usize,
    installed: Option<u32>,
    report: &'static str,
}

const REPORT_OF_2: &str = "instance 2\ndescriptor 2\nfiles 0\n";

const REPORT_OF_3: &str = "instance 3\ndescriptor 3\nfiles 0\n";

const ROWS: [Row; 4] = [
    // The list ends with the last that is counted.
    Row {
        number: 1,
        length: 3,
        torn: None,
        count: "2",
        status: 0,
        asked: 2,
        taken: 2,
        installed: Some(2),
        report: REPORT_OF_2,
    },
    // With the last of the list nothing more is asked for, though it is torn behind it.
    Row {
        number: 2,
        length: 3,
        torn: Some(9),
        count: "3",
        status: 0,
        asked: 3,
        taken: 3,
        installed: Some(3),
        report: REPORT_OF_3,
    },
    // Fewer come than are counted.
    Row {
        number: 3,
        length: 2,
        torn: None,
        count: "5",
        status: 0,
        asked: 3,
        taken: 2,
        installed: Some(2),
        report: REPORT_OF_2,
    },
    Row {
        number: 4,
        length: 2,
        torn: Some(9),
        count: "5",
        status: 3,
        asked: 3,
        taken: 2,
        installed: None,
        report: "instance 2\ndescriptor 2\nfiles 0\ntorn at 9\n",
    },
];

/// How many datagrams were asked for and how many taken, at the place that the words name; one call more connects.
fn took(rt: &impl Abort, edge: &RecvEdge, row: &Row) {
    let calls = row.asked.saturating_add(1);
    same(rt, &edge.datagrams.calls.made, &calls, row.number);
    same(rt, &edge.datagrams.source.at, &row.taken, row.number);
    let connected = edge.datagrams.source.connected;
    same(rt, &connected, &Some(PLACE), row.number);
}

/// The instance of this number, and no other, is on the shelf, and the report is this.
fn installed(rt: &impl Abort, edge: &RecvEdge, row: &Row) {
    let number = edge.shelf.finished().map(|instance| instance.number());
    same(rt, &number, &row.installed, row.number);
    same(rt, &edge.text.written(), &row.report.as_bytes(), row.number);
}

fn receives(
    rt: &impl Abort,
    alloc: Global,
    list: &[[u8; 60]],
    row: &Row,
) -> Result<(), AllocError> {
    let received = receive(alloc, row.count, list, row.torn)?;
    same(rt, &received.status, &row.status, row.number);
    took(rt, &received.edge, row);
    installed(rt, &received.edge, row);
    Ok(())
}

#[test]
fn as_many_are_taken_as_are_counted(rt: HostRuntime) -> Result<(), Fail> {
    let list = [
        empty_instance(1, 1),
        empty_instance(2, 2),
        empty_instance(3, 3),
    ];
    for row in &ROWS {
        let list = list.get(..row.length).ok_or("list")?;
        receives(&rt, rt.alloc(), list, row)?;
    }
    Ok(())
}
