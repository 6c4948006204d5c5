//! A file that is sent over the loopback device, in one process: first all is sent, and then all is taken.

ghost use Rattle.std.specs.Prelude.{◌≤◌, All, IfOk, vec_len};

use super::same::same;
use edge_io::{Datagrams, MemDatagrams, MemShelf, MemText, Next, Place, SureEmit, SureFiles};
use edge_real::{UdpDatagrams, UdpEmit};
use fcast_run::{Edge, run};
use std::alloc::{AllocError, Global};
use std::process::Abort;
use std::test::Fail;
use watch_list::Watch;
use worked_runs::pieces::{ALL, packets_of};
use worked_runs::playing::labels_of;
use worked_runs::sending::{are_first, send_by};

/// A catalog of one file, and the file.
const FILES: [(&str, &[u8]); 2] = [("c", b"instance\t1\nfile\tf\ta\n"), ("f", b"hi")];

/// How many datagrams are sent of it.
const SENT: usize = 6;

/// The report of the file.
const REPORT: &[u8] = b"instance 1\ndescriptor 2\nfiles 1\nfile 1 2\nlocation a\n";

/// Has the source listen at a port of this machine that the system chooses, and says which.
fn listen(rt: &impl Abort, source: &mut UdpDatagrams<HostRuntime>, row: u32) -> u16 {
    let place = Place::Udp {
        ip: [127, 0, 0, 1],
        port: 0,
    };
    same(rt, &source.connect(&place), &Ok(()), row);
    source.port().unwrap_or(0)
}

/// Sends the file to this port, in blocks of two symbols of 25 bytes with one repair symbol each.
fn send_to(rt: HostRuntime, alloc: Global, port: u16) -> Result<u8, AllocError> {
    let port = format!(in alloc; "{port}")?;
    let words = [
        "send",
        "--catalog",
        "c",
        "--addr",
        "127.0.0.1",
        "--port",
        port.as_str(),
        "--symbol",
        "25",
        "--block",
        "2",
        "--maxn",
        "3",
    ];
    send_by(alloc, &words, &FILES, UdpEmit::new(Some(rt), 0))
}

/// The datagrams that come to the source, as many as were sent.
fn take<D: Datagrams>(alloc: Global, source: &mut D) -> Result<Vec<Vec<u8>>, AllocError>
    ensures { IfOk result (λ v. All (λ d. vec_len d ≤ 65535) v.items) }
{
    let mut datagrams = Vec::new(alloc);
    push_taken(alloc, source, &mut datagrams)?;
    Ok(datagrams)
}

fn push_taken<D: Datagrams>(
    alloc: Global,
    source: &mut D,
    datagrams: &mut Vec<Vec<u8>>,
) -> Result<(), AllocError>
    requires { All (λ d. vec_len d ≤ 65535) datagrams.old.items }
    ensures { All (λ d. vec_len d ≤ 65535) datagrams.new.items }
{
    let mut buffer = [0u8; 65_535];
    for _datagram in 0..SENT {
        if let Next::Got(length) = source.next(&mut buffer) {
            datagrams.push(Vec::from_slice(alloc, &buffer[..length])?)?;
        }
    }
    Ok(())
}

/// The words that receive as many datagrams as were sent.
const RECEIVE: [&str; 7] = [
    "recv",
    "--addr",
    "127.0.0.1",
    "--port",
    "4000",
    "--count",
    "6",
];

/// The outside in memory, around datagrams.
type Outside = Edge<MemDatagrams, SureEmit, SureFiles, MemShelf, MemText>;

/// Receives these datagrams: the status, and what is left.
fn receive(alloc: Global, datagrams: Vec<Vec<u8>>) -> Result<(u8, Outside), AllocError>
    requires { All (λ d. vec_len d ≤ 65535) datagrams.items }
{
    let words = labels_of(alloc, &RECEIVE)?;
    let mut edge = Edge {
        datagrams: MemDatagrams::new(datagrams, None, Vec::new(alloc)),
        emit: SureEmit::new(alloc),
        files: SureFiles::new(Vec::new(alloc)),
        shelf: MemShelf::new(alloc, None, Vec::new(alloc)),
        text: MemText::new(Vec::new(alloc), Vec::new(alloc)),
    };
    let mut watchers: Vec<Box<dyn Watch>> = Vec::new(alloc);
    let status = run(alloc, words.as_slice(), &mut edge, &mut watchers);
    Ok((status, edge))
}

/// The body of the one file that is installed, where just one is.
fn installed(shelf: &MemShelf) -> Option<&[u8]> {
    match shelf.finished()?.files() {
        [file] => Some(file.body()),
        _ => None,
    }
}

#[test]
fn what_is_sent_over_the_loopback_device_is_installed(rt: HostRuntime) -> Result<(), Fail> {
    let alloc = rt.alloc();
    // Were one of them lost, the source would answer that it is at its end.
    let mut source = UdpDatagrams::new(Some(rt), Some(5));
    let port = listen(&rt, &mut source, 1);
    same(&rt, &send_to(rt, alloc, port)?, &0, 2);
    let datagrams = take(alloc, &mut source)?;
    let expected = packets_of(alloc, &ALL)?;
    same(&rt, &datagrams.len(), &SENT, 3);
    let are_sent = are_first(datagrams.as_slice(), expected.as_slice());
    same(&rt, &are_sent, &true, 4);
    let (status, edge) = receive(alloc, datagrams)?;
    same(&rt, &(status, edge.text.written()), &(0, REPORT), 5);
    same(&rt, &installed(&edge.shelf), &Some(b"hi".as_slice()), 6);
    Ok(())
}
