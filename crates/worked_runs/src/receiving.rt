//! Runs of `recv` over datagrams in memory.
ghost use Rattle.std.specs.Prelude.{◌≤◌, All, IfOk, vec_len};

use crate::playing::labels_of;
use edge_io::{MemDatagrams, MemShelf, MemText, Place, SureEmit, SureFiles};
use fcast_run::{Edge, run};
use std::alloc::{AllocError, Global};

/// The outside in memory, around datagrams.
pub type RecvEdge = Edge<MemDatagrams, SureEmit, SureFiles, MemShelf, MemText>;

/// Where the datagrams come from.
pub const PLACE: Place = Place::Udp {
    ip: [127, 0, 0, 1],
    port: 4000,
};

/// How a run of `recv` ended.
#[derive(Drop)]
pub struct Received {
    pub status: u8,
    pub edge: RecvEdge,
}

/// Receives so many datagrams of the list, whose log would be torn there.
pub fn receive(
    alloc: Global,
    count: &str,
    list: &[[u8; 60]],
    torn: Option<u64>,
) -> Result<Received, AllocError> {
    let words = labels_of(
        alloc,
        &[
            "recv",
            "--addr",
            "127.0.0.1",
            "--port",
            "4000",
            "--count",
            count,
        ],
    )?;
    let datagrams = datagrams_of(alloc, list)?;
    let mut edge = Edge {
        datagrams: MemDatagrams::new(datagrams, torn, Vec::new(alloc)),
        emit: SureEmit::new(alloc),
        files: SureFiles::new(Vec::new(alloc)),
        shelf: MemShelf::new(alloc, None, Vec::new(alloc)),
        text: MemText::new(Vec::new(alloc), Vec::new(alloc)),
    };
    let mut watchers = Vec::new(alloc);
    let status = run(alloc, words.as_slice(), &mut edge, &mut watchers);
    Ok(Received { status, edge })
}

/// Datagrams in memory, each short enough for a device.
pub fn datagrams_of(alloc: Global, list: &[[u8; 60]]) -> Result<Vec<Vec<u8>>, AllocError>
    ensures { IfOk result (λ v. All (λ d. vec_len d ≤ 65535) v.items) }
{
    let mut datagrams = Vec::new(alloc);
    push_all(alloc, &mut datagrams, list)?;
    Ok(datagrams)
}

fn push_all(
    alloc: Global,
    datagrams: &mut Vec<Vec<u8>>,
    list: &[[u8; 60]],
) -> Result<(), AllocError>
    requires { All (λ d. vec_len d ≤ 65535) datagrams.old.items }
    ensures { All (λ d. vec_len d ≤ 65535) datagrams.new.items }
{
    for datagram in list {
        datagrams.push(Vec::from_slice(alloc, datagram)?)?;
    }
    Ok(())
}
