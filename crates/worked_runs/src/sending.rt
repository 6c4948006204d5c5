//! Sends over forms in memory.

use crate::playing::labels_of;
use edge_io::{Emit, LogWriter, MemEmit, MemFiles, MemText, SureDatagrams, SureShelf};
use fcast_run::{Edge, run};
use std::alloc::{AllocError, Global};
use watch_list::Watch;

/// The outside in memory, around this sink.
pub type SendEdge<E> = Edge<SureDatagrams, E, MemFiles, SureShelf, MemText>;

/// How a send ended.
#[derive(Drop)]
pub struct Sent {
    pub status: u8,
    pub edge: SendEdge<MemEmit>,
}

/// Runs these words over these files.
pub fn send(alloc: Global, words: &[&str], files: &[(&str, &[u8])]) -> Result<Sent, AllocError> {
    let emit = MemEmit::new(Vec::new(alloc), Vec::new(alloc));
    let mut edge = edge_of(alloc, files, emit)?;
    let status = run_words(alloc, words, &mut edge)?;
    Ok(Sent { status, edge })
}

/// Runs these words over these files, by this sink, and says the status.
pub fn send_by<E: Emit + Drop>(
    alloc: Global,
    words: &[&str],
    files: &[(&str, &[u8])],
    emit: E,
) -> Result<u8, AllocError> {
    let mut edge = edge_of(alloc, files, emit)?;
    run_words(alloc, words, &mut edge)
}

/// Whether these are the first of those datagrams.
pub fn are_first(sent: &[Vec<u8>], datagrams: &[Vec<u8>]) -> bool {
    for (one, other) in sent.iter().zip(datagrams) {
        if one.as_slice() != other.as_slice() {
            return false;
        }
    }
    sent.len() <= datagrams.len()
}

/// What these words write as a log over these files; it is empty where they don't end with 0.
pub fn sent_log(
    alloc: Global,
    words: &[&str],
    files: &[(&str, &[u8])],
) -> Result<Vec<u8>, AllocError> {
    let log = MemText::new(Vec::new(alloc), Vec::new(alloc));
    let mut edge = edge_of(alloc, files, LogWriter::new(alloc, log))?;
    match run_words(alloc, words, &mut edge)? {
        0 => Vec::from_slice(alloc, edge.emit.sink.written()),
        _ => Ok(Vec::new(alloc)),
    }
}

fn edge_of<E: Emit + Drop>(
    alloc: Global,
    files: &[(&str, &[u8])],
    emit: E,
) -> Result<SendEdge<E>, AllocError> {
    let files = files_of(alloc, files)?;
    Ok(Edge {
        datagrams: SureDatagrams::new(Vec::new(alloc), None),
        emit,
        files: MemFiles::new(files, Vec::new(alloc)),
        shelf: SureShelf::new(alloc, None),
        text: MemText::new(Vec::new(alloc), Vec::new(alloc)),
    })
}

fn files_of(alloc: Global, files: &[(&str, &[u8])]) -> Result<Vec<(String, Vec<u8>)>, AllocError> {
    let mut named = Vec::new(alloc);
    for (name, bytes) in files {
        named.push((
            String::from_str(alloc, name)?,
            Vec::from_slice(alloc, bytes)?,
        ))?;
    }
    Ok(named)
}

fn run_words<E: Emit + Drop>(
    alloc: Global,
    words: &[&str],
    edge: &mut SendEdge<E>,
) -> Result<u8, AllocError> {
    let labels = labels_of(alloc, words)?;
    let mut watchers: Vec<Box<dyn Watch>> = Vec::new(alloc);
    Ok(run(alloc, labels.as_slice(), edge, &mut watchers))
}
