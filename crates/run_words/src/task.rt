//! What the words of `run` are to do.

use run_base::Settings;
use run_send::Sending;

/// What a run is to do.
#[derive(Drop)]
pub enum Task {
    /// Tell the usage line: the words are no command of `run`.
    Usage,
    /// Receive a session, from a packet log or over UDP.
    Receive(Settings),
    /// Print the datagrams of a log, but no more than this many.
    Dump(u64),
    /// Send the files of a catalog.
    Send(Sending),
    /// Do the drill that starts with this number.
    Drill(u64),
}
