//! The standard input and outputs of a program that is started without some of them.

use std::fs::File;
use std::os::fd::AsRawFd;
use std::rt::Files;

/// The highest descriptor of the standard input and outputs.
const LAST_STANDARD: i32 = 2;

/// Takes the first of the standard input and outputs that is closed, if any, with a folder, which can be neither read
/// nor written. Else a socket or a file would take it, and get what is written there.
pub fn hold_standard(rt: &HostRuntime) -> Option<File> {
    match File::open(rt, "/") {
        Ok(folder) if folder.as_raw_fd() <= LAST_STANDARD => Some(folder),
        _ => None,
    }
}
