//! What a person is told on standard error. Where standard error fails too, nothing is left to tell it.

use edge_real::FolderFiles;
use std::io;
use std::io::Eprint;

/// Says in one line which part of the outside failed, and the system's words for it.
pub fn tell(rt: &impl Eprint, part: &str, last: &Option<io::Error>) {
    let _told = match last {
        Some(error) => eprintln!(rt; "fcast: {part}: {error}"),
        None => eprintln!(rt; "fcast: {part}"),
    };
}

/// Tells the first of these parts that failed.
pub fn tell_first(rt: &impl Eprint, parts: &[(&str, &Option<io::Error>)]) {
    for (part, last) in parts {
        if last.is_some() {
            tell(rt, *part, *last);
            return;
        }
    }
}

/// Says which file's reading failed last, and the system's words for it.
pub fn tell_file(rt: &impl Eprint, files: &FolderFiles<HostRuntime>) {
    match (&files.failed, &files.failures.last) {
        (Some(name), Some(error)) => {
            let _told = eprintln!(rt; "fcast: files: {name}: {error}");
        }
        _ => tell(rt, "files", &files.failures.last),
    }
}
