//! A folder that is emptied.
//!
//! What a link points to is never touched: the entries' own types don't follow links. Another
//! process that changes the folder between two calls isn't guarded against.

use crate::tries::{TRIES, interrupted_each_time};
use std::fs::ReadDir;
use std::io::ErrorKind;
use std::rt::Files;
use std::{fs, io};

/// The most entries that are handled before a folder counts as one that can't be emptied.
const MOST: u32 = 1_000_000;

/// Removes what the folder holds, pass by pass, until a pass meets nothing.
///
/// # Errors
///
/// `DirectoryNotEmpty` where it holds more than a million entries. Else the system's.
pub fn empty_folder<R: Files + AllocGlobal + Clone + Drop>(rt: &R, folder: &str) -> io::Result<()> {
    let mut seen: u32 = 0;
    for _ in 0..MOST {
        let before = seen;
        remove_entries(rt, folder, &mut seen)?;
        if seen == before {
            return Ok(());
        }
    }
    Err(io::Error::from(ErrorKind::DirectoryNotEmpty))
}

/// Removes each entry of the folder. What its folders hold isn't removed at once: their folders
/// move up into this one, so that no path gets long, and wait for the next pass.
fn remove_entries<R: Files + AllocGlobal + Clone + Drop>(
    rt: &R,
    folder: &str,
    seen: &mut u32,
) -> io::Result<()> {
    for entry in open_folder(rt, folder)? {
        let entry = entry?;
        count_entry(seen)?;
        if entry.file_type()?.is_dir() {
            clear_subfolder(rt, folder, entry.path().as_str(), seen)?;
            fs::remove_dir(rt, entry.path())?;
        } else {
            fs::remove_file(rt, entry.path())?;
        }
    }
    Ok(())
}

/// Removes the files of a folder in the folder, and moves its folders up.
fn clear_subfolder<R: Files + AllocGlobal + Clone + Drop>(
    rt: &R,
    folder: &str,
    from: &str,
    seen: &mut u32,
) -> io::Result<()> {
    for entry in open_folder(rt, from)? {
        let entry = entry?;
        count_entry(seen)?;
        if entry.file_type()?.is_dir() {
            move_up(rt, folder, entry.path().as_str(), seen)?;
        } else {
            fs::remove_file(rt, entry.path())?;
        }
    }
    Ok(())
}

/// The entries of a folder, by an opening that no signal interrupted.
fn open_folder<R: Files + AllocGlobal + Clone + Drop>(
    rt: &R,
    folder: &str,
) -> io::Result<ReadDir<R>> {
    for _ in 0..TRIES {
        match fs::read_dir(rt, folder) {
            Err(error) if error.kind() == ErrorKind::Interrupted => {}
            done => return done,
        }
    }
    Err(interrupted_each_time())
}

/// Moves a folder up into the folder, under a name that isn't taken.
pub fn move_up<R: Files + AllocGlobal>(
    rt: &R,
    folder: &str,
    from: &str,
    seen: &mut u32,
) -> io::Result<()> {
    let alloc = rt.alloc();
    for _ in 0..MOST {
        let to = format!(in alloc; "{folder}/{seen}.gone")?;
        match fs::rename(rt, from, to.as_str()) {
            Ok(()) => return Ok(()),
            Err(error) if is_taken(error.kind()) => count_entry(seen)?,
            Err(error) => return Err(error),
        }
    }
    Err(io::Error::from(ErrorKind::DirectoryNotEmpty))
}

/// Something that a folder can't replace stands under the name.
fn is_taken(kind: ErrorKind) -> bool {
    matches!(
        kind,
        ErrorKind::AlreadyExists | ErrorKind::DirectoryNotEmpty | ErrorKind::NotADirectory
    )
}

/// Counts an entry, and fails where there were too many.
fn count_entry(seen: &mut u32) -> io::Result<()> {
    if *seen >= MOST {
        return Err(io::Error::from(ErrorKind::DirectoryNotEmpty));
    }
    *seen += 1;
    Ok(())
}
