//! A folder that holds an instance: a new one is written beside it, and the two are exchanged.
//!
//! While a run is at work on the folder F, the folder F.part stands beside it: F.part/new is what is
//! being written, and F.part/old is what stood in F, from the exchange on. So F holds the old
//! instance or the whole new one, or for the moment between two renames isn't there; a run that is
//! stopped then leaves the old one in F.part/old, and the next puts it back.
//!
//! What a link points to is never touched: `symlink_metadata` doesn't follow links, and
//! `File::create_new` refuses one. Another process that changes the folders between two calls isn't
//! guarded against.

use crate::Tried;
use crate::emptying::{empty_folder, move_up};
use std::alloc::AllocError;
use std::fs::{File, OpenFile};
use std::io::{ErrorKind, Write};
use std::rt::Files;
use std::{fs, io};

/// Makes the part anew, with no file. What stands in the folder stays as it is.
///
/// # Errors
///
/// `NotADirectory` where a link or a file stands in the place of the folder or of the part, which
/// stays as it was. Else the system's.
pub fn begin_part<R: Files + AllocGlobal + Clone + Drop>(rt: &R, folder: &str) -> io::Result<()> {
    put_back(rt, folder)?;
    let _stands = stands(rt, folder)?;
    let part = part_path(rt, folder)?;
    if stands(rt, part.as_str())? {
        empty_part(rt, folder)?;
    } else {
        fs::create_dir(rt, part.as_str())?;
    }
    let new = new_path(rt, folder)?;
    fs::create_dir(rt, new.as_str())
}

/// Writes a new file of the part, and waits until the device has it. A write that fails leaves no
/// file.
pub fn put_file<R: Files>(rt: &R, path: &str, body: &[u8]) -> io::Result<()> {
    let mut file = Tried::new(File::create_new(rt, path)?);
    fill_file(rt, path, &mut file, body)?;
    file.device.sync_all()
}

/// Writes the bytes to the new file at this path, and removes it where that fails.
pub fn fill_file<R: Files, W: Write>(
    rt: &R,
    path: &str,
    file: &mut W,
    body: &[u8],
) -> io::Result<()> {
    match file.write_all(body) {
        Ok(()) => Ok(()),
        Err(error) => {
            let _removed = fs::remove_file(rt, path);
            Err(error)
        }
    }
}

/// Writes the manifest, so that the part is whole, and waits until the device has it.
pub fn seal_part<R: Files + AllocGlobal>(rt: &R, folder: &str, manifest: &[u8]) -> io::Result<()> {
    let path = file_path(rt, folder, "manifest")?;
    put_file(rt, path.as_str(), manifest)?;
    let new = new_path(rt, folder)?;
    File::open(rt, new.as_str())?.sync_all()?;
    let part = part_path(rt, folder)?;
    File::open(rt, part.as_str())?.sync_all()
}

/// Sets aside what stands in the folder, where that is there.
pub fn set_aside<R: Files + AllocGlobal>(rt: &R, folder: &str) -> io::Result<()> {
    let old = old_path(rt, folder)?;
    if stands(rt, folder)? {
        fs::rename(rt, folder, old.as_str())?;
    }
    Ok(())
}

/// Moves what was written to the folder's place, and waits until the device has it there. Where it
/// can't be moved, what was set aside comes back.
pub fn move_in<R: Files + AllocGlobal>(rt: &R, folder: &str) -> io::Result<()> {
    let new = new_path(rt, folder)?;
    let beside = beside_path(rt, folder)?;
    match fs::rename(rt, new.as_str(), folder) {
        Ok(()) => File::open(rt, beside.as_str())?.sync_all(),
        Err(error) => {
            let _back = put_back(rt, folder);
            Err(error)
        }
    }
}

/// Puts back what was set aside, where a run was stopped between the two renames, and removes the
/// part, where there is one. A link or a file in its place is none.
pub fn remove_part<R: Files + AllocGlobal + Clone + Drop>(rt: &R, folder: &str) -> io::Result<()> {
    put_back(rt, folder)?;
    let part = part_path(rt, folder)?;
    if is_folder(rt, part.as_str()) {
        empty_part(rt, folder)?;
        fs::remove_dir(rt, part.as_str())?;
    }
    Ok(())
}

/// Puts back what was set aside, where nothing stands in the folder's place.
fn put_back<R: Files + AllocGlobal>(rt: &R, folder: &str) -> io::Result<()> {
    let part = part_path(rt, folder)?;
    let old = old_path(rt, folder)?;
    match fs::symlink_metadata(rt, folder) {
        Err(error) if error.kind() == ErrorKind::NotFound => {
            if is_folder(rt, part.as_str()) && is_folder(rt, old.as_str()) {
                fs::rename(rt, old.as_str(), folder)?;
            }
            Ok(())
        }
        Err(error) => Err(error),
        Ok(_) => Ok(()),
    }
}

/// Removes what the part holds. What was set aside gets another name first, so that no run puts it
/// back when it isn't whole any more.
fn empty_part<R: Files + AllocGlobal + Clone + Drop>(rt: &R, folder: &str) -> io::Result<()> {
    let part = part_path(rt, folder)?;
    let old = old_path(rt, folder)?;
    if is_folder(rt, old.as_str()) {
        move_up(rt, part.as_str(), old.as_str(), &mut 0)?;
    }
    empty_folder(rt, part.as_str())
}

/// Whether a folder stands under the name, and no link to one.
fn is_folder<R: Files>(rt: &R, path: &str) -> bool {
    match fs::symlink_metadata(rt, path) {
        Ok(found) => found.is_dir(),
        Err(_) => false,
    }
}

/// Whether a folder stands under the name. Anything else that does, also a link, is a failure.
fn stands<R: Files>(rt: &R, path: &str) -> io::Result<bool> {
    match fs::symlink_metadata(rt, path) {
        Err(error) if error.kind() == ErrorKind::NotFound => Ok(false),
        Err(error) => Err(error),
        Ok(found) if !found.is_dir() => Err(io::Error::from(ErrorKind::NotADirectory)),
        Ok(_) => Ok(true),
    }
}

/// The folder beside, in which a run puts an instance together.
fn part_path<R: AllocGlobal>(rt: &R, folder: &str) -> Result<String, AllocError> {
    let alloc = rt.alloc();
    format!(in alloc; "{folder}.part")
}

/// The new instance, while it is being written.
fn new_path<R: AllocGlobal>(rt: &R, folder: &str) -> Result<String, AllocError> {
    let alloc = rt.alloc();
    format!(in alloc; "{folder}.part/new")
}

/// A file of the new instance, while it is being written.
pub fn file_path<R: AllocGlobal>(rt: &R, folder: &str, name: &str) -> Result<String, AllocError> {
    let alloc = rt.alloc();
    format!(in alloc; "{folder}.part/new/{name}")
}

/// What stood in the folder, once it is set aside.
fn old_path<R: AllocGlobal>(rt: &R, folder: &str) -> Result<String, AllocError> {
    let alloc = rt.alloc();
    format!(in alloc; "{folder}.part/old")
}

/// The folder in which the folder stands.
fn beside_path<R: AllocGlobal>(rt: &R, folder: &str) -> Result<String, AllocError> {
    let alloc = rt.alloc();
    format!(in alloc; "{folder}/..")
}
