//! Folders, files and links that a test makes and compares.

use super::same::same;
use edge_real::{Failures, FolderShelf};
use std::io::ErrorKind;
use std::os::unix::fs::symlink;
use std::process::Abort;
use std::rt::Files;
use std::{fs, io};

/// The shelf of this folder. What an earlier run left under these names is removed.
pub fn shelf(rt: HostRuntime, folder: &'static str, others: &[&str]) -> FolderShelf<HostRuntime> {
    remove(&rt, folder);
    for path in others {
        remove(&rt, *path);
    }
    shelf_anew(rt, folder)
}

/// Removes what stands under the name, where anything does.
fn remove(rt: &(impl Files + AllocGlobal), path: &str) {
    let _file = fs::remove_file(rt, path);
    let _tree = fs::remove_dir_all(rt, path);
}

/// The shelf of this folder, as another run has it.
pub fn shelf_anew(rt: HostRuntime, folder: &'static str) -> FolderShelf<HostRuntime> {
    FolderShelf {
        rt,
        folder,
        failures: Failures::none(),
    }
}

/// Makes these folders, then these files with their texts, and then these links to their targets.
pub fn make(
    rt: HostRuntime,
    folders: &[&str],
    files: &[(&str, &str)],
    links: &[(&str, &str)],
) -> io::Result<()> {
    for path in folders {
        fs::create_dir_all(&rt, *path)?;
    }
    for (path, text) in files {
        fs::write(&rt, *path, *text)?;
    }
    for (path, target) in links {
        symlink(&rt, *target, *path)?;
    }
    Ok(())
}

/// Compares how many entries the folder has.
pub fn compare_count<R: Files + AllocGlobal + Clone + Drop + Abort>(
    rt: &R,
    folder: &str,
    wanted: usize,
    row: u32,
) -> io::Result<()> {
    let mut count: usize = 0;
    for entry in fs::read_dir(rt, folder)? {
        let _entry = entry?;
        count = count.saturating_add(1);
    }
    same(rt, &count, &wanted, row);
    Ok(())
}

/// Compares the bytes of a file.
pub fn compare_file<R: Files + AllocGlobal + Abort>(
    rt: &R,
    path: &str,
    wanted: &[u8],
    row: u32,
) -> io::Result<()> {
    let bytes = fs::read(rt, path)?;
    same(rt, &bytes.as_slice(), &wanted, row);
    Ok(())
}

/// Compares whether anything has the name.
pub fn compare_there<R: Files + Abort>(
    rt: &R,
    path: &str,
    wanted: bool,
    row: u32,
) -> io::Result<()> {
    same(rt, &fs::exists(rt, path)?, &wanted, row);
    Ok(())
}

/// Compares that there is one failure, and of which kind.
pub fn compare_failure(rt: &impl Abort, failures: &Failures, wanted: ErrorKind, row: u32) {
    let kind = match &failures.last {
        Some(error) => Some(error.kind()),
        None => None,
    };
    same(rt, &(failures.count, kind), &(1, Some(wanted)), row);
}
