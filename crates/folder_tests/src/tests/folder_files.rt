//! The files in the current folder, over files of the tests' own where they run.

use super::same::same;
use super::tree::compare_failure;
use edge_io::{FileFault, Files};
use edge_real::FolderFiles;
use std::fs::File;
use std::io::ErrorKind;
use std::os::unix::fs::symlink;
use std::process::Abort;
use std::test::Fail;
use std::{fs, io};

/// No file has the name.
const ABSENT: Result<usize, FileFault> = Err(FileFault::Absent);

/// The file has more bytes than one may have.
const TOO_BIG: Result<usize, FileFault> = Err(FileFault::TooBig);

/// Compares the size of the file of this name, or why it isn't read, and the failures and the
/// misses so far.
fn compare(
    rt: &impl Abort,
    files: &mut FolderFiles<HostRuntime>,
    name: &str,
    wanted: Result<usize, FileFault>,
    counts: (u64, u64),
    row: u32,
) {
    let found = files.read(name).map(|bytes| bytes.len());
    same(rt, &found, &wanted, row);
    same(rt, &(files.failures.count, files.misses), &counts, row);
}

#[test]
fn file_in_the_folder_is_read(rt: HostRuntime) -> Result<(), Fail> {
    fs::write(&rt, "files_small", "hi")?;
    fs::write(&rt, "files_empty", "")?;
    let mut files = FolderFiles::new(rt);
    match files.read("files_small") {
        Ok(bytes) => same(&rt, &bytes.as_slice(), &b"hi".as_slice(), 1),
        Err(fault) => same(&rt, &Err(fault), &Ok(()), 2),
    }
    compare(&rt, &mut files, "files_empty", Ok(0), (0, 0), 3);
    fs::remove_file(&rt, "files_small")?;
    fs::remove_file(&rt, "files_empty")?;
    Ok(())
}

#[test]
fn missing_file_is_absent(rt: HostRuntime) -> Result<(), Fail> {
    let _old = fs::remove_file(&rt, "files_link");
    fs::write(&rt, "files_plain", "a file")?;
    symlink(&rt, "files_nowhere", "files_link")?;
    let mut files = FolderFiles::new(rt);
    compare(&rt, &mut files, "files_nowhere", ABSENT, (0, 1), 4);
    compare(&rt, &mut files, "files_plain/below", ABSENT, (0, 2), 5);
    compare(&rt, &mut files, "files_link", ABSENT, (0, 3), 6);
    compare(&rt, &mut files, "", ABSENT, (0, 4), 7);
    fs::remove_file(&rt, "files_plain")?;
    fs::remove_file(&rt, "files_link")?;
    Ok(())
}

/// Makes a file of so many bytes.
fn make(rt: HostRuntime, name: &str, size: u64) -> io::Result<()> {
    File::create(&rt, name)?.set_len(size)
}

#[test]
fn file_has_at_most_16_mebibytes(rt: HostRuntime) -> Result<(), Fail> {
    make(rt, "files_most", 16_777_216)?;
    make(rt, "files_more", 16_777_217)?;
    let mut files = FolderFiles::new(rt);
    compare(&rt, &mut files, "files_most", Ok(16_777_216), (0, 0), 8);
    compare(&rt, &mut files, "files_more", TOO_BIG, (0, 1), 9);
    compare(&rt, &mut files, "/dev/zero", TOO_BIG, (0, 2), 10);
    fs::remove_file(&rt, "files_most")?;
    fs::remove_file(&rt, "files_more")?;
    Ok(())
}

#[test]
fn folder_is_no_file_and_fails(rt: HostRuntime) -> Result<(), Fail> {
    let _old = fs::remove_dir(&rt, "files_folder");
    fs::create_dir(&rt, "files_folder")?;
    let mut files = FolderFiles::new(rt);
    let failed = Err(FileFault::Failed);
    compare(&rt, &mut files, "files_folder", failed, (1, 0), 11);
    compare_failure(&rt, &files.failures, ErrorKind::IsADirectory, 12);
    let name = files.failed.as_ref().map(|name| name.as_str());
    same(&rt, &name, &Some("files_folder"), 13);
    fs::remove_dir(&rt, "files_folder")?;
    Ok(())
}
