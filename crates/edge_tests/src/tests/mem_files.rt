//! Files in memory, by their names.

use super::same::same;
use edge_io::{FileFault, Files, MemFiles, SureFiles};
use std::alloc::{AllocError, Global};
use std::process::Abort;
use std::test::Fail;

/// Adds a file of this name.
fn add(
    files: &mut Vec<(String, Vec<u8>)>,
    alloc: Global,
    name: &str,
    bytes: Vec<u8>,
) -> Result<(), AllocError> {
    files.push((String::from_str(alloc, name)?, bytes))?;
    Ok(())
}

/// Compares the bytes of the file of this name.
fn compare_bytes<F: Files>(rt: &impl Abort, files: &mut F, name: &str, wanted: &[u8], row: u32) {
    match files.read(name) {
        Ok(bytes) => same(rt, &bytes.as_slice(), &wanted, row),
        Err(fault) => same(rt, &Err(fault), &Ok(()), row),
    }
}

/// Compares the size of the file of this name, or why it isn't read, and the misses so far.
fn compare(
    rt: &impl Abort,
    files: &mut MemFiles,
    name: &str,
    wanted: Result<usize, FileFault>,
    misses: u64,
    row: u32,
) {
    let found = files.read(name).map(|bytes| bytes.len());
    same(rt, &(found, files.files.misses), &(wanted, misses), row);
}

/// The files `a` with the bytes `hi`, `most` with as many bytes as a file may have, and `more`
/// with one more.
fn three_files(alloc: Global) -> Result<MemFiles, AllocError> {
    let mut files = Vec::new(alloc);
    add(&mut files, alloc, "a", Vec::from_slice(alloc, b"hi")?)?;
    add(&mut files, alloc, "most", vec![in alloc; 0u8; 16_777_216]?)?;
    add(&mut files, alloc, "more", vec![in alloc; 0u8; 16_777_217]?)?;
    Ok(MemFiles::new(files, Vec::new(alloc)))
}

#[test]
fn files_in_memory_are_read_by_name(rt: HostRuntime) -> Result<(), Fail> {
    let mut files = three_files(rt.alloc())?;
    compare(&rt, &mut files, "a", Ok(2), 0, 1);
    compare(&rt, &mut files, "b", Err(FileFault::Absent), 1, 2);
    compare(&rt, &mut files, "most", Ok(16_777_216), 1, 3);
    compare(&rt, &mut files, "more", Err(FileFault::TooBig), 2, 4);
    compare_bytes(&rt, &mut files, "a", b"hi", 5);
    same(&rt, &files.calls.failed, &0, 6);
    Ok(())
}

/// Three reads of a file, of which the one of this number fails.
fn fail(rt: &impl Abort, alloc: Global, call: u32, row: u32) -> Result<(), AllocError> {
    let mut held = Vec::new(alloc);
    add(&mut held, alloc, "a", Vec::from_slice(alloc, b"hi")?)?;
    let mut files = MemFiles::new(held, Vec::from_slice(alloc, &[call])?);
    for number in 1..4 {
        let wanted = if number == call {
            Err(FileFault::Failed)
        } else {
            Ok(2)
        };
        compare(rt, &mut files, "a", wanted, 0, row);
    }
    same(rt, &files.calls.failed, &1, row);
    Ok(())
}

#[test]
fn files_in_memory_fail_at_each_stated_call(rt: HostRuntime) -> Result<(), Fail> {
    let alloc = rt.alloc();
    fail(&rt, alloc, 1, 7)?;
    fail(&rt, alloc, 2, 8)?;
    fail(&rt, alloc, 3, 9)?;
    Ok(())
}

/// Two files of one name: the first is read.
#[test]
fn sure_files_give_the_first_of_a_name(rt: HostRuntime) -> Result<(), Fail> {
    let alloc = rt.alloc();
    let mut held = Vec::new(alloc);
    add(&mut held, alloc, "a", Vec::from_slice(alloc, b"hi")?)?;
    add(&mut held, alloc, "a", Vec::new(alloc))?;
    let mut files = SureFiles::new(held);
    compare_bytes(&rt, &mut files, "a", b"hi", 10);
    let absent = files.read("b").map(|bytes| bytes.len());
    same(&rt, &absent, &Err(FileFault::Absent), 11);
    same(&rt, &files.misses, &1, 12);
    Ok(())
}
