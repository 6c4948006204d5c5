//! The folder as a shelf: what it refuses, and what stays then.

use super::same::same;
use super::tree::{compare_count, compare_failure, compare_file, compare_there, make, shelf};
use edge_io::{Shelf, Trouble};
use edge_real::{Failures, FolderShelf, fill_file};
use std::io::{Cursor, ErrorKind};
use std::process::Abort;
use std::rt::Files;
use std::test::Fail;
use std::{fs, io};

/// A failure of the device.
const FAILED: Result<(), Trouble> = Err(Trouble::Failed);

/// Checks that `begin` fails, and why, and that it is counted once.
fn refuse<R: Files + AllocGlobal + Clone + Drop>(
    rt: &impl Abort,
    shelf: &mut FolderShelf<R>,
    row: u32,
) {
    shelf.failures = Failures::none();
    same(rt, &shelf.begin(1), &FAILED, row);
    compare_failure(rt, &shelf.failures, ErrorKind::NotADirectory, row);
}

/// Compares that a link stands under the name.
fn compare_link<R: Files + Abort>(rt: &R, path: &str, row: u32) -> io::Result<()> {
    let found = fs::symlink_metadata(rt, path)?;
    same(rt, &found.is_symlink(), &true, row);
    Ok(())
}

/// A link to a folder, a link to nothing and a file, each in the place of the folder and of the
/// part: `begin` refuses them, and `clear` lets them be.
#[test]
fn link_or_file_in_the_place_of_a_folder_stays(rt: HostRuntime) -> Result<(), Fail> {
    let outside = "shelf_place_outside";
    for (place, row) in [("shelf_place", 1), ("shelf_place.part", 21)] {
        let mut shelf = shelf(rt, "shelf_place", &["shelf_place.part", outside]);
        let kept = ("shelf_place_outside/manifest", "kept");
        make(rt, &[outside], &[kept], &[(place, outside)])?;
        refuse(&rt, &mut shelf, row);
        same(&rt, &shelf.clear(), &Ok(()), row);
        compare_link(&rt, place, row + 1)?;
        compare_file(&rt, "shelf_place_outside/manifest", b"kept", row + 2)?;

        fs::remove_dir_all(&rt, outside)?;
        refuse(&rt, &mut shelf, row + 3);
        same(&rt, &shelf.clear(), &Ok(()), row + 3);
        compare_link(&rt, place, row + 4)?;
        compare_there(&rt, outside, false, row + 5)?;

        fs::remove_file(&rt, place)?;
        fs::write(&rt, place, "a file")?;
        refuse(&rt, &mut shelf, row + 6);
        same(&rt, &shelf.clear(), &Ok(()), row + 6);
        compare_file(&rt, place, b"a file", row + 7)?;
        fs::remove_file(&rt, place)?;
    }
    Ok(())
}

#[test]
fn put_writes_through_no_link_and_over_no_file(rt: HostRuntime) -> Result<(), Fail> {
    let outside = "shelf_put_outside";
    let mut shelf = shelf(rt, "shelf_put", &["shelf_put.part", outside]);
    same(&rt, &shelf.put(1, b"no folder yet"), &FAILED, 41);
    same(&rt, &shelf.begin(1), &Ok(()), 42);
    let link = ("shelf_put.part/new/1", "../../shelf_put_outside");
    make(rt, &[], &[(outside, "kept")], &[link])?;
    same(&rt, &shelf.put(1, b"changed"), &FAILED, 43);
    same(&rt, &shelf.put(2, b"first"), &Ok(()), 44);
    same(&rt, &shelf.put(2, b"second"), &FAILED, 45);
    same(&rt, &shelf.failures.count, &3, 46);
    compare_file(&rt, outside, b"kept", 47)?;
    compare_file(&rt, "shelf_put.part/new/2", b"first", 48)?;
    same(&rt, &shelf.clear(), &Ok(()), 49);
    compare_there(&rt, "shelf_put.part", false, 50)?;
    fs::remove_file(&rt, outside)?;
    Ok(())
}

/// Where a write of a file fails half way, what was written of it is removed.
#[test]
fn failed_write_leaves_no_file(rt: HostRuntime) -> Result<(), Fail> {
    fs::write(&rt, "shelf_half", "")?;
    let mut room = Cursor::new([0u8; 2]);
    let mut failures = Failures::none();
    let done = failures.judge(fill_file(&rt, "shelf_half", &mut room, b"abc"));
    same(&rt, &done, &FAILED, 51);
    compare_failure(&rt, &failures, ErrorKind::WriteZero, 52);
    compare_there(&rt, "shelf_half", false, 53)?;
    Ok(())
}

/// Where the manifest can't be written, the old instance stays.
#[test]
fn failed_finish_leaves_the_old_instance(rt: HostRuntime) -> Result<(), Fail> {
    let folder = "shelf_finish";
    let mut shelf = shelf(rt, folder, &["shelf_finish.part"]);
    same(&rt, &shelf.finish(b"nothing begun"), &FAILED, 61);
    same(&rt, &shelf.begin(1), &Ok(()), 62);
    same(&rt, &shelf.finish(b"old"), &Ok(()), 63);
    same(&rt, &shelf.begin(2), &Ok(()), 64);
    fs::create_dir(&rt, "shelf_finish.part/new/manifest")?;
    same(&rt, &shelf.finish(b"new"), &FAILED, 65);
    same(&rt, &shelf.failures.count, &2, 66);
    same(&rt, &shelf.clear(), &Ok(()), 67);
    compare_there(&rt, "shelf_finish.part", false, 68)?;
    compare_count(&rt, folder, 1, 69)?;
    compare_file(&rt, "shelf_finish/manifest", b"old", 70)?;
    fs::remove_dir_all(&rt, folder)?;
    Ok(())
}
