//! The folder as a shelf: what it holds after each call.

use super::same::same;
use super::tree::{compare_count, compare_file, compare_there, make, shelf};
use edge_io::Shelf;
use std::alloc::Global;
use std::test::Fail;
use std::{fs, io};

#[test]
fn folder_holds_the_files_and_the_manifest(rt: HostRuntime) -> Result<(), Fail> {
    let folder = "shelf_whole";
    let part = "shelf_whole.part";
    let mut shelf = shelf(rt, folder, &[part]);
    same(&rt, &shelf.begin(1), &Ok(()), 1);
    same(&rt, &shelf.put(7, b"hi"), &Ok(()), 2);
    same(&rt, &shelf.put(u128::MAX, b""), &Ok(()), 3);
    compare_there(&rt, folder, false, 4)?;
    same(&rt, &shelf.finish(b"m\n"), &Ok(()), 5);
    compare_count(&rt, folder, 3, 6)?;
    compare_file(&rt, "shelf_whole/7", b"hi", 7)?;
    let last = "shelf_whole/340282366920938463463374607431768211455";
    compare_file(&rt, last, b"", 8)?;
    compare_file(&rt, "shelf_whole/manifest", b"m\n", 9)?;
    compare_there(&rt, part, false, 10)?;

    same(&rt, &shelf.begin(2), &Ok(()), 11);
    compare_count(&rt, folder, 3, 12)?;
    same(&rt, &shelf.finish(b"n\n"), &Ok(()), 13);
    compare_count(&rt, folder, 1, 14)?;
    compare_there(&rt, part, false, 15)?;
    same(&rt, &shelf.failures.count, &0, 16);
    fs::remove_dir_all(&rt, folder)?;
    Ok(())
}

/// A folder with folders, files and links of all kinds in it, and what the links point to.
fn make_all_kinds(rt: HostRuntime) -> io::Result<()> {
    let folders = [
        "shelf_mixed_outside",
        "shelf_mixed/manifest/a/b",
        "shelf_mixed/8/a/b/c",
        "shelf_mixed/1.gone",
        "shelf_mixed.part/old/a",
        "shelf_mixed.part/0.gone/b",
    ];
    let files = [
        ("shelf_mixed_outside/kept", "kept"),
        ("shelf_mixed/manifest/file", "in a folder"),
        ("shelf_mixed/8/a/file", "deeper"),
        ("shelf_mixed/2.gone", "a name of its own"),
        ("shelf_mixed/1.gone/file", "in a folder"),
        ("shelf_mixed.part/new", "a file in the place of a folder"),
    ];
    let links = [
        ("shelf_mixed/folder_link", "../shelf_mixed_outside"),
        ("shelf_mixed/file_link", "../shelf_mixed_outside/kept"),
        ("shelf_mixed/8/a/deep_link", "../../../shelf_mixed_outside"),
        ("shelf_mixed/dangling_link", "nowhere"),
        ("shelf_mixed.part/link", "../shelf_mixed_outside"),
    ];
    make(rt, &folders, &files, &links)
}

#[test]
fn folders_with_all_kinds_of_entries_are_emptied(rt: HostRuntime) -> Result<(), Fail> {
    let folder = "shelf_mixed";
    let part = "shelf_mixed.part";
    let outside = "shelf_mixed_outside";
    let mut shelf = shelf(rt, folder, &[part, outside]);
    make_all_kinds(rt)?;
    same(&rt, &shelf.begin(1), &Ok(()), 20);
    compare_count(&rt, part, 1, 21)?;
    compare_count(&rt, "shelf_mixed.part/new", 0, 22)?;
    same(&rt, &shelf.finish(b"m"), &Ok(()), 23);
    compare_count(&rt, folder, 1, 24)?;
    compare_there(&rt, part, false, 25)?;
    compare_file(&rt, "shelf_mixed_outside/kept", b"kept", 26)?;
    fs::remove_dir_all(&rt, folder)?;
    fs::remove_dir_all(&rt, outside)?;
    Ok(())
}

#[test]
fn deep_folders_are_emptied(rt: HostRuntime) -> Result<(), Fail> {
    let folder = "shelf_deep";
    let mut shelf = shelf(rt, folder, &["shelf_deep.part"]);
    nest(rt, rt.alloc(), folder)?;
    same(&rt, &shelf.begin(1), &Ok(()), 30);
    same(&rt, &shelf.finish(b"m"), &Ok(()), 31);
    compare_count(&rt, folder, 1, 32)?;
    fs::remove_dir_all(&rt, folder)?;
    Ok(())
}

/// Makes the folder with 300 folders in it, one in the other, and a file in each.
fn nest(rt: HostRuntime, alloc: Global, folder: &str) -> io::Result<()> {
    let mut path = String::from_str(alloc, folder)?;
    fs::create_dir(&rt, path.as_str())?;
    for _ in 0..300 {
        path.push_str("/d")?;
        fs::create_dir(&rt, path.as_str())?;
        let file = format!(in alloc; "{path}/f")?;
        fs::write(&rt, file.as_str(), "x")?;
    }
    Ok(())
}
