//! The folder as a shelf, in a run that is stopped after each of its steps.

use super::same::same;
use super::tree::{compare_count, compare_file, compare_there, shelf, shelf_anew};
use edge_io::Shelf;
use edge_real::{FolderShelf, move_in, seal_part, set_aside};
use std::process::Abort;
use std::rt::Files;
use std::test::Fail;
use std::{fs, io};

/// The folder, and what stands beside it while a run is at work.
const FOLDER: &str = "shelf_stopped";

const PART: &str = "shelf_stopped.part";

/// Installs the old instance: a file and a manifest.
fn install_old<R: Files + AllocGlobal + Clone + Drop>(
    rt: &impl Abort,
    shelf: &mut FolderShelf<R>,
    row: u32,
) {
    same(rt, &shelf.begin(1), &Ok(()), row);
    same(rt, &shelf.put(7, b"old"), &Ok(()), row);
    same(rt, &shelf.finish(b"one"), &Ok(()), row);
}

/// Takes the first of the steps that install a new instance over an old one.
fn take_steps<R: Files + AllocGlobal + Abort>(
    rt: &R,
    shelf: &mut FolderShelf<HostRuntime>,
    steps: u32,
) -> io::Result<()> {
    if steps >= 1 {
        same(rt, &shelf.begin(2), &Ok(()), 10);
    }
    if steps >= 2 {
        same(rt, &shelf.put(8, b"new"), &Ok(()), 20);
    }
    if steps >= 3 {
        seal_part(rt, FOLDER, b"two")?;
    }
    if steps >= 4 {
        set_aside(rt, FOLDER)?;
    }
    if steps >= 5 {
        move_in(rt, FOLDER)?;
    }
    Ok(())
}

/// Compares that the old instance is installed, or the new one, and nothing else.
fn compare_whole<R: Files + AllocGlobal + Clone + Drop + Abort>(
    rt: &R,
    new: bool,
    row: u32,
) -> io::Result<()> {
    compare_count(rt, FOLDER, 2, row)?;
    if new {
        compare_file(rt, "shelf_stopped/8", b"new", row)?;
        return compare_file(rt, "shelf_stopped/manifest", b"two", row);
    }
    compare_file(rt, "shelf_stopped/7", b"old", row)?;
    compare_file(rt, "shelf_stopped/manifest", b"one", row)
}

/// After four steps the old instance is set aside, and the next run puts it back. After five the new
/// one is there. The next run installs a third one, also where it doesn't clear the part first.
#[test]
fn stopped_run_leaves_the_old_instance_or_the_new_one(rt: HostRuntime) -> Result<(), Fail> {
    for steps in 0..12 {
        let (steps, clears) = (steps % 6, steps < 6);
        let mut stopped = shelf(rt, FOLDER, &[PART]);
        install_old(&rt, &mut stopped, steps);
        take_steps(&rt, &mut stopped, steps)?;
        compare_there(&rt, FOLDER, steps != 4, 30 + steps)?;

        let mut next = shelf_anew(rt, FOLDER);
        if clears {
            same(&rt, &next.clear(), &Ok(()), 40 + steps);
            compare_there(&rt, PART, false, 50 + steps)?;
            compare_whole(&rt, steps == 5, 60 + steps)?;
        }
        same(&rt, &next.begin(3), &Ok(()), 70 + steps);
        compare_whole(&rt, steps == 5, 80 + steps)?;
        same(&rt, &next.finish(b"three"), &Ok(()), 90 + steps);
        compare_count(&rt, FOLDER, 1, 100 + steps)?;
        compare_file(&rt, "shelf_stopped/manifest", b"three", 110 + steps)?;
        compare_there(&rt, PART, false, 120 + steps)?;
        fs::remove_dir_all(&rt, FOLDER)?;
    }
    Ok(())
}
