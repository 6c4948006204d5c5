//! What `drill` does. The numbers were reckoned by a program of another language, which goes by docs/FORMATS.md alone.
//! How many datagrams are sent and delivered, and the row steps of these, are found here once more, from the datagrams
//! that `send` sends of the same files.

use super::same::same;
use carousel_cid::{FileOf, Instance};
use fcast_run::{Summary, drill_into};
use receiver_core::Receiver;
use rs_solve::Steps;
use std::process::Abort;
use std::test::Fail;
use worked_runs::deliveries::next;
use worked_runs::drawn::{Counts, FIRST_FILE_OF_3, counts_of, drawn_file, drawn_files};
use worked_runs::playing::{NONE, play};

/// The lines of the drill that starts with 0.
const LINES_OF_0: &str = "sent 11810\ndelivered 8880\ninstalled 3\nfiles 8 517229\n";

/// The summary of that drill.
const SUMMARY_OF_0: Summary = Summary {
    sent: 11_810,
    delivered: 8_880,
    installed: Some(3),
    files: 8,
    total: 517_229,
};

/// Its row steps: for each block that was done, its missing source symbols times its source symbols.
const STEPS_OF_0: u64 = 19_164;

/// Whether these files are the drawn ones from this place on.
fn are_drawn(files: &[FileOf], drawn: &[Vec<u8>], first: usize) -> bool {
    for place in 0..files.len() {
        let same = match drawn.get(first.saturating_add(place)) {
            Some(bytes) => files[place].body.as_slice() == bytes.as_slice(),
            None => false,
        };
        if !same {
            return false;
        }
    }
    true
}

/// Whether this is the third instance, with its files as they are drawn.
fn is_third(installed: Option<&Instance>, drawn: &[Vec<u8>]) -> bool {
    let Some(instance) = installed else {
        return false;
    };
    let files = instance.files.as_slice();
    instance.number == 3 && files.len() == 8 && are_drawn(files, drawn, FIRST_FILE_OF_3)
}

#[test]
fn the_lines_of_a_drill(rt: HostRuntime) -> Result<(), Fail> {
    let ran = play(rt.alloc(), &["drill", "--start", "0"], &[], false, NONE)?;
    same(&rt, &ran.status, &0, 1);
    same(&rt, &ran.edge.text.written(), &LINES_OF_0.as_bytes(), 2);
    same(&rt, &ran.heard, &Some(0), 3);
    Ok(())
}

/// These are the numbers of the drill that starts with 0.
fn are_of_0(rt: &impl Abort, counts: &Counts) {
    same(rt, &counts.sent, &SUMMARY_OF_0.sent, 11);
    same(rt, &counts.delivered, &SUMMARY_OF_0.delivered, 12);
    same(rt, &counts.steps, &STEPS_OF_0, 13);
}

// A second drill of the same start comes to the same numbers.
#[test]
fn a_drill_fills_its_receiver(rt: HostRuntime) -> Result<(), Fail> {
    let alloc = rt.alloc();
    let mut receiver = Receiver::start(alloc, 1, 67_108_864)?;
    let mut steps = Steps::start(());
    let summary = drill_into(alloc, 0, &mut receiver, &mut steps)?;
    same(&rt, &summary, &SUMMARY_OF_0, 21);
    same(&rt, &steps.count(), &STEPS_OF_0, 22);
    let (drawn, state) = drawn_files(alloc, 0)?;
    let third = is_third(receiver.installed(), drawn.as_slice());
    same(&rt, &third, &true, 23);
    are_of_0(&rt, &counts_of(alloc, drawn.as_slice(), state)?);
    Ok(())
}

#[test]
fn the_first_draws_of_0(rt: HostRuntime) -> Result<(), Fail> {
    same(&rt, &(next(0) >> 32), &335_903_614, 31);
    let (file, _) = drawn_file(rt.alloc(), 0)?;
    same(&rt, &file.len(), &103_614, 32);
    Ok(())
}
