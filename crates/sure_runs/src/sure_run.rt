//! Runs over devices that never fail.

ghost use Rattle.std.specs.Prelude.{◌≡◌, ◌≢◌, ◌⊎◌, Ok, Err};
ghost use Rattle.run_base.specs.Statuses.{number};
ghost use Rattle.run_base.specs.declared.fault.Fault.TheVariants.{Memory};
ghost use Rattle.run_tasks.specs.Tasks.{outcome};
ghost use Rattle.run_words.specs.Commands.{task_for};

use edge_io::{Datagrams, Files, SureDatagrams, SureEmit, SureFiles, SureShelf, SureText};
use fcast_run::{Edge, run};
use meta_text::Label;
use std::alloc::Global;

/// An outside that never fails, and tells all that it holds.
pub type SureEdge = Edge<SureDatagrams, SureEmit, SureFiles, SureShelf, SureText>;

/// Does what the words say over devices that never fail, with no watcher, and answers the status. No device failed, so
/// no status says so.
pub fn run_surely(alloc: Global, words: &[Label], edge: &mut SureEdge) -> u8
    // The status is the outcome's, or that of want of memory.
    ensures completes { (result ≡ number (Ok (outcome (task_for words.now) (⟦<SureDatagrams as Datagrams>⟧.left edge.old.datagrams)
        (⟦<SureDatagrams as Datagrams>⟧.torn edge.old.datagrams) (⟦<SureFiles as Files>⟧.found edge.old.files)).status)) ⊎ (result ≡ number (Err Memory)) }
    ensures datagrams { result ≢ 4 }
    ensures texts { result ≢ 5 }
    ensures shelf { result ≢ 6 }
    ensures files { result ≢ 12 }
{
    let mut watchers = Vec::new(alloc);
    run(alloc, words, edge, &mut watchers)
}
