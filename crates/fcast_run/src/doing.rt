//! Doing a task.
ghost use Rattle.std.specs.Prelude.{◌≡◌};
ghost use Rattle.run_tasks.specs.Runs.{EndsAs};
ghost use Rattle.run_words.specs.Commands.{task_for};
ghost use Rattle.run_words.specs.Ranges.{IsFit};
ghost use Rattle.watch_list.specs.Hearing.{Heard};

use crate::receive::receive;
use edge_io::{Datagrams, Emit, Files, Shelf, Text};
use meta_text::Label;
use run_base::{Fault, Status, tell_usage};
use run_drill::drill;
use run_dump::dump;
use run_receive::Nobody;
use run_send::send;
use run_tasks::Edge;
use run_words::{Task, read_task};
use std::alloc::Global;
use watch_list::Watch;

/// Does what the words say.
pub fn attempt<D: Datagrams, E: Emit, F: Files, S: Shelf, T: Text>(
    alloc: Global,
    words: &[Label],
    edge: &mut Edge<D, E, F, S, T>,
    watchers: &mut Vec<Box<dyn Watch>>,
) -> Result<Status, Fault>
    ensures { EndsAs D.Datagrams E.Emit F.Files S.Shelf T.Text (task_for words.now) edge.old edge.new
        (λ events. Heard (λ v. hearing v) events watchers.old.items watchers.new.items) (watchers.new.items ≡ watchers.old.items) result }
{
    let task = read_task(alloc, words)?;
    do_task(alloc, &task, edge, watchers)
}

/// Does the task, with the parts of the outside that it uses.
fn do_task<D: Datagrams, E: Emit, F: Files, S: Shelf, T: Text>(
    alloc: Global,
    task: &Task,
    edge: &mut Edge<D, E, F, S, T>,
    watchers: &mut Vec<Box<dyn Watch>>,
) -> Result<Status, Fault>
    requires { IsFit task.now }
    ensures { EndsAs D.Datagrams E.Emit F.Files S.Shelf T.Text task.now edge.old edge.new
        (λ events. Heard (λ v. hearing v) events watchers.old.items watchers.new.items) (watchers.new.items ≡ watchers.old.items) result }
{
    match task {
        Task::Usage => tell_usage(&mut edge.text),
        Task::Receive(settings) => receive(
            alloc,
            settings,
            &mut edge.datagrams,
            &mut edge.shelf,
            &mut edge.text,
            watchers,
            &mut Nobody,
        ),
        Task::Dump(most) => dump(alloc, *most, &mut edge.datagrams, &mut edge.text),
        Task::Send(sending) => send(
            alloc,
            sending,
            &mut edge.files,
            &mut edge.emit,
            &mut edge.text,
        ),
        Task::Drill(start) => drill(alloc, *start, &mut edge.text),
    }
}
