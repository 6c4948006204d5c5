//! Receiving a session beside readers.
ghost use Rattle.std.specs.Prelude.{◌≡◌, ◌≤◌, [], true, Some, IfOk, drop, map, vec_len, string_bytes};
ghost use Rattle.edge_io.specs.Faults.{Rose};
ghost use Rattle.run_base.specs.Answers.{Blames, AfterTaking, LeavesNothing, LeavesShelf};
ghost use Rattle.run_base.specs.Outcome.{Pieces};
ghost use Rattle.run_base.specs.Ranges.{IsInRange};
ghost use Rattle.run_base.specs.Statuses.{is_one_of, leaves_shelf};
ghost use Rattle.run_base.specs.Tellings.{Tells};
ghost use Rattle.run_readers.specs.Listens.{LeavesLines, AddsLines, ComesOf};
ghost use Rattle.run_receive.specs.Events.{published};
ghost use Rattle.run_receive.specs.Outcome.{bound_statuses, received};
ghost use Rattle.run_words.specs.Ranges.{AreReaders};
ghost use Rattle.watch_list.specs.Hearing.{Heard};

use crate::receive::receive;
use edge_io::{Datagrams, Shelf, Text};
use run_base::{Fault, Status, tell};
use run_readers::{Gate, Needs, Reader, Stage, Stopped, end_all, needs_of, push_lines, start};
use run_words::Listening;
use snapshot_hub::{Hub, Naming, Publisher, make};
use std::alloc::Global;
use std::sync::{Arc, Wait};
use std::thread::Threads;
use std::time::Clock;
use watch_list::Watch;

/// Receives the session, while readers look at what is installed, and writes their lines after the report. All memory
/// for the readers is taken before the first of them is started. From then on every path comes to the end of the hub, of
/// each thread, and of the publisher.
pub fn receive_beside<
    H: Naming + Send + Sync + 'static,
    R: Threads + Wait + Clock + Copy + Send + 'static,
    D: Datagrams,
    S: Shelf,
    T: Text,
    G: Gate + Send + Sync + 'static,
>(
    rt: &R,
    alloc: Global,
    listening: &Listening,
    hub: Hub,
    gate: &Arc<G, Global>,
    datagrams: &mut D,
    shelf: &mut S,
    text: &mut T,
    watchers: &mut Vec<Box<dyn Watch>>,
) -> Result<Status, Fault>
    requires name { hub.book ≡ H.book }
    requires hub { hub.readers ≡ listening.now.readers }
    requires range { IsInRange listening.now.settings }
    requires readers { AreReaders listening.now.readers }
    ensures table { IfOk result (λ s. is_one_of (bound_statuses listening.now.settings.bound) s ≡ true) }
    ensures status { D.told datagrams.old → IfOk result (λ s. s ≡ (received listening.now.settings (D.left datagrams.old) (D.torn datagrams.old)).status) }
    ensures text { D.told datagrams.old → T.told text.old → LeavesLines result (published listening.now.settings (D.left datagrams.old)) listening.now.readers
        (received listening.now.settings (D.left datagrams.old) (D.torn datagrams.old)).text (T.written text.old) (T.written text.new) }
    ensures unwritten { T.told text.old → LeavesNothing Pieces result (T.written text.old) (T.written text.new) }
    ensures shelf { D.told datagrams.old → S.told shelf.old →
        LeavesShelf result (received listening.now.settings (D.left datagrams.old) (D.torn datagrams.old)).calls (S.holds shelf.old) (S.holds shelf.new) }
    ensures apart { leaves_shelf result ≡ true → shelf.new ≡ shelf.old }
    ensures left { D.told datagrams.old → AfterTaking result
        (D.left datagrams.new ≡ drop (received listening.now.settings (D.left datagrams.old) (D.torn datagrams.old)).asked (D.left datagrams.old)) }
    ensures place { AfterTaking result (D.connected datagrams.new ≡ Some listening.now.settings.place) }
    ensures blames { Blames result (Rose (D.faults datagrams.old) (D.faults datagrams.new)) (Rose (T.faults text.old) (T.faults text.new)) ⊥
        (Rose (S.faults shelf.old) (S.faults shelf.new)) ⊥ }
    ensures events { D.told datagrams.old → Tells result (received listening.now.settings (D.left datagrams.old) (D.torn datagrams.old)).events
        (received listening.now.settings (D.left datagrams.old) (D.torn datagrams.old)).first_events
        (λ events. Heard (λ v. hearing v) events watchers.old.items watchers.new.items) }
{
    let count = listening.readers as usize;
    let Needs {
        stop,
        passes,
        lines,
    } = needs_of(alloc, gate, listening.readers)?;
    let stopped = Vec::with_capacity(alloc, count)?;
    let mut seats = Vec::with_capacity(alloc, count)?;
    let (publisher, mut looks) = make::<R, H>(rt, hub)?;
    let mut stage = Stage::new(alloc, *rt, publisher, stop);
    for pass in passes {
        let Some(look) = looks.pop() else {
            unreachable!()
        };
        let reader = Reader {
            rt: *rt,
            pass,
            look,
        };
        if seats.push(start(rt, move || reader.read())).is_err() {
            unreachable!();
        }
    }
    let done = receive(
        alloc,
        &listening.settings,
        datagrams,
        shelf,
        text,
        watchers,
        &mut stage,
    );
    let stopped = end_all(rt, seats, stopped);
    finish(rt, done, stage, stopped, lines, text)
}

/// Writes the lines of the readers, where the run came to its end, and ends the publisher.
fn finish<R: Wait + Copy, H: Naming, T: Text>(
    rt: &R,
    done: Result<Status, Fault>,
    stage: Stage<R, H>,
    stopped: Vec<Stopped<H>>,
    lines: String,
    text: &mut T,
) -> Result<Status, Fault>
    requires few { vec_len stopped ≤ 16 }
    requires empty { string_bytes lines ≡ [] }
    ensures comes { ComesOf done result (Rose (T.faults text.old) (T.faults text.new)) }
    ensures lines { T.told text.old → AddsLines result stage (vec_len stopped) (T.written text.old) (T.written text.new) }
    ensures grows { T.faults text.old ≤ T.faults text.new }
{
    let (publisher, numbers) = stage.into_parts();
    let done = tell_readers(done, &publisher, numbers.as_slice(), stopped, lines, text);
    publisher.end(rt);
    done
}

/// Writes the lines of the readers in one piece, where the run came to its end.
fn tell_readers<H: Naming, T: Text>(
    done: Result<Status, Fault>,
    publisher: &Publisher<H>,
    numbers: &[u32],
    stopped: Vec<Stopped<H>>,
    mut lines: String,
    text: &mut T,
) -> Result<Status, Fault>
    requires numbers { numbers.now ≡ map (λ i. i.number) publisher.now }
    requires few { vec_len stopped ≤ 16 }
    requires empty { string_bytes lines ≡ [] }
    ensures comes { ComesOf done result (Rose (T.faults text.old) (T.faults text.new)) }
    ensures lines { T.told text.old → AddsLines result publisher.now (vec_len stopped) (T.written text.old) (T.written text.new) }
    ensures grows { T.faults text.old ≤ T.faults text.new }
{
    let status = done?;
    push_lines(&mut lines, publisher, numbers, stopped)?;
    tell(text, lines.as_str(), status)
}
