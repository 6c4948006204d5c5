//! The program `fcast`: it makes the real forms of the outside, and calls `run` or `run_listen`.
#![tactic(auto)]

mod event_text;
mod settings;
mod standard;
mod tell;
mod watchers;

use crate::event_text::EventText;
use crate::settings::{SettingFault, Settings, asked_settings};
use crate::standard::hold_standard;
use crate::tell::{tell, tell_file, tell_first};
use crate::watchers::{heard_by, tell_heard};
use edge_io::{Text, Trouble};
use edge_real::{
    EchoedText, FolderFiles, FolderShelf, PlacedDatagrams, PlacedEmit, ReaderBytes, Tried,
    WriterText,
};
use fcast_run::{Edge, Wide, run, run_listen};
use meta_text::Label;
use run_base::{Fault, Status, fault_of, number};
use std::io::{BufReader, BufWriter, ErrorKind};
use std::process::ExitCode;
use std::rt::Env;
use std::sync::{Arc, Wait};
use std::thread::Threads;
use std::time::Clock;
use std::{env, io};
use watch_list::{Bell, Counter, Lines, Watch};

/// How many bytes are read from standard input, or written to an output, at once.
const PIECE: usize = 65_536;

fn main(rt: HostRuntime) -> ExitCode {
    let _held = [hold_standard(&rt), hold_standard(&rt), hold_standard(&rt)];
    let status = match command_words(&rt) {
        Ok(words) => run_words(&rt, rt, words.as_slice()),
        Err(error) if error.kind() == ErrorKind::OutOfMemory => number(Err(Fault::Memory)),
        // Words that aren't text are no command, as no words are.
        Err(_) => run_words(&rt, rt, &[]),
    };
    if fault_of(status) == Some(Fault::Memory) {
        tell(&rt, "memory", &None);
    }
    ExitCode::from(status)
}

/// Runs the command as the environment variables ask for it.
fn run_words<R: Threads + Wait + Clock + Copy + Send + 'static>(
    threads: &R,
    rt: HostRuntime,
    words: &[Label],
) -> u8 {
    match asked_settings(&rt) {
        // Only a buffer's memory is asked for.
        Ok(settings) => run_outside(threads, rt, settings, words).unwrap_or(number(Err(
            Fault::Memory,
        ))),
        Err(SettingFault::Rate) => {
            tell(&rt, "FCAST_RATE is no number of bytes a second", &None);
            number(Ok(Status::NoCommand))
        }
        Err(SettingFault::Idle) => {
            tell(
                &rt,
                "FCAST_IDLE is no number of seconds from 1 to 86400",
                &None,
            );
            number(Ok(Status::NoCommand))
        }
        Err(SettingFault::Memory) => number(Err(Fault::Memory)),
    }
}

/// Runs the command over the real forms, and says what the watchers heard and which of the forms failed. The readers of
/// a listening run on `threads`.
fn run_outside<R: Threads + Wait + Clock + Copy + Send + 'static>(
    threads: &R,
    rt: HostRuntime,
    settings: Settings,
    words: &[Label],
) -> io::Result<u8> {
    let alloc = rt.alloc();
    let listens = is_command(words, "listen");
    let waits = listens || is_command(words, "recv");
    let receives = waits || is_command(words, "replay");
    let mut shelf = FolderShelf::new(rt);
    if receives && let Err(trouble) = shelf.clear() {
        return Ok(tell_unclear(rt, &shelf, trouble));
    }
    let input = BufReader::with_capacity(alloc, PIECE, Tried::new(rt.stdin()))?;
    let log = BufWriter::with_capacity(alloc, PIECE, Tried::new(rt.stdout()))?;
    let output = BufWriter::with_capacity(alloc, PIECE, Tried::new(rt.stdout()))?;
    // What a send writes to the text would be lost in the log, or not be missed where that goes into a file.
    let echo = is_command(words, "send").then_some(Tried::new(rt.stderr()));
    // Words without an address get no network.
    let net = has_address(words).then_some(rt);
    let mut edge = Edge {
        datagrams: PlacedDatagrams::new(ReaderBytes::new(input), net, settings.idle),
        emit: PlacedEmit::new(alloc, WriterText::new(log), net, settings.rate),
        files: FolderFiles::new(rt),
        shelf,
        text: EchoedText::new(WriterText::new(output), echo),
    };
    // What waits for datagrams tells each event at once, since the next may not come.
    let events = EventText::new(rt, alloc, if waits { 0 } else { PIECE })?;
    // They are boxed here, since what boxes hide would be hidden in a function that gives them to its caller.
    let mut watchers: Vec<Box<dyn Watch>> = Vec::new(alloc);
    if listens {
        watchers.push(Box::new(alloc, Bell::new(events))?)?;
    } else {
        watchers.push(Box::new(alloc, Lines::new(events))?)?;
    }
    watchers.push(Box::new(alloc, Counter::new())?)?;
    let mut heard = Vec::with_capacity(alloc, watchers.len())?;
    let status = if listens {
        let gate = Arc::new(alloc, Wide)?;
        run_listen(threads, alloc, words, &mut edge, &mut watchers, &gate)
    } else {
        run(alloc, words, &mut edge, &mut watchers)
    };
    let status = ended(status, edge.emit.log.sink.finish());
    let status = ended(status, edge.text.text.finish());
    heard_by(&watchers, &mut heard)?;
    // The lines of events that are still in the buffer go out with the one who wrote them.
    drop(watchers);
    tell_heard(&rt, heard.as_slice());
    match fault_of(status) {
        Some(Fault::Datagrams) => tell_first(
            &rt,
            &[
                ("UDP", &edge.datagrams.udp.failures.last),
                ("standard input", &edge.datagrams.log.source.failures.last),
            ],
        ),
        Some(Fault::Text | Fault::Emit) => tell_first(
            &rt,
            &[
                ("UDP", &edge.emit.udp.failures.last),
                ("standard output", &edge.emit.log.sink.failures.last),
                ("standard output", &edge.text.text.failures.last),
            ],
        ),
        Some(Fault::Shelf) => tell(&rt, "installed", &edge.shelf.failures.last),
        Some(Fault::Files) => tell_file(&rt, &edge.files),
        Some(Fault::Memory) | None => {}
    }
    if receives {
        // What can't be removed now is removed by the next run.
        let _cleared = edge.shelf.clear();
    }
    Ok(status)
}

/// The status of a run that can't remove what a stopped one left, and the line that says why.
fn tell_unclear(rt: HostRuntime, shelf: &FolderShelf<HostRuntime>, trouble: Trouble) -> u8 {
    match trouble {
        Trouble::Failed => {
            tell(&rt, "installed", &shelf.failures.last);
            number(Err(Fault::Shelf))
        }
        Trouble::Memory => number(Err(Fault::Memory)),
    }
}

/// Says whether this is the first of the words.
fn is_command(words: &[Label], name: &str) -> bool {
    words.first().is_some_and(|word| word.as_str() == name)
}

/// Says whether an address is among the words. No value begins with a hyphen, so this word is the option.
fn has_address(words: &[Label]) -> bool {
    words.iter().any(|word| word.as_str() == "--addr")
}

/// The status of a run after a text was flushed at its end.
fn ended(status: u8, flushed: Result<(), Trouble>) -> u8 {
    match flushed {
        Ok(()) => status,
        Err(Trouble::Failed) => number(Err(Fault::Text)),
        Err(Trouble::Memory) => number(Err(Fault::Memory)),
    }
}

/// The words behind the program's name.
fn command_words(rt: &(impl Env + AllocGlobal)) -> io::Result<Vec<Label>> {
    let mut words = Vec::new(rt.alloc());
    for word in env::args(rt)?.skip(1) {
        words.push(Label::new(word))?;
    }
    Ok(words)
}
