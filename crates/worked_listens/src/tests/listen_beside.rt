//! Readers that look while a receiver takes its datagrams.

use super::same::same;
use edge_io::{
    Datagrams, Failed, MemDatagrams, MemShelf, MemText, Next, Place, Shelf, SureEmit, SureFiles,
    Trouble,
};
use fcast_run::{Edge, Gate, run_listen};
use std::alloc::{AllocError, Global};
use std::sync::Arc;
use std::sync::atomic::{AtomicBool, AtomicU64, Ordering};
use std::test::Fail;
use std::thread::yield_now;
use worked_runs::logs::{EMPTY_INSTANCE_DATAGRAM, empty_instance};
use worked_runs::playing::labels_of;
use worked_runs::receiving::datagrams_of;

/// How many turns a wait has.
const TURNS: u32 = 50_000_000;

/// What the readers, the source and the shelf wait for.
#[derive(Drop)]
struct Turnstile {
    /// How many looks reader 1 has ended.
    first: AtomicU64,
    /// How many looks reader 2 has ended.
    second: AtomicU64,
    /// Once it has ended so many, reader 2 is held.
    hold_at: AtomicU64,
    /// Reader 2 is held.
    held: AtomicBool,
    /// The shelf was given an instance.
    begun: AtomicBool,
    /// A wait had no turn left.
    given_up: AtomicBool,
}

impl Turnstile {
    fn new() -> Turnstile {
        Turnstile {
            first: AtomicU64::new(0),
            second: AtomicU64::new(0),
            hold_at: AtomicU64::new(u64::MAX),
            held: AtomicBool::new(false),
            begun: AtomicBool::new(false),
            given_up: AtomicBool::new(false),
        }
    }

    /// Waits until so many looks have ended.
    fn wait_for_looks(&self, ended: &AtomicU64, looks: u64) {
        for _turn in 0..TURNS {
            if ended.load(Ordering::SeqCst) >= looks {
                return;
            }
            yield_now();
        }
        self.given_up.store(true, Ordering::SeqCst);
    }

    /// Waits until the word is set.
    fn wait_for(&self, word: &AtomicBool) {
        for _turn in 0..TURNS {
            if word.load(Ordering::SeqCst) {
                return;
            }
            yield_now();
        }
        self.given_up.store(true, Ordering::SeqCst);
    }

    /// Waits until each reader has ended two looks more, of which the second began later than this call. Reader 2 is
    /// held then.
    fn before_the_second(&self) {
        let first = self.first.load(Ordering::SeqCst);
        let second = self.second.load(Ordering::SeqCst);
        self.hold_at
            .store(second.saturating_add(2), Ordering::SeqCst);
        self.wait_for_looks(&self.first, first.saturating_add(2));
        self.wait_for(&self.held);
    }

    /// Waits until reader 1 has ended two looks more.
    fn before_the_end(&self) {
        let first = self.first.load(Ordering::SeqCst);
        self.wait_for_looks(&self.first, first.saturating_add(2));
    }

    fn pass_first(&self, looks: u64) {
        self.first.store(looks, Ordering::SeqCst);
        if looks == 0 {
            self.wait_for_looks(&self.second, 1);
        }
    }

    fn pass_second(&self, looks: u64) {
        self.second.store(looks, Ordering::SeqCst);
        if looks >= self.hold_at.load(Ordering::SeqCst) {
            self.held.store(true, Ordering::SeqCst);
            self.wait_for(&self.begun);
        }
    }
}

impl Gate for Turnstile {
    fn pass(&self, reader: u32, looks: u64) {
        if reader == 1 {
            self.pass_first(looks);
        } else {
            self.pass_second(looks);
        }
    }
}

/// Datagrams that come once the readers have looked.
#[derive(Drop)]
struct Paced {
    datagrams: MemDatagrams,
    turnstile: Arc<Turnstile, Global>,
    asked: u32,
}

impl Datagrams for Paced {
    ghost use Rattle.std.specs.Prelude.{[], None};

    ghost told = { λ _. ⊥ };

    ghost left = { λ _. [] };

    ghost torn = { λ _. None };

    ghost connected = { λ s. s.datagrams.source.connected };

    ghost faults = { λ s. s.datagrams.calls.failed };

    fn connect(&mut self, place: &Place) -> Result<(), Failed> {
        self.datagrams.connect(place)
    }

    fn next(&mut self, buffer: &mut [u8]) -> Next {
        self.asked = self.asked.saturating_add(1);
        match self.asked {
            2 => self.turnstile.before_the_second(),
            3 => self.turnstile.before_the_end(),
            _ => {}
        }
        self.datagrams.next(buffer)
    }
}

/// A shelf that says when it is given an instance.
#[derive(Drop)]
struct Announced {
    shelf: MemShelf,
    turnstile: Arc<Turnstile, Global>,
}

impl Shelf for Announced {
    ghost use Rattle.edge_io.specs.Shelved.{bare};

    ghost told = { λ _. ⊥ };

    ghost holds = { λ _. bare };

    ghost faults = { λ s. s.shelf.calls.failed };

    fn begin(&mut self, number: u32) -> Result<(), Trouble> {
        self.turnstile.begun.store(true, Ordering::SeqCst);
        self.shelf.begin(number)
    }

    fn put(&mut self, toi: u128, body: &[u8]) -> Result<(), Trouble> {
        self.shelf.put(toi, body)
    }

    fn finish(&mut self, manifest: &[u8]) -> Result<(), Trouble> {
        self.shelf.finish(manifest)
    }
}

type PacedEdge = Edge<Paced, SureEmit, SureFiles, Announced, MemText>;

/// The outside around two datagrams, which install the empty instances 1 and 4.
fn edge_of(alloc: Global, turnstile: &Arc<Turnstile, Global>) -> Result<PacedEdge, AllocError> {
    let list = [EMPTY_INSTANCE_DATAGRAM, empty_instance(2, 4)];
    let datagrams = MemDatagrams::new(datagrams_of(alloc, &list)?, None, Vec::new(alloc));
    Ok(Edge {
        datagrams: Paced {
            datagrams,
            turnstile: Arc::try_clone(turnstile)?,
            asked: 0,
        },
        emit: SureEmit::new(alloc),
        files: SureFiles::new(Vec::new(alloc)),
        shelf: Announced {
            shelf: MemShelf::new(alloc, None, Vec::new(alloc)),
            turnstile: Arc::try_clone(turnstile)?,
        },
        text: MemText::new(Vec::new(alloc), Vec::new(alloc)),
    })
}

/// The report, and what each reader saw.
const TEXT: &str =
    "instance 4\ndescriptor 2\nfiles 0\nreader 1 saw 4 last 4\nreader 2 saw 1 last 4\n";

/// Reader 1 looks until the end, and reader 2 until the second datagram comes.
#[test]
fn readers_look_beside_the_receiver(rt: HostRuntime) -> Result<(), Fail> {
    let alloc = rt.alloc();
    let words = labels_of(alloc, &["listen", "--readers", "2"])?;
    let turnstile = Arc::new(alloc, Turnstile::new())?;
    let mut edge = edge_of(alloc, &turnstile)?;
    let mut watchers = Vec::new(alloc);
    let status = run_listen(
        &rt,
        alloc,
        words.as_slice(),
        &mut edge,
        &mut watchers,
        &turnstile,
    );
    same(&rt, &status, &0, 1);
    let given_up = turnstile.given_up.load(Ordering::SeqCst);
    same(&rt, &given_up, &false, 2);
    same(&rt, &edge.text.written(), &TEXT.as_bytes(), 3);
    Ok(())
}
