//! Readers, each in a thread of its own.
use crate::gate::Gate;
use crate::lines::number_of;
use snapshot_hub::{Look, Naming};
use std::alloc::Global;
use std::sync::atomic::{AtomicBool, Ordering};
use std::sync::{Arc, Wait};
use std::thread::sleep;
use std::time::{Clock, Duration};

/// How many milliseconds a reader rests after a look that showed it nothing new. Readers that turn without rest take
/// the processors from the receiver, which waits for a reader that is inside.
const REST: u64 = 1;

/// What a reader has beside its look: its number, from 1 on, the gate, and the flag that tells it to stop.
#[derive(Drop)]
pub struct Pass<G: Drop> {
    pub number: u32,
    pub gate: Arc<G, Global>,
    pub stop: Arc<AtomicBool, Global>,
}

/// A reader that is to look on.
#[derive(Drop)]
pub struct Reader<R: Copy, G: Drop, H: Naming> {
    pub rt: R,
    pub pass: Pass<G>,
    pub look: Look<H>,
}

/// A reader that has stopped, and the number that it noted last.
#[derive(Drop)]
pub struct Stopped<H: Naming> {
    pub look: Look<H>,
    pub saw: Option<u32>,
}

impl<R: Wait + Clock + Copy, G: Gate, H: Naming> Reader<R, G, H> {
    /// Looks until it is told to stop, and notes which number it is shown. It rests after a look that shows the number
    /// that it noted before.
    pub fn read(self) -> Stopped<H> {
        let Reader { rt, pass, mut look } = self;
        let mut saw = None;
        let mut looks: u64 = 0;
        for _ in rt.forever() {
            pass.gate.pass(pass.number, looks);
            if pass.stop.load(Ordering::SeqCst) {
                break;
            }
            let glance = look.look();
            let shown = number_of(glance.instance());
            look = glance.leave();
            looks = looks.saturating_add(1);
            if shown == saw {
                sleep(&rt, Duration::from_millis(REST));
            }
            saw = shown;
        }
        Stopped { look, saw }
    }
}
