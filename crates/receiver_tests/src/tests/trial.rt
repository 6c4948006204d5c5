//! A receiver under test. Its methods say nothing of their results, which keeps the proofs of the tests short.

ghost use Rattle.std.specs.Prelude.{◌≤◌, ◌^◌};

use super::same::same;
use carousel_cid::Instance;
use receiver_core::{Kept, Receiver, Standing, Taken};
use rs_solve::Steps;
use std::alloc::{AllocError, Global};
use std::process::Abort;

/// A new symbol that completes its block and its object.
pub const WHOLE: Kept = Kept::New {
    block_done: true,
    object_done: true,
};

/// A new symbol that completes neither.
pub const PART: Kept = Kept::New {
    block_done: false,
    object_done: false,
};

/// A receiver of session 1, and its steps.
#[derive(Drop)]
pub struct Trial {
    pub alloc: Global,
    receiver: Receiver,
    steps: Steps<()>,
}

impl Trial {
    pub fn start(alloc: Global, budget: u64) -> Result<Trial, AllocError>
        requires least { 4096 ≤ budget }
        requires most { budget ≤ 2 ^ 30 }
    {
        Ok(Trial {
            alloc,
            receiver: Receiver::start(alloc, 1, budget)?,
            steps: Steps::start(()),
        })
    }

    /// What becomes of a datagram; none without memory.
    pub fn take(&mut self, datagram: &[u8]) -> Option<Taken> {
        match self.receiver.take(datagram, &mut self.steps) {
            Ok(taken) => Some(taken),
            Err(_) => None,
        }
    }

    /// What becomes of a datagram that was made; none without memory.
    pub fn take_made(&mut self, made: &Result<Vec<u8>, AllocError>) -> Option<Taken> {
        match made {
            Ok(datagram) => self.take(datagram.as_slice()),
            Err(_) => None,
        }
    }

    /// What a settling answers; none without memory.
    pub fn settle(&mut self) -> Option<Option<u32>> {
        match self.receiver.settle() {
            Ok(number) => Some(number),
            Err(_) => None,
        }
    }

    pub fn standing(&self, toi: u32) -> Standing {
        self.receiver.standing(u128::from(toi))
    }

    pub fn instance(&self) -> Option<&Instance> {
        self.receiver.installed()
    }

    /// The number and the descriptor's object of the installed instance.
    pub fn installed(&self) -> Option<(u32, u128)> {
        match self.instance() {
            Some(instance) => Some((instance.number, instance.descriptor_toi)),
            None => None,
        }
    }

    /// The byte count of what is held.
    pub fn count(&self) -> u64 {
        self.receiver.store().count()
    }

    /// How many symbols of a block are held.
    pub fn held(&self, toi: u32, sbn: u32) -> u8 {
        self.receiver.store().held(u128::from(toi), sbn)
    }

    pub fn drops(&self) -> u64 {
        self.receiver.drops()
    }

    /// The row steps so far.
    pub fn row_steps(&self) -> u64 {
        self.steps.count()
    }
}

/// A packet of an object's first symbol.
pub fn packet(toi: u32, kept: Kept) -> Taken {
    symbol_of(toi, 0, kept)
}

/// A packet of this symbol of an object's first block.
pub fn symbol_of(toi: u32, esi: u8, kept: Kept) -> Taken {
    Taken::Packet {
        toi: u128::from(toi),
        sbn: 0,
        esi,
        kept,
    }
}

/// Takes a datagram that was made, of which this is wanted.
pub fn takes(
    rt: &impl Abort,
    trial: &mut Trial,
    made: &Result<Vec<u8>, AllocError>,
    wanted: Taken,
    row: u32,
) {
    same(rt, &trial.take_made(made), &Some(wanted), row);
}

/// Settles, of which this is wanted.
pub fn settles(rt: &impl Abort, trial: &mut Trial, wanted: Option<u32>, row: u32) {
    same(rt, &trial.settle(), &Some(wanted), row);
}

/// An object stands so.
pub fn stands(rt: &impl Abort, trial: &Trial, toi: u32, wanted: Standing, row: u32) {
    same(rt, &trial.standing(toi), &wanted, row);
}

/// This instance is installed, told by its number and its descriptor's object.
pub fn has(rt: &impl Abort, trial: &Trial, wanted: Option<(u32, u128)>, row: u32) {
    same(rt, &trial.installed(), &wanted, row);
}
