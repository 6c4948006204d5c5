//! A store under test. Its methods say nothing of their results, which keeps the proofs of the tests short.

ghost use Rattle.std.specs.Prelude.{◌≤◌, ◌^◌};

use super::same::same;
use alc_packet::Packet;
use object_store::{Kept, Store};
use oti_blocks::Oti;
use rs_solve::Steps;
use std::alloc::{AllocError, Global};
use std::process::Abort;

/// A new symbol that completes neither its block nor its object.
pub const NEW: Kept = Kept::New {
    block_done: false,
    object_done: false,
};

/// A new symbol that completes its block.
pub const SOLVED: Kept = Kept::New {
    block_done: true,
    object_done: false,
};

/// A new symbol that completes its block and its object.
pub const READY: Kept = Kept::New {
    block_done: true,
    object_done: true,
};

/// An object: its identifier, its length, the length of its symbols, and the most source and encoding symbols of a
/// block.
#[derive(Clone, Copy)]
pub struct Sizes {
    pub toi: u32,
    pub length: u64,
    pub symbol: u16,
    pub max_block: u8,
    pub max_n: u8,
}

impl Sizes {
    pub fn new(toi: u32, length: u64, symbol: u16, max_block: u8, max_n: u8) -> Sizes {
        Sizes {
            toi,
            length,
            symbol,
            max_block,
            max_n,
        }
    }

    /// Its transmission information, where it is sound.
    pub fn oti(&self) -> Option<Oti> {
        if self.length >= 1 << 48 {
            return None;
        }
        Oti::new(self.length, self.symbol, self.max_block, self.max_n).ok()
    }
}

/// A store, and its steps.
#[derive(Drop)]
pub struct Keeping {
    store: Store,
    steps: Steps<()>,
}

impl Keeping {
    pub fn start(alloc: Global, budget: u64) -> Result<Keeping, AllocError>
        requires least { 4096 ≤ budget }
        requires most { budget ≤ 2 ^ 30 }
    {
        Ok(Keeping {
            store: Store::start(alloc, budget)?,
            steps: Steps::start(()),
        })
    }

    /// What becomes of the packet of a symbol; none where it is no packet, and without memory.
    pub fn keep(&mut self, of: &Sizes, sbn: u32, esi: u8, symbol: &[u8]) -> Option<Kept> {
        let Some(oti) = of.oti() else {
            return None;
        };
        match Packet::make(1, u128::from(of.toi), oti, sbn, esi, symbol, false) {
            Ok(packet) => self.store.keep(&packet, &mut self.steps).ok(),
            Err(_) => None,
        }
    }

    /// The byte count.
    pub fn count(&self) -> u64 {
        self.store.count()
    }

    pub fn budget(&self) -> u64 {
        self.store.budget()
    }

    /// How many symbols of a block are held.
    pub fn held(&self, toi: u32, sbn: u32) -> u8 {
        self.store.held(u128::from(toi), sbn)
    }

    pub fn oti(&self, toi: u32) -> Option<Oti> {
        self.store.oti(u128::from(toi))
    }

    pub fn ready(&self) -> &[u128] {
        self.store.ready()
    }

    /// The bytes of an object that is ready.
    pub fn whole(&self, toi: u32) -> Option<&[u8]> {
        self.store.whole(u128::from(toi))
    }

    /// The row steps so far.
    pub fn steps(&self) -> u64 {
        self.steps.count()
    }
}

/// Asserts what becomes of the packet of a symbol.
pub fn keeps(
    rt: &impl Abort,
    keeping: &mut Keeping,
    of: &Sizes,
    sbn: u32,
    esi: u8,
    symbol: &[u8],
    wanted: Kept,
    row: u32,
) {
    same(rt, &keeping.keep(of, sbn, esi, symbol), &Some(wanted), row);
}

/// Asserts the bytes of an object.
pub fn is_whole(rt: &impl Abort, keeping: &Keeping, toi: u32, wanted: Option<&[u8]>, row: u32) {
    same(rt, &keeping.whole(toi), &wanted, row);
}

/// Asserts the byte count and the row steps.
pub fn counts(rt: &impl Abort, keeping: &Keeping, count: u64, steps: u64, row: u32) {
    same(
        rt,
        &(keeping.count(), keeping.steps()),
        &(count, steps),
        row,
    );
}

/// Asserts how many symbols of a block are held.
pub fn holds(rt: &impl Abort, keeping: &Keeping, toi: u32, sbn: u32, wanted: u8, row: u32) {
    same(rt, &keeping.held(toi, sbn), &wanted, row);
}
