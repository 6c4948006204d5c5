//! The receiver.
ghost use Rattle.std.specs.Prelude.{◌≡◌, ◌<◌, ◌≤◌, ◌+◌, ◌-◌, ◌^◌, ℕ, [], true, false, Some, None, min, IfOk, OnOk, OnErr, IsOk, option_map, is_some};
ghost use Rattle.alc_packet.specs.Packet.{IsPacket};
ghost use Rattle.held_packets.specs.Held.{nothing_held};
ghost use Rattle.held_packets.specs.Whole.{whole};
ghost use Rattle.object_store.specs.Store.{is_in};
ghost use Rattle.receiver_core.specs.BestOf.{best};
ghost use Rattle.receiver_core.specs.Classes.{taken_of, taken_control, held_with, steps_with, takes_memory, drops_with};
ghost use Rattle.receiver_core.specs.Inner.Drops.{drops_after};
ghost use Rattle.held_packets.specs.Verdict.{verdict, step, is_new, row_steps};
ghost use Rattle.receiver_core.specs.Receiver.{Receiver, Announces, standing_of};

use crate::settling::{find, install};
use crate::sweeping::{Swept, sweep};
use crate::waiting::Waiting;
use crate::{Kept, Standing, Taken};
use alc_packet::{Datagram, Packet};
use carousel_cid::Instance;
use object_store::Store;
use rs_solve::Steps;
use std::alloc::{AllocError, Global};
use std::collections::BTreeMap;
use std::marker::Model;

/// A receiver of one session: it keeps packets, and installs the best instance of what is whole.
#[derive(Drop)]
pub struct Receiver {
    alloc: Global,
    tsi: u64,
    store: Store,
    /// The standing of each object that was settled.
    standings: BTreeMap<u128, Standing>,
    /// The descriptors among them that may become the best, by what they wait for.
    waiting: Waiting,
    /// Whether want of memory has lost some of those.
    lost: bool,
    /// When those that are beaten were let go last.
    swept: Swept,
    /// So many of the store's ready objects, from the first on, were settled.
    settled: usize,
    /// The best instance of those.
    installed: Option<Instance>,
    drops: u64,
}

impl Model for Receiver {
    ghost use Rattle.receiver_core.specs.Receiver.{Receiver};
    ghost use Rattle.receiver_core.specs.Inner.Settling.{IsSettling};
    ghost use Rattle.std.specs.Prelude.{take};
    ghost use Rattle.std.specs.Coded.{codes};
    ghost use Rattle.held_packets.specs.Codes.{held_code};

    ghost Value = { Receiver };

    ghost coded = { Prim.hlevel (codes, held_code) };

    ghost view = { λ a. record { tsi = a.tsi; budget = a.store.budget; held = a.store.held; installed = a.installed; settled = take a.settled a.store.ready; drops = a.drops } };

    ghost invariant = { λ a. IsSettling a.store a.standings a.waiting a.settled a.lost a.installed };
}

impl Receiver {
    /// A receiver of the session with this TSI, which holds nothing. `budget` bounds the byte count of what it will
    /// hold: 256 for an object, 64 for a source block with a symbol, and the symbol length for each symbol.
    pub fn start(alloc: Global, tsi: u64, budget: u64) -> Result<Receiver, AllocError>
        requires tsi { tsi < 2 ^ 48 }
        requires least { 4096 ≤ budget }
        requires most { budget ≤ 2 ^ 30 }
        ensures { IfOk result (λ r. r ≡ record { tsi = tsi; budget = budget; held = nothing_held; installed = None; settled = []; drops = 0 }) }
    {
        Ok(Receiver {
            alloc,
            tsi,
            store: Store::start(alloc, budget)?,
            standings: BTreeMap::new(alloc),
            waiting: BTreeMap::new(alloc),
            lost: false,
            swept: Swept::new(),
            settled: 0,
            installed: None,
            drops: 0,
        })
    }

    /// Takes a datagram, and says what became of it. Only a new symbol takes memory; an error says that there was
    /// none, and then nothing has changed. Row steps are added where a source block is solved.
    pub fn take<L>(&mut self, datagram: &[u8], steps: &mut Steps<L>) -> Result<Taken, AllocError>
        ensures answer { IfOk result (λ t. t ≡ taken_of self.old.tsi self.old.budget self.old.held datagram.now) }
        ensures held { OnOk result (self.new.held ≡ held_with self.old.tsi self.old.budget self.old.held datagram.now) }
        ensures drops { IfOk result (λ t. self.new.drops ≡ drops_with self.old.drops t) }
        ensures tsi { self.new.tsi ≡ self.old.tsi }
        ensures budget { self.new.budget ≡ self.old.budget }
        ensures installed { self.new.installed ≡ self.old.installed }
        ensures settled { self.new.settled ≡ self.old.settled }
        ensures count { OnOk result (steps.new.count ≡ min (steps.old.count + steps_with self.old.tsi self.old.budget self.old.held datagram.now) (2 ^ 64 - 1)) }
        ensures ledger { steps.new.ledger ≡ steps.old.ledger }
        ensures err { OnErr result (self.new ≡ self.old) }
        ensures uncounted { OnErr result (steps.new.count ≡ steps.old.count) }
        ensures no_memory { takes_memory (taken_of self.old.tsi self.old.budget self.old.held datagram.now) ≡ false → IsOk result }
    {
        // Read, so that its range is known where no step is added.
        let _count = steps.count();
        let packet = match alc_packet::read(datagram) {
            Err(refusal) => return Ok(Taken::Refused(refusal)),
            Ok(Datagram::Control { tsi, close }) => return Ok(self.taken_control(tsi, close)),
            Ok(Datagram::Symbol(packet)) => packet,
        };
        if packet.tsi != self.tsi {
            return Ok(Taken::Elsewhere { tsi: packet.tsi });
        }
        let kept = self.keep(&packet, steps)?;
        Ok(Taken::Packet {
            toi: packet.toi,
            sbn: packet.sbn,
            esi: packet.esi,
            kept,
        })
    }

    /// What a control of this session is.
    fn taken_control(&self, tsi: u64, close: bool) -> Taken
        ensures { result ≡ taken_control self.now.tsi tsi close }
    {
        if tsi == self.tsi {
            Taken::Control { close }
        } else {
            Taken::Elsewhere { tsi }
        }
    }

    /// Keeps a packet of the session, and counts it where it is over the budget.
    fn keep<L>(&mut self, packet: &Packet<'_>, steps: &mut Steps<L>) -> Result<Kept, AllocError>
        requires { IsPacket packet.now }
        ensures answer { IfOk result (λ k. k ≡ verdict self.old.budget self.old.held packet.now) }
        ensures held { OnOk result (self.new.held ≡ step self.old.budget self.old.held packet.now) }
        ensures drops { IfOk result (λ k. self.new.drops ≡ drops_after self.old.drops k) }
        ensures tsi { self.new.tsi ≡ self.old.tsi }
        ensures budget { self.new.budget ≡ self.old.budget }
        ensures installed { self.new.installed ≡ self.old.installed }
        ensures settled { self.new.settled ≡ self.old.settled }
        ensures count { OnOk result (steps.new.count ≡ min (steps.old.count + row_steps self.old.budget self.old.held packet.now) (2 ^ 64 - 1)) }
        ensures ledger { steps.new.ledger ≡ steps.old.ledger }
        ensures err { OnErr result (self.new ≡ self.old) }
        ensures uncounted { OnErr result (steps.new.count ≡ steps.old.count) }
        ensures no_memory { is_new (verdict self.old.budget self.old.held packet.now) ≡ false → IsOk result }
    {
        // Its contract says what holds of the store.
        let _listed = self.store.ready();
        let kept = self.store.keep(packet, steps)?;
        self.drops = drops_after(self.drops, &kept);
        Ok(kept)
    }

    /// Makes the best instance of what is whole the installed one. The answer is its number where it isn't the one
    /// that was installed, and none where it is. An error says that there was no memory, and then nothing has changed.
    ///
    /// It takes memory only where an object has become ready since it answered last, and else it does nothing.
    pub fn settle(&mut self) -> Result<Option<u32>, AllocError>
        ensures best { OnOk result (self.new.installed ≡ best self.old.held) }
        ensures answer { IfOk result (λ n. Announces n self.old.installed (best self.old.held)) }
        ensures settled { OnOk result ((t : ℕ) → is_in t self.new.settled ≡ is_some (whole self.old.held t)) }
        ensures tsi { self.new.tsi ≡ self.old.tsi }
        ensures budget { self.new.budget ≡ self.old.budget }
        ensures held { self.new.held ≡ self.old.held }
        ensures drops { self.new.drops ≡ self.old.drops }
        ensures err { OnErr result (self.new ≡ self.old) }
        ensures no_memory { ((t : ℕ) → is_some (whole self.old.held t) ≡ true → is_in t self.old.settled ≡ true) → IsOk result }
    {
        let count = self.store.ready().len();
        if self.settled == count {
            return Ok(None);
        }
        match find(
            self.alloc,
            &self.store,
            self.settled,
            self.lost,
            &self.installed,
            &mut self.standings,
            &mut self.waiting,
        ) {
            Ok(found) => {
                self.lost = false;
                self.settled = count;
                let number = install(&mut self.installed, found);
                self.let_beaten_go();
                Ok(number)
            }
            Err(error) => {
                self.lost = true;
                Err(error)
            }
        }
    }

    /// Lets those candidates go that what is installed beats, where that is worth its cost. Where there is no memory for
    /// it all candidates are let go, and the next settling that has something to read reads all ready objects again.
    fn let_beaten_go(&mut self)
        ensures { self.new ≡ self.old }
    {
        if !self.swept.is_due(self.settled) {
            return;
        }
        match sweep(self.alloc, &self.installed, self.settled, &mut self.waiting) {
            Ok(swept) => self.swept = swept,
            Err(_) => {
                self.waiting.clear();
                self.lost = true;
            }
        }
    }

    /// The installed instance, where there is one.
    pub fn installed(&self) -> Option<&Instance>
        ensures { option_map (λ i. i.now) result ≡ self.now.installed }
    {
        self.installed.as_ref()
    }

    /// How far the receiver is with an object.
    pub fn standing(&self, toi: u128) -> Standing
        ensures { result ≡ standing_of self.now.held self.now.settled toi }
    {
        if let Some(standing) = self.standings.get(&toi) {
            return *standing;
        }
        if self.store.whole(toi).is_some() {
            return Standing::Whole;
        }
        match self.store.oti(toi) {
            Some(_) => Standing::Partial,
            None => Standing::Unknown,
        }
    }

    /// What is held.
    pub fn store(&self) -> &Store
        ensures held { result.now.held ≡ self.now.held }
        ensures budget { result.now.budget ≡ self.now.budget }
    {
        &self.store
    }

    /// How many packets were over the budget; the count stands still at the end of its type.
    pub fn drops(&self) -> u64
        ensures { result ≡ self.now.drops }
    {
        self.drops
    }
}

/// The count of packets over the budget, with this one.
fn drops_after(drops: u64, kept: &Kept) -> u64
    ensures { result ≡ drops_after drops kept.now }
{
    match kept {
        Kept::OverBudget { .. } => drops.saturating_add(1),
        _ => drops,
    }
}
