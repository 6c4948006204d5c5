//! The store.
ghost use Rattle.std.specs.Prelude.{◌≡◌, ◌≢◌, ◌≤◌, ◌<◌, ◌+◌, ◌-◌, ◌^◌, ◌++◌, ◌∷◌, [], false, true};
ghost use Rattle.std.specs.Prelude.{min, Some, None, Ok, if◌then◌else◌, vec_len, vec_capacity, IfOk, OnOk, OnErr, IsOk, option_map};
ghost use Rattle.std.specs.FinMap.{get};
ghost use Rattle.alc_packet.specs.Packet.{IsPacket};
ghost use Rattle.held_packets.specs.Held.{nothing_held, joined};
ghost use Rattle.held_packets.specs.Count.{byte_count, charge};
ghost use Rattle.held_packets.specs.Verdict.{verdict, step, is_new, row_steps};
ghost use Rattle.held_packets.specs.Whole.{whole};
ghost use Rattle.held_packets.specs.HeldPair.{IsHeldPair};
ghost use Rattle.object_store.specs.Store.{Store, IsListed, ready_with, held_in_block};
ghost use Rattle.object_store.specs.Inner.Judged.{by_budget, by_finding, judged_in, IsJudged};

use crate::finding::Finding;
use crate::judgement::Judgement;
use crate::object::Object;
use crate::objects::add_to_object;
use alc_packet::Packet;
use held_packets::Kept;
use oti_blocks::Oti;
use rs_solve::Steps;
use std::alloc::{AllocError, Global};
use std::collections::BTreeMap;
use std::marker::Model;

/// The kept packets of a session: for each object its transmission information and, for each source block, the
/// first k distinct symbols. Nothing is kept for blocks that aren't open.
#[derive(Drop)]
pub struct Store {
    alloc: Global,
    budget: u64,
    count: u64,
    objects: BTreeMap<u128, Object>,
    ready: Vec<u128>,
}

impl Model for Store {
    ghost use Rattle.object_store.specs.Store.{Store};
    ghost use Rattle.object_store.specs.Inner.ObjectParts.{map_of};
    ghost use Rattle.object_store.specs.Inner.Objects.{held_of, IsStore};
    ghost use Rattle.object_store.specs.Inner.Codes.{store_code};

    ghost Value = { Store };

    ghost coded = { store_code };

    ghost view = { λ a. record { budget = a.budget; held = held_of (map_of a.objects); ready = a.ready.items } };

    ghost invariant = { λ a. IsStore a.budget a.count (held_of (map_of a.objects)) a.ready.items };
}

impl Store {
    /// A store that holds nothing. `budget` bounds its byte count: 256 for an object, 64 for a source block with a
    /// symbol, and the symbol length for each symbol.
    pub fn start(alloc: Global, budget: u64) -> Result<Store, AllocError>
        requires least { 4096 ≤ budget }
        requires most { budget ≤ 2 ^ 30 }
        ensures { IfOk result (λ s. s ≡ record { budget = budget; held = nothing_held; ready = [] }) }
    {
        Ok(Store {
            alloc,
            budget,
            count: 0,
            objects: BTreeMap::new(alloc),
            ready: Vec::new(alloc),
        })
    }

    /// Keeps a packet where its verdict is `New`, and says what became of it. Only `New` takes memory, all of it
    /// before the block is solved; an error says that there was none, and then nothing has changed.
    ///
    /// Row steps are added exactly where the packet is its block's k-th: one for each of the k source rows and each
    /// source symbol that isn't held.
    pub fn keep<L>(&mut self, packet: &Packet<'_>, steps: &mut Steps<L>) -> Result<Kept, AllocError>
        ensures answer { IfOk result (λ k. k ≡ verdict self.old.budget self.old.held packet.now) }
        ensures held { OnOk result (self.new.held ≡ step self.old.budget self.old.held packet.now) }
        ensures ready { IfOk result (λ k. self.new.ready ≡ ready_with self.old.ready packet.now k) }
        ensures budget { self.new.budget ≡ self.old.budget }
        ensures count { OnOk result (steps.new.count ≡ min (steps.old.count + row_steps self.old.budget self.old.held packet.now) (2 ^ 64 - 1)) }
        ensures ledger { steps.new.ledger ≡ steps.old.ledger }
        ensures err { OnErr result (self.new ≡ self.old) }
        ensures uncounted { OnErr result (steps.new.count ≡ steps.old.count) }
        ensures no_memory { is_new (verdict self.old.budget self.old.held packet.now) ≡ false → IsOk result }
    {
        match self.judge(packet) {
            Judgement::Joins(added) => self.join(packet, added, steps),
            Judgement::Stays(kept) => stay(kept, steps),
        }
    }

    /// Whether the packet joins.
    fn judge(&self, packet: &Packet<'_>) -> Judgement
        ensures { IsJudged (verdict self.now.budget self.now.held packet.now) (charge self.now.held packet.now) result }
    {
        match self.objects.get(&packet.toi) {
            Some(object) => judge_found(object, self.budget, self.count, packet),
            None => by_finding(self.budget, self.count, 256, packet, Finding::Wanting(0)),
        }
    }

    /// Keeps a packet whose verdict is New.
    fn join<L>(
        &mut self,
        packet: &Packet<'_>,
        added: u64,
        steps: &mut Steps<L>,
    ) -> Result<Kept, AllocError>
        requires new { is_new (verdict self.old.budget self.old.held packet.now) ≡ true }
        requires added { added ≡ charge self.old.held packet.now }
        ensures answer { IfOk result (λ k. k ≡ verdict self.old.budget self.old.held packet.now) }
        ensures held { OnOk result (self.new.held ≡ joined self.old.held packet.now) }
        ensures ready { IfOk result (λ k. self.new.ready ≡ ready_with self.old.ready packet.now k) }
        ensures budget { self.new.budget ≡ self.old.budget }
        ensures count { OnOk result (steps.new.count ≡ min (steps.old.count + row_steps self.old.budget self.old.held packet.now) (2 ^ 64 - 1)) }
        ensures ledger { steps.new.ledger ≡ steps.old.ledger }
        ensures err { OnErr result (self.new ≡ self.old) }
        ensures uncounted { OnErr result (steps.new.count ≡ steps.old.count) }
    {
        let toi = identifier(packet);
        self.ready.reserve(1)?;
        let completed = add_to_object(&mut self.objects, self.alloc, packet, steps)?;
        self.count += added;
        push_when(completed.object, &mut self.ready, toi);
        Ok(Kept::New {
            block_done: completed.block,
            object_done: completed.object,
        })
    }

    /// The bytes of the object, exactly where it is ready.
    pub fn whole(&self, toi: u128) -> Option<&[u8]>
        ensures { option_map (λ b. b.now) result ≡ whole self.now.held toi }
    {
        match self.objects.get(&toi) {
            Some(object) => object.whole(),
            None => None,
        }
    }

    /// The object's transmission information, where it is held.
    pub fn oti(&self, toi: u128) -> Option<Oti>
        ensures { result ≡ get self.now.held.objects toi }
    {
        match self.objects.get(&toi) {
            Some(object) => Some(object.oti()),
            None => None,
        }
    }

    /// How many distinct symbols of the source block are held.
    pub fn held(&self, toi: u128, sbn: u32) -> u8
        ensures { result ≡ held_in_block self.now.held toi sbn (get self.now.held.objects toi) }
    {
        match self.objects.get(&toi) {
            Some(object) => object.held(sbn),
            None => 0,
        }
    }

    /// The byte count of what is held, at most the budget.
    pub fn count(&self) -> u64
        ensures count { result ≡ byte_count self.now.held }
        ensures within { result ≤ self.now.budget }
    {
        self.count
    }

    /// The budget in bytes.
    pub fn budget(&self) -> u64
        ensures { result ≡ self.now.budget }
    {
        self.budget
    }

    /// The ready objects in the order in which they became ready.
    pub fn ready(&self) -> &[u128]
        ensures ready { result.now ≡ self.now.ready }
        ensures listed { IsListed self.now.held self.now.ready }
        ensures pair { IsHeldPair self.now.held }
    {
        self.ready.as_slice()
    }
}

/// The judgement of a packet whose object is held.
fn judge_found(object: &Object, budget: u64, count: u64, packet: &Packet<'_>) -> Judgement
    requires budget { budget ≤ 2 ^ 30 }
    requires count { count ≤ budget }
    ensures { result ≡ judged_in budget count object.now packet.now }
{
    let oti = object.oti();
    if oti == packet.oti {
        by_finding(budget, count, 0, packet, object.find(packet))
    } else {
        Judgement::Stays(Kept::OtiDiffers(oti))
    }
}

/// The judgement from what the packet meets in its object. `opening` is what the object's own entry adds.
fn by_finding(
    budget: u64,
    count: u64,
    opening: u64,
    packet: &Packet<'_>,
    finding: Finding,
) -> Judgement
    requires budget { budget ≤ 2 ^ 30 }
    requires count { count ≤ budget }
    requires opening { opening ≤ 256 }
    ensures { result ≡ by_finding budget count opening packet.now finding }
{
    match finding {
        Finding::Same => Judgement::Stays(Kept::Repeat),
        Finding::Differs(at) => Judgement::Stays(Kept::SymbolDiffers { at }),
        Finding::Full => Judgement::Stays(Kept::Spare),
        Finding::Wanting(held) => {
            let block = if held == 0 { 64 } else { 0 };
            by_budget(
                budget,
                count,
                opening + block + u64::from(packet.oti.symbol()),
            )
        }
    }
}

/// Joins within the budget.
fn by_budget(budget: u64, count: u64, charge: u64) -> Judgement
    requires { count + charge < 2 ^ 64 }
    ensures { result ≡ by_budget budget count charge }
{
    if budget < count + charge {
        Judgement::Stays(Kept::OverBudget { count, charge })
    } else {
        Judgement::Joins(charge)
    }
}

/// The answer of a packet that doesn't join. Nothing is counted.
fn stay<L>(kept: Kept, steps: &mut Steps<L>) -> Result<Kept, AllocError>
    ensures answer { result ≡ Ok kept }
    ensures count { steps.new.count ≡ min (steps.old.count + 0) (2 ^ 64 - 1) }
    ensures ledger { steps.new.ledger ≡ steps.old.ledger }
{
    let _count = steps.count();
    Ok(kept)
}

/// The packet's object.
fn identifier(packet: &Packet<'_>) -> u128
    ensures value { result ≡ packet.now.toi }
    ensures sound { IsPacket packet.now }
{
    packet.toi
}

/// Adds a ready object, in the room that was taken for it.
fn push_when(object: bool, ready: &mut Vec<u128>, toi: u128)
    requires { vec_len ready.old < vec_capacity ready.old }
    ensures { ready.new.items ≡ (if object then ready.old.items ++ toi ∷ [] else ready.old.items) }
{
    if object {
        let Ok(()) = ready.push(toi) else {
            unreachable!()
        };
    }
}
