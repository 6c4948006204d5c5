//! An object of which symbols are held.
ghost use Rattle.std.specs.Prelude.{◌≡◌, ◌≤◌, ◌+◌, ◌-◌, ◌*◌, ◌^◌, [], false, true, min, nat_lt, length, if◌then◌else◌, vec_capacity, IfOk, IfNone, IfSome, OnOk, OnErr};
ghost use Rattle.oti_blocks.specs.Partition.{IsSound, blocks, sources, size_at, length_of, symbol_of};
ghost use Rattle.alc_packet.specs.Packet.{IsPacket};
ghost use Rattle.object_store.specs.Inner.ObjectHeld.{new_object, symbols_in, is_block_done, is_done, with_packet, steps_at, finding_at, Joins, AreRowsBelow, IsWholeOf};
ghost use Rattle.object_store.specs.Inner.ObjectParts.{object_of, ready_object, AreShaped, AreWithin};

use crate::block::Block;
use crate::finding::Finding;
use crate::parts::add_to_part;
use crate::ready::{find_joined, join, reserve_when};
use alc_packet::Packet;
use oti_blocks::Oti;
use rs_solve::Steps;
use std::alloc::{AllocError, Global};
use std::collections::BTreeMap;
use std::marker::Model;

/// An object: its blocks of which a symbol is held, and how many of all its blocks have fewer than k symbols. Once
/// none has, the object keeps no blocks, but the places and the source rows of all of them, one block after another.
#[derive(Drop)]
pub struct Object {
    oti: Oti,
    parts: BTreeMap<u32, Block>,
    waiting: u32,
    places: Vec<u8>,
    bytes: Vec<u8>,
}

impl Model for Object {
    ghost use Rattle.object_store.specs.Inner.ObjectHeld.{ObjectHeld};
    ghost use Rattle.object_store.specs.Inner.ObjectParts.{object_seen, IsObject};
    ghost use Rattle.object_store.specs.Inner.Codes.{object_code};

    ghost Value = { ObjectHeld };

    ghost coded = { object_code };

    ghost view = { λ a. object_seen a.oti a.parts a.waiting a.places.items a.bytes.items };

    ghost invariant = { λ a. IsObject (object_seen a.oti a.parts a.waiting a.places.items a.bytes.items) a.waiting a.places.items a.bytes.items a.parts };
}

/// What a symbol made ready: its block, its object.
#[derive(Clone, Copy)]
pub struct Completed {
    pub block: bool,
    pub object: bool,
}

impl Object {
    /// An object of which nothing is held.
    pub fn new(alloc: Global, oti: Oti) -> Object
        ensures { result ≡ new_object oti }
    {
        Object {
            oti,
            parts: BTreeMap::new(alloc),
            waiting: oti.blocks(),
            places: Vec::new(alloc),
            bytes: Vec::new(alloc),
        }
    }

    /// Its transmission information.
    pub fn oti(&self) -> Oti
        ensures { result ≡ self.now.oti }
    {
        self.oti
    }

    /// How many symbols of a block are held.
    pub fn held(&self, sbn: u32) -> u8
        ensures { result ≡ symbols_in self.now sbn }
    {
        if self.waiting == 0 {
            return size_of(&self.oti, sbn);
        }
        match self.parts.get(&sbn) {
            Some(block) => block.len(),
            None => 0,
        }
    }

    /// What a packet of the object meets.
    pub fn find(&self, packet: &Packet<'_>) -> Finding
        requires { self.now.oti ≡ packet.now.oti }
        ensures { result ≡ finding_at self.now packet.now }
    {
        if self.waiting == 0 {
            return find_joined(packet, self.places.as_slice(), self.bytes.as_slice());
        }
        match self.parts.get(&packet.sbn) {
            Some(block) => block.find(packet.esi, packet.symbol),
            None => Finding::Wanting(0),
        }
    }

    /// The object's bytes, once it is ready.
    pub fn whole(&self) -> Option<&[u8]>
        ensures waits { IfNone result (is_done self.now ≡ false) }
        ensures whole { IfSome result (λ b. IsWholeOf self.now b.now) }
    {
        if self.waiting == 0 {
            Some(&self.bytes.as_slice()[..length(&self.oti)])
        } else {
            None
        }
    }

    /// Holds one more symbol. All memory is taken before the block is solved.
    ///
    /// # Errors
    /// `AllocError`; then nothing has changed.
    pub fn add<L>(
        &mut self,
        packet: &Packet<'_>,
        steps: &mut Steps<L>,
    ) -> Result<Completed, AllocError>
        requires { Joins self.old packet.now }
        ensures ok { OnOk result (self.new ≡ with_packet self.old packet.now) }
        ensures err { OnErr result (self.new ≡ self.old) }
        ensures block { IfOk result (λ d. d.block ≡ is_block_done (with_packet self.old packet.now) packet.now.sbn) }
        ensures object { IfOk result (λ d. d.object ≡ is_done (with_packet self.old packet.now)) }
        ensures count { OnOk result (steps.new.count ≡ min (steps.old.count + steps_at (with_packet self.old packet.now) packet.now.sbn) (2 ^ 64 - 1)) }
        ensures ledger { steps.new.ledger ≡ steps.old.ledger }
        ensures uncounted { OnErr result (steps.new.count ≡ steps.old.count) }
    {
        let object = self.completes(packet);
        reserve_when(object, &self.oti, &mut self.places, &mut self.bytes)?;
        let block = add_to_part(&mut self.parts, *self.bytes.allocator(), packet, steps)?;
        self.waiting = fewer(self.waiting, block);
        join_when(
            object,
            &mut self.parts,
            &self.oti,
            &mut self.places,
            &mut self.bytes,
        );
        Ok(Completed { block, object })
    }

    /// Says whether the object is ready with this symbol.
    fn completes(&self, packet: &Packet<'_>) -> bool
        requires { Joins self.now packet.now }
        ensures ready { result ≡ is_done (with_packet self.now packet.now) }
        ensures sound { IsPacket packet.now }
    {
        if self.waiting == 1 {
            self.held(packet.sbn) + 1 == packet.oti.block_k(packet.sbn)
        } else {
            false
        }
    }
}

/// How many source symbols a block has, if it is one of the object.
fn size_of(oti: &Oti, sbn: u32) -> u8
    ensures { result ≡ (if nat_lt sbn (blocks oti.now) then size_at oti.now sbn else 0) }
{
    if sbn < oti.blocks() {
        oti.block_k(sbn)
    } else {
        0
    }
}

/// The object's length.
fn length(oti: &Oti) -> usize
    ensures value { result ≡ length_of oti.now }
    ensures within { result ≤ sources oti.now * symbol_of oti.now }
    ensures sound { IsSound oti.now }
{
    oti.length() as usize
}

/// One fewer, if the block is ready.
fn fewer(waiting: u32, block: bool) -> u32
    requires { block ≡ true → 1 ≤ waiting }
    ensures { result + (if block then 1 else 0) ≡ waiting }
{
    if block { waiting - 1 } else { waiting }
}

/// Joins all blocks and lets go of them, if the object is ready.
fn join_when(
    object: bool,
    parts: &mut BTreeMap<u32, Block>,
    oti: &Oti,
    places: &mut Vec<u8>,
    bytes: &mut Vec<u8>,
)
    requires shaped { AreShaped (object_of oti.now parts.old) }
    requires within { AreWithin (object_of oti.now parts.old) }
    requires done { object ≡ is_done (object_of oti.now parts.old) }
    requires none_placed { object ≡ true → places.old.items ≡ [] }
    requires none_joined { object ≡ true → bytes.old.items ≡ [] }
    requires room_placed { object ≡ true → sources oti.now ≤ vec_capacity places.old }
    requires room_joined { object ≡ true → sources oti.now * symbol_of oti.now ≤ vec_capacity bytes.old }
    ensures same_parts { object ≡ false → parts.new.entries ≡ parts.old.entries }
    ensures same_places { object ≡ false → places.new.items ≡ places.old.items }
    ensures same_bytes { object ≡ false → bytes.new.items ≡ bytes.old.items }
    ensures parts { object ≡ true → ready_object oti.now places.new.items bytes.new.items ≡ object_of oti.now parts.old }
    ensures placed { object ≡ true → length places.new.items ≡ sources oti.now }
    ensures joined { object ≡ true → AreRowsBelow (object_of oti.now parts.old) (blocks oti.now) bytes.new.items }
    ensures released { object ≡ true → parts.new.entries ≡ [] }
{
    if object {
        join(parts, oti, places, bytes);
        *parts = BTreeMap::new(*bytes.allocator());
    }
}
