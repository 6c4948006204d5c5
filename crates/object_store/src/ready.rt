//! The blocks of an object that is ready: the places of each, one block after another, and so their source rows.
ghost use Rattle.std.specs.Prelude.{◌≡◌, ◌≤◌, ◌<◌, ◌+◌, ◌*◌, ◌++◌, [], true, length, take, drop, vec_capacity, OnOk};
ghost use Rattle.oti_blocks.specs.Partition.{IsSound, blocks, sources, size_at, start_at, symbol_of};
ghost use Rattle.object_store.specs.Inner.ObjectHeld.{is_done, finding_at, AreRowsBelow};
ghost use Rattle.object_store.specs.Inner.ObjectParts.{object_of, ready_object, AreShaped, AreJoinedBelow};

use crate::block::{Block, position};
use crate::difference::{compared, symbol_difference};
use crate::finding::Finding;
use alc_packet::Packet;
use oti_blocks::Oti;
use std::alloc::AllocError;
use std::collections::BTreeMap;

/// Takes the room for all places and all source rows, if the object is ready.
pub fn reserve_when(
    object: bool,
    oti: &Oti,
    places: &mut Vec<u8>,
    bytes: &mut Vec<u8>,
) -> Result<(), AllocError>
    ensures places { places.new.items ≡ places.old.items }
    ensures bytes { bytes.new.items ≡ bytes.old.items }
    ensures room_placed { OnOk result (object ≡ true → places.old.items ≡ [] → sources oti.now ≤ vec_capacity places.new) }
    ensures room_joined { OnOk result (object ≡ true → bytes.old.items ≡ [] → sources oti.now * symbol_of oti.now ≤ vec_capacity bytes.new) }
{
    if object {
        places.reserve(oti.sources() as usize)?;
        bytes.reserve(row_bytes(oti))?;
    }
    Ok(())
}

/// The bytes of all source rows, zero fill counted.
fn row_bytes(oti: &Oti) -> usize
    ensures { result ≡ sources oti.now * symbol_of oti.now }
{
    oti.sources() as usize * usize::from(oti.symbol())
}

/// Joins all blocks, each of which has k symbols, in the room that was taken for them.
pub fn join(parts: &BTreeMap<u32, Block>, oti: &Oti, places: &mut Vec<u8>, bytes: &mut Vec<u8>)
    requires shaped { AreShaped (object_of oti.now parts.now) }
    requires done { is_done (object_of oti.now parts.now) ≡ true }
    requires none_placed { places.old.items ≡ [] }
    requires none_joined { bytes.old.items ≡ [] }
    requires room_placed { sources oti.now ≤ vec_capacity places.old }
    requires room_joined { sources oti.now * symbol_of oti.now ≤ vec_capacity bytes.old }
    ensures joined { AreJoinedBelow (object_of oti.now parts.now) (blocks oti.now) places.new.items bytes.new.items }
    ensures rows { AreRowsBelow (object_of oti.now parts.now) (blocks oti.now) bytes.new.items }
    ensures sound { IsSound oti.now }
{
    for sbn in 0..oti.blocks() {
        match parts.get(&sbn) {
            Some(block) => {
                let (held, source) = block.solved();
                append_within(places, held);
                append_within(bytes, source);
            }
            None => {}
        }
    }
}

/// Appends where there is room.
fn append_within(bytes: &mut Vec<u8>, more: &[u8])
    requires { length bytes.old.items + length more.now ≤ vec_capacity bytes.old }
    ensures items { bytes.new.items ≡ bytes.old.items ++ more.now }
    ensures room { vec_capacity bytes.old ≤ vec_capacity bytes.new }
{
    let Ok(()) = bytes.extend_from_slice(more) else {
        unreachable!()
    };
}

/// What a packet meets in its object, which is ready.
pub fn find_joined(packet: &Packet<'_>, places: &[u8], bytes: &[u8]) -> Finding
    requires done { is_done (ready_object packet.now.oti places.now bytes.now) ≡ true }
    requires places { length places.now ≡ sources packet.now.oti }
    requires bytes { length bytes.now ≡ sources packet.now.oti * symbol_of packet.now.oti }
    ensures { result ≡ finding_at (ready_object packet.now.oti places.now bytes.now) packet.now }
{
    let oti = &packet.oti;
    match position(of_block(oti, packet.sbn, 1, places), packet.esi) {
        Some(_) => {
            let source = of_block(oti, packet.sbn, usize::from(oti.symbol()), bytes);
            let k = oti.block_k(packet.sbn);
            compared(symbol_difference(k, oti.symbol(), source, packet.esi, packet.symbol))
        }
        None => Finding::Full,
    }
}

/// What one block has of a list with so many bytes for each source symbol of the object.
fn of_block<'a>(oti: &Oti, sbn: u32, width: usize, all: &'a [u8]) -> &'a [u8]
    requires sound { IsSound oti.now }
    requires block { sbn < blocks oti.now }
    requires all { length all.now ≡ sources oti.now * width }
    ensures part { result.now ≡ take (size_at oti.now sbn * width) (drop (start_at oti.now sbn * width) all.now) }
    ensures long { length result.now ≡ size_at oti.now sbn * width }
{
    let start = oti.block_start(sbn) as usize * width;
    &all[start..start + usize::from(oti.block_k(sbn)) * width]
}
