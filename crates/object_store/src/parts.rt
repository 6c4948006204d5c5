//! The open blocks of an object.
ghost use Rattle.std.specs.Prelude.{◌≡◌, ◌+◌, ◌-◌, ◌^◌, true, false, min, is_some, Some, IfOk, OnOk, OnErr};
ghost use Rattle.std.specs.Ordering.{nat_cmp};
ghost use Rattle.std.specs.BTreeMap.{get, Updates};
ghost use Rattle.object_store.specs.Inner.BlockHeld.{is_full, solving_steps};
ghost use Rattle.object_store.specs.Inner.ObjectParts.{part_at, part_with, MayJoin};

use crate::block::Block;
use alc_packet::Packet;
use rs_solve::Steps;
use std::alloc::{AllocError, Global};
use std::collections::BTreeMap;
use std::collections::btree_map::Entry;

/// Adds a packet's symbol to its block, which it may open, and says whether the block is ready.
///
/// # Errors
/// `AllocError`; then nothing has changed.
pub fn add_to_part<L>(
    parts: &mut BTreeMap<u32, Block>,
    alloc: Global,
    packet: &Packet<'_>,
    steps: &mut Steps<L>,
) -> Result<bool, AllocError>
    requires { MayJoin (part_at parts.old packet.now) packet.now }
    ensures ok { OnOk result (Updates nat_cmp parts.old parts.new packet.now.sbn (Some (part_with parts.old packet.now))) }
    ensures err { OnErr result (parts.new.entries ≡ parts.old.entries) }
    ensures full { IfOk result (λ f. f ≡ is_full (part_with parts.old packet.now)) }
    ensures count { OnOk result (steps.new.count ≡ min (steps.old.count + solving_steps (part_with parts.old packet.now)) (2 ^ 64 - 1)) }
    ensures ledger { steps.new.ledger ≡ steps.old.ledger }
    ensures uncounted { OnErr result (steps.new.count ≡ steps.old.count) }
{
    if parts.contains_key(&packet.sbn) {
        grow(parts, packet, steps)
    } else {
        open(parts, alloc, packet, steps)
    }
}

/// Adds a symbol to a block that is open.
fn grow<L>(
    parts: &mut BTreeMap<u32, Block>,
    packet: &Packet<'_>,
    steps: &mut Steps<L>,
) -> Result<bool, AllocError>
    requires open { is_some (get nat_cmp parts.old packet.now.sbn) ≡ true }
    requires joins { MayJoin (part_at parts.old packet.now) packet.now }
    ensures ok { OnOk result (Updates nat_cmp parts.old parts.new packet.now.sbn (Some (part_with parts.old packet.now))) }
    ensures err { OnErr result (parts.new.entries ≡ parts.old.entries) }
    ensures full { IfOk result (λ f. f ≡ is_full (part_with parts.old packet.now)) }
    ensures count { OnOk result (steps.new.count ≡ min (steps.old.count + solving_steps (part_with parts.old packet.now)) (2 ^ 64 - 1)) }
    ensures ledger { steps.new.ledger ≡ steps.old.ledger }
    ensures uncounted { OnErr result (steps.new.count ≡ steps.old.count) }
{
    let Some(block) = parts.get_mut(&packet.sbn) else {
        return Ok(false);
    };
    block.add(packet.esi, packet.symbol, steps)?;
    Ok(block.is_full())
}

/// Opens a block with its first symbol. The tree's room is taken before the block is solved.
fn open<L>(
    parts: &mut BTreeMap<u32, Block>,
    alloc: Global,
    packet: &Packet<'_>,
    steps: &mut Steps<L>,
) -> Result<bool, AllocError>
    requires closed { is_some (get nat_cmp parts.old packet.now.sbn) ≡ false }
    requires joins { MayJoin (part_at parts.old packet.now) packet.now }
    ensures ok { OnOk result (Updates nat_cmp parts.old parts.new packet.now.sbn (Some (part_with parts.old packet.now))) }
    ensures err { OnErr result (parts.new.entries ≡ parts.old.entries) }
    ensures full { IfOk result (λ f. f ≡ is_full (part_with parts.old packet.now)) }
    ensures count { OnOk result (steps.new.count ≡ min (steps.old.count + solving_steps (part_with parts.old packet.now)) (2 ^ 64 - 1)) }
    ensures ledger { steps.new.ledger ≡ steps.old.ledger }
    ensures uncounted { OnErr result (steps.new.count ≡ steps.old.count) }
{
    let oti = &packet.oti;
    let (k, n) = (oti.block_k(packet.sbn), oti.block_n(packet.sbn));
    let Entry::Vacant(place) = parts.entry(packet.sbn)? else {
        return Ok(false);
    };
    let mut block = Block::new(alloc, k, n, oti.symbol());
    block.add(packet.esi, packet.symbol, steps)?;
    let full = block.is_full();
    place.insert(block);
    Ok(full)
}
