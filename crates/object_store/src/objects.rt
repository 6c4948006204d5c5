//! The objects of a session.
ghost use Rattle.std.specs.Prelude.{◌≡◌, ◌+◌, ◌-◌, ◌^◌, true, false, min, is_some, Some, IfOk, OnOk, OnErr};
ghost use Rattle.std.specs.Ordering.{nat_cmp};
ghost use Rattle.std.specs.BTreeMap.{get, Updates};
ghost use Rattle.object_store.specs.Inner.ObjectHeld.{new_object, is_block_done, is_done, with_packet, steps_at, Joins};
ghost use Rattle.object_store.specs.Inner.Objects.{object_in};

use crate::object::{Completed, Object};
use alc_packet::Packet;
use rs_solve::Steps;
use std::alloc::{AllocError, Global};
use std::collections::BTreeMap;
use std::collections::btree_map::Entry;

/// Adds a packet's symbol to its object, which it may open, and says what is ready with it.
///
/// # Errors
/// `AllocError`; then nothing has changed.
pub fn add_to_object<L>(
    objects: &mut BTreeMap<u128, Object>,
    alloc: Global,
    packet: &Packet<'_>,
    steps: &mut Steps<L>,
) -> Result<Completed, AllocError>
    requires { Joins (object_in objects.old packet.now) packet.now }
    ensures ok { OnOk result (Updates nat_cmp objects.old objects.new packet.now.toi (Some (with_packet (object_in objects.old packet.now) packet.now))) }
    ensures err { OnErr result (objects.new.entries ≡ objects.old.entries) }
    ensures block { IfOk result (λ d. d.block ≡ is_block_done (with_packet (object_in objects.old packet.now) packet.now) packet.now.sbn) }
    ensures object { IfOk result (λ d. d.object ≡ is_done (with_packet (object_in objects.old packet.now) packet.now)) }
    ensures count { OnOk result (steps.new.count ≡ min (steps.old.count + steps_at (with_packet (object_in objects.old packet.now) packet.now) packet.now.sbn) (2 ^ 64 - 1)) }
    ensures ledger { steps.new.ledger ≡ steps.old.ledger }
    ensures uncounted { OnErr result (steps.new.count ≡ steps.old.count) }
{
    if objects.contains_key(&packet.toi) {
        grow(objects, packet, steps)
    } else {
        open(objects, alloc, packet, steps)
    }
}

/// Adds a symbol to an object that is held.
fn grow<L>(
    objects: &mut BTreeMap<u128, Object>,
    packet: &Packet<'_>,
    steps: &mut Steps<L>,
) -> Result<Completed, AllocError>
    requires open { is_some (get nat_cmp objects.old packet.now.toi) ≡ true }
    requires joins { Joins (object_in objects.old packet.now) packet.now }
    ensures ok { OnOk result (Updates nat_cmp objects.old objects.new packet.now.toi (Some (with_packet (object_in objects.old packet.now) packet.now))) }
    ensures err { OnErr result (objects.new.entries ≡ objects.old.entries) }
    ensures block { IfOk result (λ d. d.block ≡ is_block_done (with_packet (object_in objects.old packet.now) packet.now) packet.now.sbn) }
    ensures object { IfOk result (λ d. d.object ≡ is_done (with_packet (object_in objects.old packet.now) packet.now)) }
    ensures count { OnOk result (steps.new.count ≡ min (steps.old.count + steps_at (with_packet (object_in objects.old packet.now) packet.now) packet.now.sbn) (2 ^ 64 - 1)) }
    ensures ledger { steps.new.ledger ≡ steps.old.ledger }
    ensures uncounted { OnErr result (steps.new.count ≡ steps.old.count) }
{
    let Some(object) = objects.get_mut(&packet.toi) else {
        return Err(AllocError);
    };
    object.add(packet, steps)
}

/// Opens an object with its first symbol. The tree's room is taken before the block is solved.
fn open<L>(
    objects: &mut BTreeMap<u128, Object>,
    alloc: Global,
    packet: &Packet<'_>,
    steps: &mut Steps<L>,
) -> Result<Completed, AllocError>
    requires closed { is_some (get nat_cmp objects.old packet.now.toi) ≡ false }
    requires joins { Joins (object_in objects.old packet.now) packet.now }
    ensures ok { OnOk result (Updates nat_cmp objects.old objects.new packet.now.toi (Some (with_packet (object_in objects.old packet.now) packet.now))) }
    ensures err { OnErr result (objects.new.entries ≡ objects.old.entries) }
    ensures block { IfOk result (λ d. d.block ≡ is_block_done (with_packet (object_in objects.old packet.now) packet.now) packet.now.sbn) }
    ensures object { IfOk result (λ d. d.object ≡ is_done (with_packet (object_in objects.old packet.now) packet.now)) }
    ensures count { OnOk result (steps.new.count ≡ min (steps.old.count + steps_at (with_packet (object_in objects.old packet.now) packet.now) packet.now.sbn) (2 ^ 64 - 1)) }
    ensures ledger { steps.new.ledger ≡ steps.old.ledger }
    ensures uncounted { OnErr result (steps.new.count ≡ steps.old.count) }
{
    let Entry::Vacant(place) = objects.entry(packet.toi)? else {
        return Err(AllocError);
    };
    let (object, completed) = begun(alloc, packet, steps)?;
    place.insert(object);
    Ok(completed)
}

/// An object with its first symbol.
fn begun<L>(
    alloc: Global,
    packet: &Packet<'_>,
    steps: &mut Steps<L>,
) -> Result<(Object, Completed), AllocError>
    requires { Joins (new_object packet.now.oti) packet.now }
    ensures ok { IfOk result (λ r. r.0 ≡ with_packet (new_object packet.now.oti) packet.now) }
    ensures block { IfOk result (λ r. r.1.block ≡ is_block_done (with_packet (new_object packet.now.oti) packet.now) packet.now.sbn) }
    ensures object { IfOk result (λ r. r.1.object ≡ is_done (with_packet (new_object packet.now.oti) packet.now)) }
    ensures count { OnOk result (steps.new.count ≡ min (steps.old.count + steps_at (with_packet (new_object packet.now.oti) packet.now) packet.now.sbn) (2 ^ 64 - 1)) }
    ensures ledger { steps.new.ledger ≡ steps.old.ledger }
    ensures uncounted { OnErr result (steps.new.count ≡ steps.old.count) }
{
    let mut object = Object::new(alloc, packet.oti);
    let completed = object.add(packet, steps)?;
    Ok((object, completed))
}
