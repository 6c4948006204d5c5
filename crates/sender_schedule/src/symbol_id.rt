//! The identifiers of an object's encoding symbols, one after the other.

ghost use Rattle.std.specs.Prelude.{◌≡◌, ◌+◌, ◌≤◌, ◌<◌, ◌^◌, ◌∷◌, IfSome, IsTrue, IsFalse};
ghost use Rattle.oti_blocks.specs.Partition.{IsSound, blocks, encoding_at};
ghost use Rattle.sender_schedule.specs.SymbolIds.{IsSymbolId, opening, symbol_ids};
ghost use Rattle.sender_schedule.specs.Inner.Rest.{symbol_ids_from, rest_of};

use oti_blocks::Oti;

/// Which encoding symbol of its object a symbol is.
#[derive(Clone, Copy, Debug, PartialEq, Eq)]
pub struct SymbolId {
    /// The number of its block (SBN).
    pub sbn: u32,
    /// Its number in the block (ESI).
    pub esi: u8,
}

/// The first symbol of each object.
pub(crate) const FIRST: SymbolId = SymbolId { sbn: 0, esi: 0 };

/// The first symbol of an object is one of its symbols, and all of them follow from it.
#[tactic(auto, using(crate::proofs::Orders::first_symbol_id, crate::proofs::Orders::all_symbol_ids))]
pub(crate) fn first(oti: &Oti)
    ensures id { IsSymbolId oti.now opening }
    ensures all { symbol_ids oti.now ≡ symbol_ids_from oti.now opening }
{
    let _blocks = oti.blocks();
}

/// The symbol behind this one: of the same number in the next block that has it, or of the next number in block 0.
#[tactic(auto, using(crate::proofs::Orders::next_round, crate::proofs::Orders::no_round, crate::proofs::Orders::round_more))]
pub(crate) fn after(oti: &Oti, id: SymbolId) -> Option<SymbolId>
    requires { IsSymbolId oti.now id }
    ensures rest { symbol_ids_from oti.now id ≡ id ∷ rest_of oti.now result }
    ensures id { IfSome result (λ p. IsSymbolId oti.now p) }
{
    if next_block_has(oti, id) {
        return Some(SymbolId {
            sbn: id.sbn + 1,
            esi: id.esi,
        });
    }
    if u16::from(id.esi) + 1 < u16::from(oti.block_n(0)) {
        return Some(SymbolId {
            sbn: 0,
            esi: id.esi + 1,
        });
    }
    None
}

/// Whether the next block has a symbol of this number.
fn next_block_has(oti: &Oti, id: SymbolId) -> bool
    requires { IsSymbolId oti.now id }
    ensures yes { IsTrue result → IsSymbolId oti.now (record { esi = id.esi; sbn = id.sbn + 1 }) }
    ensures no { IsFalse result → id.sbn + 1 < blocks oti.now → encoding_at oti.now (id.sbn + 1) ≤ id.esi }
    ensures fits { id.sbn < 2 ^ 24 }
    ensures sound { IsSound oti.now }
{
    let blocks = oti.blocks();
    id.sbn + 1 < blocks && id.esi < oti.block_n(id.sbn + 1)
}
