//! The verdict on a packet.
use oti_blocks::Oti;

/// What became of a packet: the first of these that applies, from the bottom up to `New`.
#[derive(Clone, Copy, PartialEq, Eq, Debug)]
pub enum Kept {
    /// The symbol is held from now on. `block_done`: it is its source block's k-th, so that the block is
    /// solved. `object_done`: its object is ready now.
    New { block_done: bool, object_done: bool },
    /// The symbol is held already.
    Repeat,
    /// Its source block has k other symbols.
    Spare,
    /// Its object is held under this other transmission information.
    OtiDiffers(Oti),
    /// Another symbol is held at its place; `at` is the first byte that differs, zero fill counted.
    SymbolDiffers { at: u16 },
    /// It would bring the byte count above the budget: the count, and what it would add.
    OverBudget { count: u64, charge: u64 },
}
