//! What a symbol meets in its block.

/// What a symbol finds at its place, and in its block.
#[derive(Clone, Copy, PartialEq, Eq, Debug)]
pub enum Finding {
    /// This very symbol.
    Same,
    /// Another symbol, which differs in this byte first.
    Differs(u16),
    /// Nothing, and the block has k symbols.
    Full,
    /// Nothing, and the block has so many symbols, fewer than k.
    Wanting(u8),
}
