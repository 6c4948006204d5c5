//! What is wrong with stated transmission information.

/// Why values are no transmission information: the first of these that holds.
#[derive(Clone, Copy, Debug, PartialEq, Eq)]
pub enum OtiFault {
    /// The content of the extension has this many bytes and not ten.
    FtiLength { length: u64 },
    /// A symbol has no bytes.
    ZeroSymbol,
    /// A block may have no source symbol.
    ZeroBlock,
    /// A block may have fewer encoding symbols than source symbols.
    MaxN,
    /// The object has fewer than eight bytes.
    ShortObject,
    /// The object has more than 2^24 blocks.
    TooManyBlocks,
}
