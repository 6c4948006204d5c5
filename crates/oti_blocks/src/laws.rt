//! Laws of the partition. They speak of the definitions alone.

ghost use Rattle.std.specs.Prelude.{◌≡◌, ℕ, ◌+◌, ◌<◌, ◌≤◌, length, sum};
ghost use Rattle.oti_blocks.specs.Partition.{ObjectInformation, IsSound, HasSource, sources, blocks, sizes, size_at, start_at, encoding_at, max_block_of, most_encoding};

/// There are as many sizes as blocks, at least one and no more than source symbols.
pub fn one_size_a_block()
    ensures count { (o : ObjectInformation) → IsSound o → length (sizes o) ≡ blocks o }
    ensures some { (o : ObjectInformation) → IsSound o → 1 ≤ blocks o }
    ensures within { (o : ObjectInformation) → IsSound o → blocks o ≤ sources o }
{}

/// The blocks have all source symbols.
pub fn sizes_add_up()
    ensures { (o : ObjectInformation) → IsSound o → sum (sizes o) ≡ sources o }
{}

/// A block has at least one source symbol and at most as many as stated.
pub fn sizes_are_bounded()
    ensures some { (o : ObjectInformation) → IsSound o → (b : ℕ) → b < blocks o → 1 ≤ size_at o b }
    ensures most { (o : ObjectInformation) → IsSound o → (b : ℕ) → b < blocks o → size_at o b ≤ max_block_of o }
{}

/// A block starts where the one before it ends.
pub fn blocks_follow_each_other()
    ensures { (o : ObjectInformation) → IsSound o → (b : ℕ) → b < blocks o → start_at o (b + 1) ≡ start_at o b + size_at o b }
{}

/// Each source symbol is in exactly one block.
pub fn one_block_a_source()
    ensures found { (o : ObjectInformation) → IsSound o → (s : ℕ) → s < sources o → (b : ℕ) × HasSource o b s }
    ensures alone { (o : ObjectInformation) → IsSound o → (s b c : ℕ) → HasSource o b s → HasSource o c s → c ≡ b }
{}

/// No block ends past the object: the number of each of its source symbols is below that of all.
pub fn blocks_end_within()
    ensures { (o : ObjectInformation) → IsSound o → (b : ℕ) → b < blocks o → start_at o b + size_at o b ≤ sources o }
{}

/// No block has more source symbols or more encoding symbols than one before it.
pub fn sizes_never_grow()
    ensures sources { (o : ObjectInformation) → IsSound o → (b c : ℕ) → b ≤ c → c < blocks o → size_at o c ≤ size_at o b }
    ensures encoding { (o : ObjectInformation) → IsSound o → (b c : ℕ) → b ≤ c → c < blocks o → encoding_at o c ≤ encoding_at o b }
{}

/// A block has at least its source symbols as encoding symbols, and at most as many as stated.
pub fn encoding_is_bounded()
    ensures least { (o : ObjectInformation) → IsSound o → (b : ℕ) → b < blocks o → size_at o b ≤ encoding_at o b }
    ensures most { (o : ObjectInformation) → IsSound o → (b : ℕ) → b < blocks o → encoding_at o b ≤ most_encoding o }
{}
