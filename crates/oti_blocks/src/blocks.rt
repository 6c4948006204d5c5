//! The source symbols and the blocks of an object (RFC 5052, section 9.1).

ghost use Rattle.std.specs.Prelude.{◌≡◌, ◌^◌, ◌<◌, ◌≤◌, Some, slice_get};
ghost use Rattle.oti_blocks.specs.Partition.{IsSound, sources, blocks, large, small, large_count, sizes, size_at, start_at, encoding_at, last_length, symbol_of, max_block_of, most_encoding};

use crate::information::Oti;

impl Oti {
    /// The source symbols of the object, at least one.
    #[tactic(auto, unfolding(crate::specs::Partition::sources))]
    pub fn sources(&self) -> u64
        ensures value { result ≡ sources self.now }
        ensures some { 1 ≤ result }
        ensures fits { result < 2 ^ 48 }
        ensures sound { IsSound self.now }
    {
        self.length().div_ceil(u64::from(self.symbol()))
    }

    /// The blocks of the object, at least one.
    #[tactic(auto, unfolding(crate::specs::Partition::blocks))]
    pub fn blocks(&self) -> u32
        ensures value { result ≡ blocks self.now }
        ensures some { 1 ≤ result }
        ensures few { result ≤ 2 ^ 24 }
        ensures sound { IsSound self.now }
    {
        self.sources().div_ceil(u64::from(self.max_block())) as u32
    }

    /// The bytes of the last source symbol that are bytes of the object, from 1 to `symbol`.
    #[tactic(auto, unfolding(crate::specs::Partition::last_length))]
    pub fn last_length(&self) -> u16
        ensures value { result ≡ last_length self.now }
        ensures some { 1 ≤ result }
        ensures most { result ≤ symbol_of self.now }
    {
        let whole = (self.sources() - 1) * u64::from(self.symbol());
        (self.length() - whole) as u16
    }

    /// The source symbols of block `b`.
    pub fn block_k(&self, b: u32) -> u8
        requires { b < blocks self.now }
        ensures size { slice_get (sizes self.now) b ≡ Some result }
        ensures value { result ≡ size_at self.now b }
        ensures some { 1 ≤ result }
        ensures most { result ≤ max_block_of self.now }
    {
        if u64::from(b) < self.large_count() {
            self.large() as u8
        } else {
            self.small() as u8
        }
    }

    /// The encoding symbols of block `b`: its source symbols and its repair symbols.
    pub fn block_n(&self, b: u32) -> u8
        requires { b < blocks self.now }
        ensures value { result ≡ encoding_at self.now b }
        ensures least { size_at self.now b ≤ result }
        ensures most { result ≤ most_encoding self.now }
    {
        self.encoding_count(self.block_k(b))
    }

    /// The first source symbol of block `b`, counted from 0 over the whole object.
    pub fn block_start(&self, b: u32) -> u64
        requires { b < blocks self.now }
        ensures { result ≡ start_at self.now b }
    {
        let b = u64::from(b);
        let large_count = self.large_count();
        if b <= large_count {
            b * self.large()
        } else {
            large_count * self.large() + (b - large_count) * self.small()
        }
    }

    /// The source symbols of a larger block.
    #[tactic(auto, unfolding(crate::specs::Partition::large))]
    fn large(&self) -> u64
        ensures value { result ≡ large self.now }
        ensures sound { IsSound self.now }
    {
        self.sources().div_ceil(u64::from(self.blocks()))
    }

    /// The source symbols of a smaller block.
    #[tactic(auto, unfolding(crate::specs::Partition::small))]
    fn small(&self) -> u64
        ensures value { result ≡ small self.now }
        ensures sound { IsSound self.now }
    {
        self.sources() / u64::from(self.blocks())
    }

    /// How many blocks are larger ones. They stand first.
    #[tactic(auto, unfolding(crate::specs::Partition::large_count))]
    fn large_count(&self) -> u64
        ensures value { result ≡ large_count self.now }
        ensures sound { IsSound self.now }
    {
        self.sources() - self.small() * u64::from(self.blocks())
    }
}
