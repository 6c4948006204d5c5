//! The parts of the transmission information, and the encoding symbols of a block.

ghost use Rattle.std.specs.Prelude.{◌≡◌, ◌<◌, ◌≤◌};
ghost use Rattle.oti_blocks.specs.Scheme.{IsSound, length_of, symbol_of, max_block_of, max_n_of, encoding_count, most_encoding};

use crate::information::Oti;

impl Oti {
    /// The object's length in bytes.
    pub fn length(&self) -> u64
        ensures value { result ≡ length_of self.now }
        ensures sound { IsSound self.now }
    {
        self.length
    }

    /// The length of an encoding symbol in bytes, at least one.
    pub fn symbol(&self) -> u16
        ensures value { result ≡ symbol_of self.now }
        ensures some { 1 ≤ result }
    {
        self.symbol
    }

    /// The most source symbols of a block, at least one.
    pub fn max_block(&self) -> u8
        ensures value { result ≡ max_block_of self.now }
        ensures some { 1 ≤ result }
    {
        self.max_block
    }

    /// The most encoding symbols of a block as they are stated.
    pub fn max_n(&self) -> u8
        ensures { result ≡ max_n_of self.now }
    {
        self.max_n
    }

    /// The encoding symbols of a block of `k` source symbols (RFC 5510, section 4.2.1): for each source symbol
    /// `max_n / max_block`, rounded down over the whole block.
    pub(crate) fn encoding_count(&self, k: u8) -> u8
        requires { k ≤ max_block_of self.now }
        ensures value { result ≡ encoding_count self.now k }
        ensures least { k ≤ result }
        ensures most { result ≤ most_encoding self.now }
    {
        (u16::from(k) * u16::from(self.max_n) / u16::from(self.max_block)) as u8
    }
}
