//! Sound transmission information.

ghost use Rattle.std.specs.Prelude.{◌≡◌, ℕ, ◌^◌, ◌<◌, ◌≤◌, ◌↔◌, IsOk};
ghost use Rattle.oti_blocks.specs.Information.{block_count};
ghost use Rattle.oti_blocks.specs.Scheme.{ObjectInformation, IsSound};
ghost use Rattle.oti_blocks.specs.Faults.{checked};

use crate::fault::OtiFault;
use std::marker::Model;

/// The FEC Object Transmission Information of an object (RFC 5052, section 6; RFC 5510, section 4.2).
/// Its type keeps that the values are sound: the object has 8 to 2^48 - 1 bytes and at most 2^24 blocks,
/// a symbol has at least one byte, and `1 <= max_block <= max_n`.
#[derive(Clone, Copy, Debug, PartialEq, Eq)]
pub struct Oti {
    pub(crate) length: u64,
    pub(crate) symbol: u16,
    pub(crate) max_block: u8,
    pub(crate) max_n: u8,
}

impl Model for Oti {
    ghost use Rattle.oti_blocks.specs.Scheme.{ObjectInformation, IsSound};

    ghost Value = { ObjectInformation };

    ghost view = { λ a. record { length = a.length; symbol = a.symbol; max_block = a.max_block; max_n = a.max_n } };

    ghost invariant = { λ a. IsSound (record { length = a.length; symbol = a.symbol; max_block = a.max_block; max_n = a.max_n }) };

    ghost inverse = { λ o. record { length = o.length; symbol = o.symbol; max_block = o.max_block; max_n = o.max_n } };
}

/// The most blocks of an object: their numbers have 24 bits (RFC 5510, section 4.1).
const MOST_BLOCKS: u64 = 1 << 24;

impl Oti {
    /// The transmission information with these values, or the first fault that they have.
    pub fn new(length: u64, symbol: u16, max_block: u8, max_n: u8) -> Result<Oti, OtiFault>
        requires { length < 2 ^ 48 }
        ensures exact { result ≡ checked (record { length = length; symbol = symbol; max_block = max_block; max_n = max_n }) }
        ensures sound { IsOk result ↔ IsSound (record { length = length; symbol = symbol; max_block = max_block; max_n = max_n }) }
    {
        if symbol == 0 {
            return Err(OtiFault::ZeroSymbol);
        }
        if max_block == 0 {
            return Err(OtiFault::ZeroBlock);
        }
        if max_n < max_block {
            return Err(OtiFault::MaxN);
        }
        if length < 8 {
            return Err(OtiFault::ShortObject);
        }
        if count_blocks(length, symbol, max_block) > MOST_BLOCKS {
            return Err(OtiFault::TooManyBlocks);
        }
        Ok(Oti {
            length,
            symbol,
            max_block,
            max_n,
        })
    }
}

/// The blocks of an object of this length.
fn count_blocks(length: u64, symbol: u16, max_block: u8) -> u64
    requires some_symbol { 1 ≤ symbol }
    requires some_block { 1 ≤ max_block }
    ensures { result ≡ block_count length symbol max_block }
{
    length
        .div_ceil(u64::from(symbol))
        .div_ceil(u64::from(max_block))
}
