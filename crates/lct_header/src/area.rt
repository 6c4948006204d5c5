//! The area of a header's extensions.

ghost use Rattle.std.specs.Prelude.{◌≡◌, ◌%◌, ◌^◌, ◌+◌, ◌<◌, ◌==◌, if◌then◌else◌, length, MatchOption};
ghost use Rattle.std.specs.Iterator.{YieldsFirst, item_count};
ghost use Rattle.lct_header.specs.Extensions.{IsArea};
ghost use Rattle.lct_header.specs.Inner.Faults.{IsAreaFault};

use crate::extension::{Extension, split_first};
use crate::fault::HeaderFault;
use std::marker::Model;

/// The extensions of a header that are left, in order. A clause sees their list.
#[derive(Debug, Drop)]
pub struct Extensions<'a> {
    pub(crate) rest: &'a [u8],
}

impl<'a> Model for Extensions<'a> {
    ghost use Rattle.std.specs.Prelude.{List};
    ghost use Rattle.lct_header.specs.Extension.{Extension};
    ghost use Rattle.lct_header.specs.Extensions.{IsArea};
    ghost use Rattle.lct_header.specs.Inner.Extensions.{extensions_in};

    ghost Value = { List Extension };

    ghost view = { λ a. extensions_in a.rest.now };

    ghost invariant = { λ a. IsArea a.rest.now };
}

impl<'a> Iterator for Extensions<'a> {
    type Item = Extension<'a>;

    ghost next_gives = { YieldsFirst (λ extensions. extensions) };

    ghost remaining = { item_count (λ extensions. extensions) };

    fn next(&mut self) -> Option<Extension<'a>> {
        let (first, others) = split_first(self.rest)?;
        self.rest = others;
        Some(first)
    }
}

/// The first faulty extension of an area that begins at the place `start` of the datagram.
pub(crate) fn first_fault(area: &[u8], start: usize) -> Option<HeaderFault>
    requires words { length area.now % 4 ≡ 0 }
    requires room { start + length area.now < 2 ^ 63 }
    ensures { MatchOption result (IsArea area.now) (λ fault. IsAreaFault area.now start fault) }
{
    let mut rest = area;
    while !rest.is_empty() {
        let Some((_, others)) = split_first(rest) else {
            let at = (start + (area.len() - rest.len())) as u64;
            return Some(fault_of(rest[1], at));
        };
        rest = others;
    }
    None
}

/// The fault at the place `at` of an extension with this length that isn't whole.
fn fault_of(words: u8, at: u64) -> HeaderFault
    ensures { result ≡ (if words == 0 then HeaderFault.ExtensionZero at else HeaderFault.ExtensionLong at) }
{
    if words == 0 {
        HeaderFault::ExtensionZero { at }
    } else {
        HeaderFault::ExtensionLong { at }
    }
}
