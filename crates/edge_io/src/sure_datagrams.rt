//! Datagrams in memory that always come.

ghost use Rattle.std.specs.Prelude.{◌≡◌, Option, Some, None, map, drop, ◌≤◌, All, vec_len};

use crate::{Datagrams, Failed, Next, Place};

/// Datagrams in memory that always come.
#[derive(Drop)]
pub struct SureDatagrams {
    /// All datagrams, those that were taken too.
    pub datagrams: Vec<Vec<u8>>,
    /// How many datagrams were taken.
    pub at: usize,
    /// The place at which their log is torn.
    pub torn: Option<u64>,
    /// The place of the last `connect` that answered `Ok`.
    pub connected: Option<Place>,
    ghost within: { at ≤ vec_len datagrams },
    ghost short: { All (λ d. vec_len d ≤ 65535) datagrams.items },
}

impl SureDatagrams {
    /// A source of these datagrams, each of at most 65,535 bytes, and of this torn place.
    pub fn new(datagrams: Vec<Vec<u8>>, torn: Option<u64>) -> SureDatagrams
        requires { All (λ d. vec_len d ≤ 65535) datagrams.items }
        ensures datagrams { result.datagrams ≡ datagrams }
        ensures at { result.at ≡ 0 }
        ensures torn { result.torn ≡ torn }
        ensures connected { result.connected ≡ None }
    {
        SureDatagrams {
            datagrams,
            at: 0,
            torn,
            connected: None,
        }
    }
}

impl Datagrams for SureDatagrams {
    ghost told = { λ _. Unit {0} };

    ghost left = { λ s. map (λ d. d.items) (drop s.at s.datagrams.items) };

    ghost torn = { λ s. s.torn };

    ghost connected = { λ s. s.connected };

    ghost faults = { λ _. 0 };

    fn connect(&mut self, place: &Place) -> Result<(), Failed> {
        self.connected = Some(*place);
        Ok(())
    }

    fn next(&mut self, buffer: &mut [u8]) -> Next {
        if self.at < self.datagrams.len() {
            let datagram = self.datagrams[self.at].as_slice();
            let count = datagram.len();
            buffer[..count].copy_from_slice(datagram);
            self.at += 1;
            return Next::Got(count);
        }
        match self.torn {
            Some(place) => Next::Torn(place),
            None => Next::End,
        }
    }
}
