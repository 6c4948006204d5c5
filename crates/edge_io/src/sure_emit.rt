//! A sink in memory that always takes datagrams.

ghost use Rattle.std.specs.Prelude.{◌≡◌, [], Option, None, map, ◌≤◌, All, vec_len};

use crate::{Emit, Place, Trouble};
use std::alloc::Global;

/// A sink in memory that takes datagrams as long as there is memory.
#[derive(Drop)]
pub struct SureEmit {
    /// The datagrams that were sent.
    pub sent: Vec<Vec<u8>>,
    /// The place of the last `connect` that answered `Ok`.
    pub connected: Option<Place>,
    ghost short: { All (λ d. vec_len d ≤ 65535) sent.items },
}

impl SureEmit {
    /// A sink to which these datagrams were sent already, each of at most 65,535 bytes.
    pub fn with_sent(sent: Vec<Vec<u8>>) -> SureEmit
        requires { All (λ d. vec_len d ≤ 65535) sent.items }
        ensures sent { result.sent ≡ sent }
        ensures connected { result.connected ≡ None }
    {
        SureEmit {
            sent,
            connected: None,
        }
    }

    /// A sink to which nothing was sent.
    pub fn new(alloc: Global) -> SureEmit
        ensures sent { result.sent.items ≡ [] }
        ensures connected { result.connected ≡ None }
    {
        SureEmit {
            sent: Vec::new(alloc),
            connected: None,
        }
    }
}

impl Emit for SureEmit {
    ghost told = { λ _. Unit {0} };

    ghost sent = { λ s. map (λ d. d.items) s.sent.items };

    ghost connected = { λ s. s.connected };

    ghost faults = { λ _. 0 };

    fn connect(&mut self, place: &Place) -> Result<(), Trouble> {
        self.connected = Some(*place);
        Ok(())
    }

    fn send(&mut self, datagram: &[u8]) -> Result<(), Trouble> {
        let alloc = *self.sent.allocator();
        let copy = Vec::from_slice(alloc, datagram)?;
        self.sent.push(copy)?;
        Ok(())
    }
}
