//! The buffer that datagrams are read into.
ghost use Rattle.std.specs.Prelude.{◌≡◌, IfOk, vec_len};

use std::alloc::{AllocError, Global};

/// The longest datagram, in bytes: what an item of a log and a packet over UDP have at most.
const LONGEST: usize = 65_535;

/// A buffer of zeros that has room for any datagram.
pub fn datagram_buffer(alloc: Global) -> Result<Vec<u8>, AllocError>
    ensures { IfOk result (λ v. vec_len v ≡ 65535) }
{
    vec![in alloc; 0u8; LONGEST]
}
