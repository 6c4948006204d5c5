//! Files and datagrams that a run is given.

ghost use Rattle.std.specs.Prelude.{◌≤◌, All, IfOk, vec_len};

use std::alloc::{AllocError, Global};

/// Files of these names.
pub fn named(alloc: Global, files: &[(&str, &[u8])]) -> Result<Vec<(String, Vec<u8>)>, AllocError> {
    let mut named = Vec::new(alloc);
    for (name, bytes) in files {
        let name = String::from_str(alloc, name)?;
        named.push((name, Vec::from_slice(alloc, bytes)?))?;
    }
    Ok(named)
}

/// A copy of those of the datagrams that a device takes.
pub fn short(alloc: Global, datagrams: &[Vec<u8>]) -> Result<Vec<Vec<u8>>, AllocError>
    ensures { IfOk result (λ v. All (λ d. vec_len d ≤ 65535) v.items) }
{
    let mut copies = Vec::new(alloc);
    push_short(alloc, &mut copies, datagrams)?;
    Ok(copies)
}

fn push_short(
    alloc: Global,
    copies: &mut Vec<Vec<u8>>,
    datagrams: &[Vec<u8>],
) -> Result<(), AllocError>
    requires { All (λ d. vec_len d ≤ 65535) copies.old.items }
    ensures { All (λ d. vec_len d ≤ 65535) copies.new.items }
{
    for datagram in datagrams {
        if datagram.len() <= 65_535 {
            copies.push(Vec::from_slice(alloc, datagram.as_slice())?)?;
        }
    }
    Ok(())
}
