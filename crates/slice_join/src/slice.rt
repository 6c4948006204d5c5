//! The body of a slice, read and written.

ghost use Rattle.std.specs.Prelude.{◌≡◌, IfOk};
ghost use Rattle.slice_join.specs.Slice.{slice_bytes, slice_in};

use byteorder::{BigEndian, ByteOrder};
use std::alloc::{AllocError, Global};
use std::marker::Model;

/// How many bytes stand in front of the part.
const HEAD_LENGTH: usize = 16;

/// What the body of a slice says. The part stays where it is.
#[derive(Drop)]
pub(crate) struct Slice<'a> {
    /// Which slice it is, from 1 on.
    pub place: u32,
    /// How many slices the file has.
    pub count: u32,
    /// How many bytes the whole file has.
    pub total: u64,
    /// The bytes of the file that it carries.
    pub part: &'a [u8],
}

impl<'a> Model for Slice<'a> {
    ghost use Rattle.slice_join.specs.Slice as specs;

    ghost Value = { specs.Slice };

    ghost view = { λ s. record { place = s.place; count = s.count; total = s.total; part = s.part.now } };
}

impl<'a> Slice<'a> {
    /// The slice that a body says, where it is long enough.
    #[tactic(auto, unfolding(crate::specs::Slice::slice_in))]
    pub fn read(body: &'a [u8]) -> Option<Slice<'a>>
        ensures { result ≡ slice_in body.now }
    {
        if body.len() < HEAD_LENGTH {
            return None;
        }
        Some(Slice {
            place: BigEndian::read_u32(body),
            count: BigEndian::read_u32(&body[4..]),
            total: BigEndian::read_u64(&body[8..]),
            part: &body[HEAD_LENGTH..],
        })
    }

    /// The body that says it.
    pub fn write(&self, alloc: Global) -> Result<Vec<u8>, AllocError>
        ensures { IfOk result (λ v. v.items ≡ slice_bytes self.now) }
    {
        let mut body = Vec::with_capacity(alloc, HEAD_LENGTH + self.part.len())?;
        body.extend_from_slice(&self.place.to_be_bytes())?;
        body.extend_from_slice(&self.count.to_be_bytes())?;
        body.extend_from_slice(&self.total.to_be_bytes())?;
        body.extend_from_slice(self.part)?;
        Ok(body)
    }
}
