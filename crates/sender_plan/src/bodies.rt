//! The bodies of a catalog's files.

ghost use Rattle.std.specs.Prelude.{◌≡◌, Some, map, slice_get, IfOk};
ghost use Rattle.std.specs.List.{IsDistinct};
ghost use Rattle.std.specs.Str.{bytes_eq};

use compound_object::Blob;
use indexmap::IndexSet;
use std::alloc::{AllocError, Global};

/// The distinct ones among bodies, and the place of each body among these.
#[derive(Drop)]
pub(crate) struct Bodies<'a> {
    pub(crate) distinct: IndexSet<&'a [u8]>,
    pub(crate) places: Vec<usize>,
}

impl<'a> Bodies<'a> {
    pub(crate) fn new(alloc: Global, bodies: &'a [Blob]) -> Result<Bodies<'a>, AllocError>
        ensures { IfOk result (λ b. map (slice_get (map (λ k. k.now) b.distinct.keys)) b.places.items ≡ map (λ body. Some body) bodies.now) }
    {
        let mut distinct = IndexSet::new(alloc);
        let mut places = Vec::new(alloc);
        for body in bodies {
            let (place, _) = distinct.insert_full(body.as_slice())?;
            places.push(place)?;
        }
        Ok(Bodies { distinct, places })
    }

    /// The distinct bodies.
    pub(crate) fn as_slice(&self) -> &[&'a [u8]]
        ensures bodies { result.now ≡ self.now.distinct.keys }
        ensures distinct { IsDistinct bytes_eq (map (λ k. k.now) result.now) }
    {
        self.distinct.as_slice()
    }
}
