//! A body cut into pieces.

ghost use Rattle.std.specs.Prelude.{◌≡◌, ◌≤◌, ◌<◌, length, IfOk};
ghost use Rattle.std.specs.Option.{option_copied};
ghost use Rattle.slice_join.specs.Cut.{most_pieces, piece_count, piece_of, pieces_of};

use crate::kind::slice_kind;
use crate::slice::Slice;
use compound_object::Blob;
use meta_text::Label;
use std::alloc::{AllocError, Global};

/// A slice as a file without its location, which is the whole file's: its type and its body.
#[derive(Drop)]
pub struct Piece {
    pub kind: Label,
    pub body: Blob,
}

/// The pieces of a body that is longer than the size, of a file with this type: each with so many bytes of it, the last
/// with the rest. At most 4,096 pieces come of it.
pub fn cut(
    alloc: Global,
    kind: Option<&str>,
    body: &[u8],
    size: u32,
) -> Result<Vec<Piece>, AllocError>
    requires some { 1 ≤ size }
    requires most { size ≤ 16777200 }
    requires longer { size < length body.now }
    requires few { piece_count size (length body.now) ≤ most_pieces }
    ensures { IfOk result (λ pieces. pieces.items ≡ pieces_of (option_copied kind.entry) size body.now) }
{
    let size = size as usize;
    let count = body.len().div_ceil(size) as u32;
    let total = body.len() as u64;
    let mut pieces = Vec::new(alloc);
    let mut rest = body;
    for place in 0..count {
        let (part, behind) = rest.split_at(size.min(rest.len()));
        let slice = Slice {
            place: place + 1,
            count,
            total,
            part,
        };
        pieces.push(carrier(alloc, kind, &slice)?)?;
        rest = behind;
    }
    Ok(pieces)
}

/// The piece that carries a slice.
fn carrier(alloc: Global, kind: Option<&str>, slice: &Slice<'_>) -> Result<Piece, AllocError>
    ensures { IfOk result (λ p. p ≡ piece_of (option_copied kind.entry) slice.now) }
{
    Ok(Piece {
        kind: slice_kind(alloc, kind)?,
        body: Blob::new(slice.write(alloc)?),
    })
}
