//! Laws over the definitions. They are proved, and do nothing when they are called.

ghost use Rattle.std.specs.Prelude.{◌≡◌, ◌≤◌, ◌<◌, ◌^◌, ◌∷◌, [], ℕ, List, Option, Some, true, length};
ghost use Rattle.wire_bytes.specs.Bytes.{AreBytes};
ghost use Rattle.slice_join.specs.SliceKind.{is_slice_kind, slice_kind, whole_kind};
ghost use Rattle.carousel_cid.specs.declared.file_of.FileOf.{FileOf};
ghost use Rattle.slice_join.specs.declared.joined.Outcome.TheVariants.{Whole};
ghost use Rattle.slice_join.specs.Cut.{most_pieces, piece_count, pieces_of};
ghost use Rattle.slice_join.specs.Carried.{Carries};
ghost use Rattle.slice_join.specs.Joins.{joins};
ghost use Rattle.slice_join.specs.Slice.{Slice, SpellsSlice, slice_in};

/// A text is the type of a slice exactly where it is that of the slices of a file with some type, or with none, and it
/// says that type.
pub fn types_of_slices()
    ensures one { (kind : Option (List ℕ)) → (is_slice_kind (slice_kind kind) ≡ true) × (whole_kind (slice_kind kind) ≡ kind) }
    ensures only { (text : List ℕ) → is_slice_kind text ≡ true → text ≡ slice_kind (whole_kind text) }
{}

/// A body says one slice at most.
pub fn one_slice_in_a_body()
    ensures { (body : List ℕ) (s t : Slice) → SpellsSlice body s → SpellsSlice body t → s ≡ t }
{}

/// A body is read as a slice exactly where it says that slice.
pub fn written_is_read()
    ensures read { (body : List ℕ) (s : Slice) → SpellsSlice body s → slice_in body ≡ Some s }
    ensures says { (body : List ℕ) (s : Slice) → AreBytes body → slice_in body ≡ Some s → SpellsSlice body s }
{}

/// Pieces of `cut`, listed under one location in any order, join to that body with that type. Their one entry has the
/// identifier of the first that is listed.
pub fn pieces_join_in_any_order()
    ensures { (kind : Option (List ℕ)) (size : ℕ) (body location : List ℕ) (first : FileOf) (more : List FileOf)
        → 1 ≤ size → piece_count size (length body) ≤ most_pieces → length body < 2 ^ 64
        → Carries (pieces_of kind size body) location (first ∷ more)
        → joins (first ∷ more) ≡ record { toi = first.toi; location = location; kind = kind; outcome = Whole body } ∷ [] }
{}
