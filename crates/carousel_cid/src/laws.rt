//! Laws over the definitions. They are proved, and do nothing when they are called.

ghost use Rattle.std.specs.Prelude.{◌≡◌, ◌↔◌, ◌<◌, ℕ, List, Option, Some};
ghost use Rattle.carousel_cid.specs.declared.entry.Entry.{Entry};
ghost use Rattle.wire_bytes.specs.Bytes.{AreBytes};
ghost use Rattle.carousel_cid.specs.declared.kind.Kind.TheVariants.{File, Descriptor, Unusable};
ghost use Rattle.carousel_cid.specs.declared.kind.Cause.{Cause};
ghost use Rattle.carousel_cid.specs.declared.kind.Cause.TheVariants.{BadList, ListTooLong};
ghost use Rattle.carousel_cid.specs.IdentifierList.{SpellsList, count_of};
ghost use Rattle.carousel_cid.specs.BadEntry.{StartsBad};
ghost use Rattle.carousel_cid.specs.Causes.{list_fault};
ghost use Rattle.carousel_cid.specs.Kinds.{kind_of_object};
ghost use Rattle.carousel_cid.specs.File.{ReadsFile};
ghost use Rattle.carousel_cid.specs.Descriptor.{ReadsDescriptor};
ghost use Rattle.carousel_cid.specs.FirstCause.{IsFirstOf};

/// What is computed of bytes is a file, or a descriptor, exactly where they read as it.
pub fn read_exactly_where_spelled()
    ensures file { (object location : List ℕ) (kind : Option (List ℕ)) (body : List ℕ) → AreBytes object
        → (kind_of_object object ≡ File location kind body) ↔ ReadsFile object location kind body }
    ensures descriptor { (object : List ℕ) (number : ℕ) (listed : List ℕ) → AreBytes object
        → (kind_of_object object ≡ Descriptor number listed) ↔ ReadsDescriptor object number listed }
{}

/// And it is unusable for a cause exactly where that is the first one that is so.
pub fn first_cause_told()
    ensures { (object : List ℕ) (cause : Cause) → AreBytes object
        → (kind_of_object object ≡ Unusable cause) ↔ IsFirstOf object cause }
{}

/// A list is told as bad at a place exactly where the first entry that is bad starts there.
pub fn bad_entries_start_there()
    ensures { (body : List ℕ) (at : ℕ) → (list_fault body ≡ Some (BadList at)) ↔ StartsBad body at }
{}

/// A body starts bad at some place exactly where it is spelled by no list.
pub fn bad_where_no_list()
    ensures { (body : List ℕ) → ((at : ℕ) × StartsBad body at) ↔ ((entries : List Entry) → ¬ SpellsList body entries) }
{}

/// A list is told as too long exactly where it is a list that stands for more than 4,096 identifiers.
pub fn long_lists()
    ensures told { (body : List ℕ) → list_fault body ≡ Some ListTooLong
        → (entries : List Entry) × SpellsList body entries × (4096 < count_of entries) }
    ensures exact { (body : List ℕ) (entries : List Entry) → SpellsList body entries → 4096 < count_of entries
        → list_fault body ≡ Some ListTooLong }
{}
