//! Laws over the definitions. They are proved, and do nothing when they are called.

ghost use Rattle.std.specs.Prelude.{◌≡◌, ◌≤◌, ◌↔◌, ℕ, Bool, List, length, Ok, Err};
ghost use Rattle.meta_text.specs.Fields.{Pair, ArePairs, written};
ghost use Rattle.compound_object.specs.Checksum.{IsOnesSum, ones_sum};
ghost use Rattle.compound_object.specs.Object.{SpellsObject, object_bytes};
ghost use Rattle.compound_object.specs.Reading.{Parts, reading};
ghost use Rattle.compound_object.specs.Causes.{IsFirst};
ghost use Rattle.compound_object.specs.declared.fault.CompoundFault.{CompoundFault};
ghost use Rattle.wire_bytes.specs.Bytes.{AreBytes};

/// What is computed of bytes is the parts of an object exactly where they spell an object with these parts.
pub fn read_exactly_where_spelled()
    ensures { (object : List ℕ) (parts : Parts) → AreBytes object
        → (reading object ≡ Ok parts) ↔ SpellsObject object parts.descriptor parts.fields parts.body }
{}

/// And it is a cause exactly where that is the first one that is so.
pub fn first_cause_told()
    ensures { (object : List ℕ) (cause : CompoundFault) → (reading object ≡ Err cause) ↔ IsFirst object cause }
{}

/// What is written of a kind, fields and a body is read back as these three.
pub fn reads_back()
    ensures { (descriptor : Bool) (fields : List Pair) (body : List ℕ) → ArePairs fields → length (written fields) ≤ 4294967287
        → reading (object_bytes descriptor fields body) ≡ Ok (record { descriptor = descriptor; fields = fields; body = body }) }
{}

/// What is written is one of the spellings of these three.
pub fn spells_written()
    ensures { (descriptor : Bool) (fields : List Pair) (body : List ℕ) → ArePairs fields → length (written fields) ≤ 4294967287
        → SpellsObject (object_bytes descriptor fields body) descriptor fields body }
{}

/// The function for the one's complement sum gives the one number that its definition allows.
pub fn ones_sums()
    ensures { (plain ones : ℕ) → IsOnesSum plain ones ↔ (ones ≡ ones_sum plain) }
{}
