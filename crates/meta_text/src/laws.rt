//! Laws over the definitions. They are proved, and do nothing when they are called.

ghost use Rattle.std.specs.Prelude.{◌≡◌, ◌≢◌, ◌↔◌, ◌⊎◌, ◌++◌, ◌∷◌, [], ℕ, List, Ok, Err, true, false};
ghost use Rattle.std.specs.List.{list_all, list_any, flat_map, AllByRecursion};
ghost use Rattle.meta_text.specs.declared.fault.FieldFault.{FieldFault};
ghost use Rattle.meta_text.specs.declared.fault.FieldFault.TheVariants.{Memory};
ghost use Rattle.meta_text.specs.Text.{is_blank, trimmed};
ghost use Rattle.meta_text.specs.Lines.{is_line_feed, cut, with_feed};
ghost use Rattle.meta_text.specs.Fields.{Pair, ArePairs, written};
ghost use Rattle.meta_text.specs.Reading.{reading};
ghost use Rattle.meta_text.specs.Spelled.{SpellsFields, IsFirstFault};

/// What is computed of a text is its pairs exactly where the text spells them.
pub fn read_exactly_where_spelled()
    ensures { (text : List ℕ) (pairs : List Pair) → (reading text ≡ Ok pairs) ↔ SpellsFields text pairs }
{}

/// And it is a fault exactly where that is the first cause of the first faulty line.
pub fn first_cause_told()
    ensures { (text : List ℕ) (fault : FieldFault) → (reading text ≡ Err fault) ↔ IsFirstFault text fault }
{}

/// What is written of names and values is read back, pair by pair.
pub fn reads_back()
    ensures { (pairs : List Pair) → ArePairs pairs → reading (written pairs) ≡ Ok pairs }
{}

/// No text says the fault `Memory`.
pub fn never_memory()
    ensures { (text : List ℕ) → reading text ≢ Err Memory }
{}

/// No line of a text has a line feed; with one behind each line they are the text again, or the text and
/// one line feed more where it ends without one.
pub fn lines_make_the_text()
    ensures none { (text : List ℕ) → AllByRecursion (λ line. list_any is_line_feed line ≡ false) (cut text) }
    ensures joined { (text : List ℕ) → (flat_map with_feed (cut text) ≡ text) ⊎ (flat_map with_feed (cut text) ≡ text ++ 0x0A ∷ []) }
{}

/// A text is blanks, the text that is left without them, and blanks.
pub fn trimmed_between_blanks()
    ensures { (text : List ℕ) → (before : List ℕ) × (after : List ℕ) × (list_all is_blank before ≡ true)
        × (list_all is_blank after ≡ true) × (text ≡ before ++ (trimmed text ++ after)) }
{}
