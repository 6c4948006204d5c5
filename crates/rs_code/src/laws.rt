//! Laws over the definitions of encoding symbols and weights. Each function does nothing; its contract is the law.
ghost use Rattle.std.specs.Prelude.{ℕ, List, ◌≡◌, ◌≤◌, ◌<◌, length, slice_index};
ghost use Rattle.gf256.specs.Field.{IsByte};
ghost use Rattle.gf256.specs.Polynomial.{AreBytes};
ghost use Rattle.rs_code.specs.Symbol.{IsSymbol};
ghost use Rattle.rs_code.specs.Weights.{ArePlaces, AreWeights};

/// A column of 1 to 255 bytes has exactly one symbol at each place below 255.
pub fn one_symbol()
    ensures exists { (column : List ℕ) (j : ℕ) → AreBytes column → 1 ≤ length column → length column ≤ 255 → j < 255 → (v : ℕ) × IsByte v × IsSymbol column j v }
    ensures unique { (column : List ℕ) (j v w : ℕ) → AreBytes column → 1 ≤ length column → length column ≤ 255 → j < 255 → IsSymbol column j v → IsSymbol column j w → v ≡ w }
{}

/// The symbols below k are the bytes of the column.
pub fn source_symbols()
    ensures { (column : List ℕ) (i v : ℕ) → i < length column → IsSymbol column i v → v ≡ slice_index column i }
{}

/// Places have one list of weights at each place.
pub fn one_list_of_weights()
    ensures { (places v w : List ℕ) (at : ℕ) → ArePlaces places → AreWeights places at v → AreWeights places at w → v ≡ w }
{}
