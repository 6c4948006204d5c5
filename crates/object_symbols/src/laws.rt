//! Laws of the encoding symbols of an object. They speak of the definitions alone.

ghost use Rattle.std.specs.Prelude.{ℕ, ◌≤◌, ◌<◌, List, length};
ghost use Rattle.gf256.specs.Polynomial.{AreBytes};
ghost use Rattle.rs_code.specs.SourceRows.{IsSymbolRow, column};
ghost use Rattle.object_symbols.specs.SymbolRow.{symbol_row};

/// The row of bytes of a symbol is that symbol.
pub fn rows_are_symbols()
    ensures { (rows : List (List ℕ)) (size j : ℕ)
        → ((at : ℕ) → at < size → AreBytes (column rows at)) → length rows ≤ 255 → IsSymbolRow rows size j (symbol_row rows size j) }
{}
