//! Laws over the definitions of symbols and solutions. Each function does nothing; its contract is the law.
ghost use Rattle.std.specs.Prelude.{ℕ, List, ◌≡◌, length};
ghost use Rattle.gf256.specs.Polynomial.{AreBytes};
ghost use Rattle.rs_code.specs.Weights.{ArePlaces};
ghost use Rattle.rs_solve.specs.Solution.{HasSymbols, IsSolution};

/// For any k distinct places and any k bytes there is exactly one column with these symbols at these places.
pub fn one_column()
    ensures exists { (places bytes : List ℕ) → ArePlaces places → AreBytes bytes → length bytes ≡ length places
        → (column : List ℕ) × AreBytes column × (length column ≡ length places) × HasSymbols column places bytes }
    ensures unique { (places bytes c d : List ℕ) → ArePlaces places → AreBytes c → AreBytes d → length c ≡ length places → length d ≡ length places
        → HasSymbols c places bytes → HasSymbols d places bytes → c ≡ d }
{}

/// Places and rows have one solution.
pub fn one_solution()
    ensures { (size : ℕ) (places rows b c : List ℕ) → ArePlaces places → AreBytes b → AreBytes c
        → IsSolution size places rows b → IsSolution size places rows c → b ≡ c }
{}
