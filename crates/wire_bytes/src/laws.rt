//! Laws over the definitions alone.

ghost use Rattle.std.specs.Prelude.{◌≡◌, ℕ, ◌+◌, ◌^◌, ◌<◌, ◌≤◌, ◌∷◌, ◌++◌, List, Option, Some, None, length, take};
ghost use Rattle.std.specs.List.{AllByRecursion};
ghost use Rattle.byteorder.specs.Endian.{big_number, big_bytes};
ghost use Rattle.wire_bytes.specs.Bytes.{AreBytes, zero_filled};
ghost use Rattle.wire_bytes.specs.FirstFault.{first_fault};

/// A number is read back from its bytes, and bytes are those of the number that they make.
pub fn numbers_in_bytes()
    ensures number { (n x : ℕ) → x < 256 ^ n → big_number n (big_bytes n x) ≡ x }
    ensures bytes { (n : ℕ) (bytes : List ℕ) → n ≤ length bytes → AreBytes bytes → big_bytes n (big_number n bytes) ≡ take n bytes }
{}

/// What is filled has the stated length, and begins with the bytes.
pub fn filled_with_zeros()
    ensures length { (size : ℕ) (bytes : List ℕ) → length bytes ≤ size → length (zero_filled size bytes) ≡ size }
    ensures front { (size : ℕ) (bytes : List ℕ) → take (length bytes) (zero_filled size bytes) ≡ bytes }
{}

/// The first fault that holds stands among the faults, and none in front of it holds.
pub fn first_of_faults()
    ensures { (faults : List (Option ℕ)) (fault : ℕ) → first_fault faults ≡ Some fault
        → (before : List (Option ℕ)) × (after : List (Option ℕ)) × (faults ≡ before ++ Some fault ∷ after) × AllByRecursion (λ o. o ≡ None) before }
{}
