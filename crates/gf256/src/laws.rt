//! Laws over the definitions: of the field, of the powers of alpha, and of polynomials. Each function does
//! nothing; its contract is the law.
ghost use Rattle.std.specs.Prelude.{ℕ, List, ◌≡◌, ◌≢◌, ◌⊎◌, ◌+◌, ◌<◌, ◌%◌, length, bit_xor};
ghost use Rattle.gf256.specs.Field.{IsByte, product};
ghost use Rattle.gf256.specs.Polynomial.{power, value, AreBytes, AreDifferent, AreNull, AreRoots, Agree};
ghost use Rattle.gf256.specs.Row.{added_row};

/// The sum of two elements is an element.
pub fn sum_is_element()
    ensures { (a b : ℕ) → IsByte a → IsByte b → IsByte (bit_xor a b) }
{}

/// The grouping of three terms is free.
pub fn sum_associative()
    ensures { (a b c : ℕ) → bit_xor (bit_xor a b) c ≡ bit_xor a (bit_xor b c) }
{}

/// The order of two terms is free.
pub fn sum_commutative()
    ensures { (a b : ℕ) → bit_xor a b ≡ bit_xor b a }
{}

/// Zero is neutral for the sum.
pub fn sum_neutral()
    ensures { (a : ℕ) → bit_xor a 0 ≡ a }
{}

/// Each element is its own negative.
pub fn sum_inverse()
    ensures { (a : ℕ) → bit_xor a a ≡ 0 }
{}

/// The product of two elements is an element.
pub fn product_is_element()
    ensures { (a b : ℕ) → IsByte a → IsByte b → IsByte (product a b) }
{}

/// The grouping of three factors is free.
pub fn product_associative()
    ensures { (a b c : ℕ) → IsByte a → IsByte b → IsByte c → product (product a b) c ≡ product a (product b c) }
{}

/// The order of two factors is free.
pub fn product_commutative()
    ensures { (a b : ℕ) → IsByte a → IsByte b → product a b ≡ product b a }
{}

/// One is neutral for the product.
pub fn product_neutral()
    ensures { (a : ℕ) → IsByte a → product a 1 ≡ a }
{}

/// A product with zero is zero.
pub fn product_with_zero()
    ensures { (a : ℕ) → IsByte a → product a 0 ≡ 0 }
{}

/// The product distributes over the sum.
pub fn product_distributive()
    ensures { (a b c : ℕ) → IsByte a → IsByte b → IsByte c → product a (bit_xor b c) ≡ bit_xor (product a b) (product a c) }
{}

/// Each element but zero has exactly one inverse.
pub fn product_inverse()
    ensures exists { (a : ℕ) → IsByte a → a ≢ 0 → (b : ℕ) × IsByte b × (product a b ≡ 1) }
    ensures unique { (a b c : ℕ) → IsByte a → IsByte b → IsByte c → product a b ≡ 1 → product a c ≡ 1 → b ≡ c }
{}

/// A product is zero only where a factor is.
pub fn no_zero_divisors()
    ensures { (a b : ℕ) → IsByte a → IsByte b → product a b ≡ 0 → (a ≡ 0) ⊎ (b ≡ 0) }
{}

/// The powers of alpha are elements other than zero.
pub fn power_is_element()
    ensures element { (j : ℕ) → IsByte (power j) }
    ensures nonzero { (j : ℕ) → power j ≢ 0 }
{}

/// The power of a sum of exponents is the product of the powers.
pub fn power_of_sum()
    ensures { (i j : ℕ) → power (i + j) ≡ product (power i) (power j) }
{}

/// The powers repeat after 255.
pub fn power_repeats()
    ensures { (j : ℕ) → power (j % 255) ≡ power j }
{}

/// The first 255 powers are distinct.
pub fn distinct_powers()
    ensures { (i j : ℕ) → i < 255 → j < 255 → power i ≡ power j → i ≡ j }
{}

/// The value of a sum of polynomials of one length, the first of them taken `by` times.
pub fn value_of_sum()
    ensures { (by x : ℕ) (cs ds : List ℕ) → IsByte by → IsByte x → AreBytes cs → AreBytes ds → length cs ≡ length ds →
        value (added_row by cs ds) x ≡ bit_xor (value ds x) (product by (value cs x)) }
{}

/// A polynomial that is not zero has fewer roots than coefficients.
pub fn root_bound()
    ensures { (cs rs : List ℕ) → AreBytes cs → AreBytes rs → AreDifferent rs → AreRoots cs rs → (AreNull cs → ⊥) → length rs < length cs }
{}

/// Two polynomials of k coefficients that agree at k distinct elements are equal.
pub fn equal_where_they_agree()
    ensures { (cs ds rs : List ℕ) → AreBytes cs → AreBytes ds → AreBytes rs → length cs ≡ length ds → length rs ≡ length cs → AreDifferent rs → Agree cs ds rs → cs ≡ ds }
{}
