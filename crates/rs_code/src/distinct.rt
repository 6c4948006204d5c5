//! Whether a list is one of places.

ghost use Rattle.std.specs.Prelude.{ℕ, ◌≡◌, ◌≢◌, ◌<◌, false, length, slice_index, IsTrue};
ghost use Rattle.rs_code.specs.Weights.{ArePlaces};

/// Says whether these are places: 1 to 255 distinct symbol IDs below 255. It takes k * k / 2 steps for k of them, and
/// none for more than 255.
pub fn are_places(places: &[u8]) -> bool
    ensures yes { IsTrue result → ArePlaces places.now }
    ensures no { result ≡ false → ArePlaces places.now → ⊥ }
{
    if places.is_empty() || places.len() > 255 {
        return false;
    }
    for i in 0..places.len() {
        if places[i] == 255 || !is_new(places, i) {
            return false;
        }
    }
    true
}

/// Says whether the place in position `i` is none of those before it.
fn is_new(places: &[u8], i: usize) -> bool
    requires { i < length places.now }
    ensures yes { IsTrue result → (j : ℕ) → j < i → slice_index places.now j ≢ slice_index places.now i }
    ensures no { result ≡ false → ArePlaces places.now → ⊥ }
{
    for j in 0..i {
        if places[j] == places[i] {
            return false;
        }
    }
    true
}
