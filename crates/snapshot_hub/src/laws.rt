//! Laws of the snapshot machine. They speak of the definitions alone.
ghost use Rattle.std.specs.Prelude.{◌≡◌, ℕ, ◌≤◌, List};
ghost use mathlib.Core.List.{IsPrefix};
ghost use Rattle.carousel_cid.specs.Instances.{Shown};
ghost use Rattle.snapshot_hub.specs.Histories.{IsRising, height, longer, newer};
ghost use Rattle.snapshot_hub.specs.Machine.{Machine, Step, opened, Leads, Runs, IsSound, Knows, MaySee};

/// Each step keeps the machine sound.
pub fn each_step_keeps_it_sound()
    ensures { (s : Step) (m n : Machine) → IsSound m → Leads s m n → IsSound n }
{}

/// The machine is sound after every list of steps, for any number of readers.
pub fn always_sound()
    ensures { (readers : ℕ) (steps : List Step) (n : Machine) → Runs steps (opened readers) n → IsSound n }
{}

/// What a reader sees goes on from all that it saw before and all that it was told of, so no number that it
/// is shown is below one that it was shown or told of.
pub fn looks_never_fall()
    ensures prefix { (readers r : ℕ) (steps : List Step) (s h : List Shown) → MaySee readers steps r s → Knows steps r h → IsPrefix h s }
    ensures number { (readers r : ℕ) (steps : List Step) (s h : List Shown) → MaySee readers steps r s → Knows steps r h → height h ≤ height s }
    ensures rising { (readers r : ℕ) (steps : List Step) (s : List Shown) → MaySee readers steps r s → IsRising s }
{}

/// Of two beginnings of a history in which numbers never fall, the newer one is the longer one.
pub fn newer_is_longer()
    ensures { (all h t : List Shown) → IsRising all → IsPrefix h all → IsPrefix t all → newer h t ≡ longer h t }
{}
