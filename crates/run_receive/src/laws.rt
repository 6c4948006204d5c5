//! Laws over the definitions. They are proved, and do nothing when they are called.

ghost use Rattle.std.specs.Prelude.{◌≡◌, ◌≢◌, ◌⊎◌, List, ℕ, Option, All, map};
ghost use Rattle.std.specs.List.Sorted.{IsNonDecreasing};
ghost use Rattle.wire_bytes.specs.Bytes.{AreBytes};
ghost use Rattle.held_packets.specs.KeptSet.{drops};
ghost use Rattle.receiver_core.specs.BestOf.{installed_after};
ghost use Rattle.snapshot_hub.specs.Histories.{IsRising, last_of};
ghost use Rattle.run_base.specs.declared.settings.Settings.{Settings};
ghost use Rattle.run_base.specs.declared.status.Status.TheVariants.{Done, NothingInstalled, OverBudget};
ghost use Rattle.run_receive.specs.Events.{events_taken, installed_numbers, published};
ghost use Rattle.run_receive.specs.Outcome.{packets_taken, received};

/// The numbers that the watchers of a receiver are told are those of the instances that are installed one after the other.
pub fn what_is_told_is_published()
    ensures { (c : Settings) (left : List (List ℕ)) → installed_numbers (events_taken c left) ≡ map (λ i. i.number) (published c left) }
{}

/// The numbers of the instances that a receiver installs one after the other never fall, whatever datagrams come: neither those
/// that its watchers are told nor those of what is published.
pub fn numbers_never_fall()
    ensures told { (c : Settings) (left : List (List ℕ)) → All AreBytes left → IsNonDecreasing (installed_numbers (events_taken c left)) }
    ensures published { (c : Settings) (left : List (List ℕ)) → All AreBytes left → IsRising (published c left) }
{}

/// The last instance that is published is the one that is installed in the end, and none is published where none is.
pub fn last_published_is_installed()
    ensures { (c : Settings) (left : List (List ℕ)) → All AreBytes left → last_of (published c left) ≡ installed_after c.budget (packets_taken c left) }
{}

/// A list that was read to its end is told to be over the budget where a packet of the session was over it, and only there.
pub fn over_budget_is_told()
    ensures over { (c : Settings) (left : List (List ℕ)) (torn : Option ℕ) → (received c left torn).status ≡ OverBudget → drops c.budget (packets_taken c left) ≢ 0 }
    ensures none { (c : Settings) (left : List (List ℕ)) (torn : Option ℕ)
        → ((received c left torn).status ≡ Done) ⊎ ((received c left torn).status ≡ NothingInstalled) → drops c.budget (packets_taken c left) ≡ 0 }
{}
