//! Laws over the definitions. They are proved, and do nothing when they are called.

ghost use Rattle.std.specs.Prelude.{◌≡◌, ◌≤◌, ◌⊎◌, ◌++◌, ◌∷◌, [], List, ℕ, Option, Some, Ok, Err, All};
ghost use Rattle.std.specs.List.{Contains};
ghost use Rattle.alc_packet.specs.Packet.{SymbolPacket};
ghost use Rattle.sender_plan.specs.declared.params.Params.{Params};
ghost use Rattle.sender_plan.specs.CatalogInstance.{CatalogInstance};
ghost use Rattle.sender_plan.specs.Installed.{shown_of};
ghost use Rattle.sender_plan.specs.PlanOf.{IsPlanOf};
ghost use Rattle.sender_plan.specs.Session.{Session, IsSession};
ghost use Rattle.sender_schedule.specs.Schedule.{schedule};
ghost use Rattle.held_packets.specs.Session as headline;
ghost use Rattle.held_packets.specs.KeptSet.{kept, drops, gathered, set_count, ready_objects};
ghost use Rattle.carousel_cid.specs.Instances.{Shown};
ghost use Rattle.receiver_core.specs.Best.{IsBestOf};
ghost use Rattle.receiver_core.specs.BestOf.{installed_after};
ghost use Rattle.receiver_core.specs.Classes.{packets_of};
ghost use Rattle.run_base.specs.Bounds.{ending_of};
ghost use Rattle.run_base.specs.Statuses.{number};
ghost use Rattle.run_base.specs.declared.ending.Ending.TheVariants.{End};
ghost use Rattle.run_base.specs.declared.fault.Fault.TheVariants.{Memory};
ghost use Rattle.run_base.specs.declared.settings.Settings.{Settings};
ghost use Rattle.run_receive.specs.Outcome.{packets_taken, received};
ghost use Rattle.run_headline.specs.Headline.{IsDatagramOf};
ghost use Rattle.run_headline.specs.LastInstance.{AreReadyIn};
ghost use Rattle.run_headline.specs.SentSession.{objects_sent};
ghost use Rattle.run_headline.specs.WithinBudget.{IsWithinBudget, status_with};

/// What a sender sends is a session of the receiver's headline: its objects by their identifiers are one, and each
/// datagram of its schedule is one of it. So every selection of what was sent, in any order and with repeats, is a list
/// of which the clause `headline` of `run` speaks.
pub fn what_is_sent_is_a_session()
    ensures session { (s : Session) → IsSession s → headline.IsSession (objects_sent s) }
    ensures datagrams { (s : Session) → IsSession s → All (IsDatagramOf (objects_sent s) s.tsi) (schedule s) }
{}

/// The last instance of a catalog is what a receiver installs from any packets of the catalog's session, in any order and
/// with repeats, that are within the budget and among which its descriptor and its files each have, in every source block,
/// at least k distinct symbols. What is installed is the instance in the catalog's own words: its number, and of each of
/// its files, in order and each once, the location, the type and, byte for byte, the body under its name.
pub fn what_is_sent_is_installed()
    ensures best { (earlier : List CatalogInstance) (last : CatalogInstance) (bodies : List (List ℕ)) (params : Params) (s : Session)
        → IsPlanOf (earlier ++ last ∷ []) bodies params s → (budget : ℕ) (ps : List SymbolPacket) → headline.AreOf (objects_sent s) ps
        → set_count (gathered ps) ≤ budget → AreReadyIn (objects_sent s) (gathered ps) (shown_of (earlier ++ last ∷ []) bodies last)
        → IsBestOf (ready_objects (objects_sent s) (gathered (kept budget ps))) (Some (shown_of (earlier ++ last ∷ []) bodies last)) }
    ensures installed { (earlier : List CatalogInstance) (last : CatalogInstance) (bodies : List (List ℕ)) (params : Params) (s : Session)
        → IsPlanOf (earlier ++ last ∷ []) bodies params s → (budget : ℕ) (ps : List SymbolPacket) → headline.AreOf (objects_sent s) ps
        → set_count (gathered ps) ≤ budget → AreReadyIn (objects_sent s) (gathered ps) (shown_of (earlier ++ last ∷ []) bodies last)
        → installed_after budget ps ≡ Some (shown_of (earlier ++ last ∷ []) bodies last) }
    // The same of any datagrams of the session's schedule.
    ensures datagrams { (earlier : List CatalogInstance) (last : CatalogInstance) (bodies : List (List ℕ)) (params : Params) (s : Session)
        → IsPlanOf (earlier ++ last ∷ []) bodies params s → (budget : ℕ) (ds : List (List ℕ)) → All (Contains (schedule s)) ds
        → set_count (gathered (packets_of s.tsi ds)) ≤ budget
        → AreReadyIn (objects_sent s) (gathered (packets_of s.tsi ds)) (shown_of (earlier ++ last ∷ []) bodies last)
        → installed_after budget (packets_of s.tsi ds) ≡ Some (shown_of (earlier ++ last ∷ []) bodies last) }
{}

/// Of a session's list whose packets are within the budget together no packet is over the budget. So a receiving that reads it
/// to its end, and that no device stops, answers 0 where the packets make an instance ready, 2 where they make none ready,
/// or 9 for want of memory.
pub fn nothing_is_over_budget()
    ensures none { (s : headline.Session) (c : Settings) (left : List (List ℕ)) → headline.IsSession s → IsWithinBudget s c left
        → drops c.budget (packets_taken c left) ≡ 0 }
    ensures status { (s : headline.Session) (c : Settings) (left : List (List ℕ)) → headline.IsSession s → IsWithinBudget s c left
        → (torn : Option ℕ) → ending_of c.bound left torn ≡ End → (best : Option Shown) → IsBestOf (ready_objects s (gathered (packets_taken c left))) best
        → (received c left torn).status ≡ status_with best }
    // The same of the number, as the clause `completes` of `run` has it.
    ensures answers { (s : headline.Session) (c : Settings) (left : List (List ℕ)) → headline.IsSession s → IsWithinBudget s c left
        → (torn : Option ℕ) → ending_of c.bound left torn ≡ End → (best : Option Shown) → IsBestOf (ready_objects s (gathered (packets_taken c left))) best
        → (result : ℕ) → (result ≡ number (Ok (received c left torn).status)) ⊎ (result ≡ number (Err Memory))
        → (result ≡ number (Ok (status_with best))) ⊎ (result ≡ number (Err Memory)) }
{}
