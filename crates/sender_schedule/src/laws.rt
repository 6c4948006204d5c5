//! Laws of the schedule. They speak of the definitions alone.

ghost use Rattle.std.specs.Prelude.{◌≡◌, true, All};
ghost use Rattle.oti_blocks.specs.Partition.{ObjectInformation, IsSound};
ghost use Rattle.carousel_cid.specs.Repeats.{are_different};
ghost use Rattle.sender_plan.specs.Session.{Session, SentInstance, IsSession, objects_of};
ghost use Rattle.sender_schedule.specs.declared.symbol_id.SymbolId.{SymbolId};
ghost use Rattle.sender_schedule.specs.SymbolIds.{IsSymbolId, symbol_ids};
ghost use Rattle.sender_schedule.specs.Times.{times};
ghost use Rattle.sender_schedule.specs.Schedule.{schedule};
ghost use Rattle.sender_schedule.specs.Belonging.{Belongs};

/// Each datagram of a session's schedule spells a packet of the session.
pub fn each_belongs()
    ensures { (s : Session) → IsSession s → All (Belongs s) (schedule s) }
{}

/// Among the symbols of an object, and so in each cycle that has the object, each of its symbols stands exactly once,
/// and there is no other. The objects of a cycle differ.
pub fn each_once()
    ensures once { (o : ObjectInformation) → IsSound o → (p : SymbolId) → IsSymbolId o p → times p (symbol_ids o) ≡ 1 }
    ensures only { (o : ObjectInformation) → All (IsSymbolId o) (symbol_ids o) }
    ensures different { (s : Session) → IsSession s → All (λ i. are_different (objects_of i) ≡ true) s.instances }
{}
