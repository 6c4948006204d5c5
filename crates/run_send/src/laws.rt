//! Laws over the definitions. They are proved, and do nothing when they are called.

ghost use Rattle.std.specs.Prelude.{◌≡◌, Ok};
ghost use Rattle.sender_plan.specs.Session.{Session, IsSession};
ghost use Rattle.run_send.specs.Send.{Found, asked, IsPlannedOf};
ghost use Rattle.run_send.specs.declared.sending.Sending.{Sending};

/// A sound session that a send asks for is the plan of what the catalog's text lists, with the bodies that the files have
/// under its names. So what `run` sends with status 0 is a session of which `what_is_sent_is_installed` speaks.
pub fn what_is_asked_is_planned()
    ensures { (found : Found) (s : Sending) (session : Session) → asked found s ≡ Ok session → IsSession session → IsPlannedOf found s session }
{}
