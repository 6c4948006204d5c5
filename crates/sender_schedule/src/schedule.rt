//! The schedule, datagram by datagram.

ghost use Rattle.std.specs.Prelude.{◌≡◌, ◌≤◌, [], All, Some, None, if◌then◌else◌, option_map, IfOk, OnErr, IsFalse, vec_len, ◌++◌};
ghost use Rattle.std.specs.List.{flat_map};
ghost use Rattle.sender_plan.specs.Session.{HasObject};
ghost use Rattle.sender_schedule.specs.Gives.{Gives};
ghost use Rattle.sender_schedule.specs.SymbolIds.{opening};
ghost use Rattle.sender_schedule.specs.Schedule.{schedule, object_datagrams};
ghost use Rattle.sender_schedule.specs.Inner.Rest.{left_of, IsDue};

use crate::datagram::datagram_into;
use crate::items::Items;
use crate::symbol_id::{FIRST, SymbolId, after, first};
use object_symbols::WeightRow;
use sender_plan::{SentObject, Session};
use std::alloc::AllocError;
use std::marker::Model;

/// The datagrams of a session that are still to be sent.
#[derive(Drop)]
pub struct Schedule<'a> {
    session: &'a Session,
    items: Items<'a>,
    object: Option<&'a SentObject>,
    id: SymbolId,
    weights: WeightRow,
}

impl<'a> Model for Schedule<'a> {
    ghost use Rattle.std.specs.Prelude.{ℕ, ◌++◌, List, All, option_map};
    ghost use Rattle.std.specs.List.{flat_map};
    ghost use Rattle.sender_plan.specs.Session.{HasObject};
    ghost use Rattle.sender_schedule.specs.Schedule.{object_datagrams};
    ghost use Rattle.sender_schedule.specs.Inner.Rest.{left_of, IsDue};

    ghost Value = { List (List ℕ) };

    ghost view = { λ a. left_of a.session.now.tsi (option_map (λ o. o.now) a.object) a.id ++ flat_map (object_datagrams a.session.now) a.items };

    ghost invariant = { λ a. All (HasObject a.session.now) a.items × IsDue a.items (option_map (λ o. o.now) a.object) a.id };
}

impl<'a> Schedule<'a> {
    /// The schedule of a session, at its first datagram.
    #[tactic(auto, using(crate::proofs::Objects::schedule_by_objects))]
    pub fn new(session: &'a Session) -> Schedule<'a>
        ensures { result ≡ schedule session.now }
    {
        let mut items = Items::new(session);
        let object = open(session, &mut items);
        Schedule {
            session,
            items,
            object,
            id: FIRST,
            weights: WeightRow::new(),
        }
    }

    /// Leaves the next datagram in `out`, alone, and answers true; at the end, false, and `out` is empty. A datagram
    /// has at most 65,535 bytes. It fails only for want of memory, and then the schedule is as it was and `out` is
    /// empty.
    pub fn next(&mut self, out: &mut Vec<u8>) -> Result<bool, AllocError>
        ensures ok { IfOk result (λ more. Gives (if more then Some out.new.items else None) self.old self.new) }
        ensures end { IfOk result (λ more. IsFalse more → out.new.items ≡ []) }
        ensures err { OnErr result (self.new ≡ self.old) }
        ensures empty { OnErr result (out.new.items ≡ []) }
        ensures short { IfOk result (λ more. vec_len out.new ≤ 65535) }
    {
        out.clear();
        let Some(object) = self.object else {
            return Ok(false);
        };
        let session = self.session;
        datagram_into(session.tsi(), object, self.id, &mut self.weights, out)?;
        match after(&object.oti, self.id) {
            Some(id) => self.id = id,
            None => {
                self.object = open(session, &mut self.items);
                self.id = FIRST;
            }
        }
        Ok(true)
    }
}

/// The next object that is left, whose symbols are to be sent from the first on.
#[tactic(auto, using(crate::proofs::Objects::can_be_sent))]
fn open<'a>(session: &'a Session, items: &mut Items<'a>) -> Option<&'a SentObject>
    requires { All (HasObject session.now) items.old }
    ensures rest { flat_map (object_datagrams session.now) items.old
        ≡ left_of session.now.tsi (option_map (λ o. o.now) result) opening ++ flat_map (object_datagrams session.now) items.new }
    ensures due { IsDue items.new (option_map (λ o. o.now) result) opening }
    ensures known { All (HasObject session.now) items.new }
{
    let toi = items.next()?;
    let object = session.object(toi);
    first(&object.oti);
    Some(object)
}
