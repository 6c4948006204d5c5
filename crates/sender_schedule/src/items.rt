//! The objects of a session in the order in which they are sent.

ghost use Rattle.std.specs.Prelude.{◌≡◌, All};
ghost use Rattle.std.specs.List.{flat_map};
ghost use Rattle.sender_plan.specs.Session.{HasObject, IsSession, objects_of};
ghost use Rattle.sender_schedule.specs.Gives.{Gives};
ghost use Rattle.sender_schedule.specs.Schedule.{all_cycles};

use crate::cycles::Cycles;
use sender_plan::Session;
use std::marker::Model;

/// The identifiers of the objects that are left: in each cycle the descriptor and then the objects that it lists.
#[derive(Drop)]
pub(crate) struct Items<'a> {
    listed: &'a [u128],
    cycles: Cycles<'a>,
}

impl<'a> Model for Items<'a> {
    ghost use Rattle.std.specs.Prelude.{ℕ, List, ◌++◌};
    ghost use Rattle.std.specs.List.{flat_map};
    ghost use Rattle.sender_plan.specs.Session.{objects_of};

    ghost Value = { List ℕ };

    ghost view = { λ a. a.listed.now ++ flat_map objects_of a.cycles };
}

impl<'a> Items<'a> {
    /// All objects of a session, as many times as they are sent.
    pub(crate) fn new(session: &'a Session) -> Items<'a>
        ensures all { result ≡ flat_map objects_of (all_cycles session.now.cycles session.now.instances) }
        ensures known { All (HasObject session.now) result }
        ensures session { IsSession session.now }
    {
        Items {
            listed: &[],
            cycles: Cycles::new(session),
        }
    }

    /// The identifier of the next object.
    pub(crate) fn next(&mut self) -> Option<u128>
        ensures { Gives result self.old self.new }
    {
        if let Some((toi, rest)) = self.listed.split_first() {
            self.listed = rest;
            return Some(*toi);
        }
        let instance = self.cycles.next()?;
        self.listed = instance.listed.as_slice();
        Some(instance.descriptor_toi)
    }
}
