//! The instances of a session, each as many times as it is sent.

ghost use Rattle.std.specs.Prelude.{◌≡◌, ◌≤◌, option_map};
ghost use Rattle.sender_plan.specs.Session.{IsSession};
ghost use Rattle.sender_schedule.specs.Gives.{Gives};
ghost use Rattle.sender_schedule.specs.Schedule.{all_cycles};

use sender_plan::{SentInstance, Session};
use std::marker::Model;

/// The instance of each cycle that is left.
#[derive(Drop)]
pub(crate) struct Cycles<'a> {
    cycles: u16,
    done: u16,
    instances: &'a [SentInstance],
}

impl<'a> Model for Cycles<'a> {
    ghost use Rattle.std.specs.Prelude.{◌<◌, List};
    ghost use Rattle.sender_plan.specs.Session as plan;
    ghost use Rattle.sender_schedule.specs.Inner.Rest.{cycles_from};

    ghost Value = { List plan.SentInstance };

    ghost view = { λ a. cycles_from a.cycles a.done a.instances.now };

    ghost invariant = { λ a. a.done < a.cycles };
}

impl<'a> Cycles<'a> {
    /// All cycles of a session.
    pub(crate) fn new(session: &'a Session) -> Cycles<'a>
        ensures all { result ≡ all_cycles session.now.cycles session.now.instances }
        ensures session { IsSession session.now }
    {
        Cycles {
            cycles: session.cycles(),
            done: 0,
            instances: session.instances(),
        }
    }

    /// The instance of the next cycle.
    pub(crate) fn next(&mut self) -> Option<&'a SentInstance>
        ensures { Gives (option_map (λ i. i.now) result) self.old self.new }
    {
        let (instance, rest) = self.instances.split_first()?;
        if self.done + 1 < self.cycles {
            self.done += 1;
        } else {
            self.done = 0;
            self.instances = rest;
        }
        Some(instance)
    }
}
