//! Who is told each event of a run.

ghost use Rattle.std.specs.Prelude.{◌≡◌, ◌-◌, ◌^◌, ◌≤◌, [], ◌∷◌, OnOk, OnErr, IsErrOf, None, slice_get};
ghost use Rattle.edge_io.specs.Faults.{Rose};

use crate::Event;

/// Why a watcher did not hear an event. It is dropped then.
#[derive(Clone, Copy, PartialEq, Eq, Debug)]
pub enum Unheard {
    /// Its device failed, or its count of events is full.
    Deaf,
    /// There was no memory.
    Memory,
}

/// Someone who is told each event of a run.
pub trait Watch: Drop {
    ghost use Rattle.watch_list.specs.Hearing.{Hearing, HasHeard};

    /// What it has heard, how often it failed to hear, and what it may refuse.
    ghost hearing: { Self → Hearing };

    /// Hears one event. An error says that it was not heard: what it heard before stays, and its
    /// count of faults rises.
    fn hear(&mut self, event: &Event) -> Result<(), Unheard>
        ensures heard { OnOk result (HasHeard (event.now ∷ []) (hearing self.old) (hearing self.new)) }
        ensures told { (hearing self.old).told → (hearing self.new).told }
        ensures same_number { OnErr result ((hearing self.new).number ≡ (hearing self.old).number) }
        ensures same_events { OnErr result ((hearing self.old).told → (hearing self.new).events ≡ (hearing self.old).events) }
        ensures full { (hearing self.old).number ≡ 2 ^ 64 - 1 → IsErrOf result Unheard.Deaf }
        ensures rose { OnErr result (Rose (hearing self.old).faults (hearing self.new).faults) }
        ensures grows { (hearing self.old).faults ≤ (hearing self.new).faults }
        ensures refuses { OnErr result ((hearing self.old).refuses [] event.now (hearing self.new).faults) };

    /// How many events it heard.
    fn tally(&self) -> u64
        ensures { result ≡ (hearing self.now).number };

    /// The event at this place, counted from 0: none past the end, and none where the watcher keeps
    /// no list.
    fn heard(&self, place: u64) -> Option<Event>
        ensures told { (hearing self.now).told → result ≡ slice_get (hearing self.now).events place }
        ensures untold { ((hearing self.now).told → ⊥) → result ≡ None };
}
