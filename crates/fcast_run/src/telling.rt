//! How an event goes to a list of watchers.
//!
//! It stands in the crate of the top calls: the check marks as hiding a function that lends a list of boxes to another
//! crate, and the gate refuses what hides.

ghost use Rattle.std.specs.Prelude.{◌≡◌, ◌+◌, [], ◌∷◌, IsTrue, not, vec_len};
ghost use Rattle.edge_io.specs.Faults.{Rose};
ghost use Rattle.watch_list.specs.Hearing.{Heard, HasHeard};

use watch_list::{Event, Watch};

/// Lets each watcher hear the event, in order. Those that do not hear it are dropped, the others keep
/// their order. Answers how many were dropped, and takes no memory.
pub fn tell_all(watchers: &mut Vec<Box<dyn Watch>>, event: &Event) -> usize
    ensures heard { Heard (λ v. hearing v) (event.now ∷ []) watchers.old.items watchers.new.items }
    ensures dropped { result + vec_len watchers.new ≡ vec_len watchers.old }
{
    let mut place: usize = 0;
    let mut dropped: usize = 0;
    while place < watchers.len() {
        if tell_one(&mut watchers[place], event) {
            place += 1;
        } else {
            let _lost = watchers.remove(place);
            dropped += 1;
        }
    }
    dropped
}

/// Says whether the watcher heard the event.
fn tell_one(watcher: &mut Box<dyn Watch>, event: &Event) -> bool
    ensures heard { IsTrue result → HasHeard (event.now ∷ []) (hearing watcher.old) (hearing watcher.new) }
    ensures refuses { IsTrue (not result) → (hearing watcher.old).refuses [] event.now (hearing watcher.new).faults }
    ensures rose { IsTrue (not result) → Rose (hearing watcher.old).faults (hearing watcher.new).faults }
{
    watcher.hear(event).is_ok()
}
