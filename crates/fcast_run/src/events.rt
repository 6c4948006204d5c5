//! What the watchers of a run are told.
ghost use Rattle.std.specs.Prelude.{◌∷◌, []};
ghost use Rattle.watch_list.specs.Hearing.{Heard};
ghost use Rattle.run_receive.specs.Events.{event_of, announcement};

use crate::telling::tell_all;
use receiver_core::Taken;
use run_receive::event_of;
use watch_list::{Event, Watch};

/// Tells the watchers what became of a datagram.
pub fn tell_taken(watchers: &mut Vec<Box<dyn Watch>>, taken: &Taken)
    ensures { Heard (λ v. hearing v) (event_of taken.now ∷ []) watchers.old.items watchers.new.items }
{
    let _dropped = tell_all(watchers, &event_of(taken));
}

/// Tells the watchers the number of another instance that is installed, where one is.
pub fn tell_installed(watchers: &mut Vec<Box<dyn Watch>>, another: Option<u32>)
    ensures { Heard (λ v. hearing v) (announcement another) watchers.old.items watchers.new.items }
{
    if let Some(number) = another {
        let _dropped = tell_all(watchers, &Event::Installed { number });
    }
}
