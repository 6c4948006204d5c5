//! How an event goes to a text.

ghost use Rattle.std.specs.Prelude.{◌≡◌, ◌≤◌, [], ◌++◌, OnOk, OnErr, IsOk, IsErrOf};
ghost use Rattle.edge_io.specs.Faults.{Rose};
ghost use Rattle.watch_list.specs.EventLines.{event_line, bell_line};

use crate::event_line::event_line;
use crate::{Event, Unheard};
use edge_io::{Text, Trouble};

/// Writes the line of the event, in one call of the text.
pub(crate) fn write_line<T: Text>(text: &mut T, event: &Event) -> Result<(), Unheard>
    ensures line { OnOk result (T.told text.old → T.written text.new ≡ T.written text.old ++ event_line event.now) }
    ensures unwritten { OnErr result (T.told text.old → T.written text.new ≡ T.written text.old) }
    ensures told { T.told text.old → T.told text.new }
    ensures deaf { IsErrOf result Unheard.Deaf → Rose (T.faults text.old) (T.faults text.new) }
    ensures grows { T.faults text.old ≤ T.faults text.new }
{
    match text.write(event_line(event).as_str().as_bytes()) {
        Ok(()) => Ok(()),
        Err(Trouble::Failed) => Err(Unheard::Deaf),
        Err(Trouble::Memory) => Err(Unheard::Memory),
    }
}

/// Writes the line of an `Installed`, and nothing of any other event.
pub(crate) fn ring<T: Text>(text: &mut T, event: &Event) -> Result<(), Unheard>
    ensures line { OnOk result (T.told text.old → T.written text.new ≡ T.written text.old ++ bell_line event.now) }
    ensures unwritten { OnErr result (T.told text.old → T.written text.new ≡ T.written text.old) }
    ensures silent { bell_line event.now ≡ [] → text.new ≡ text.old }
    ensures unasked { bell_line event.now ≡ [] → IsOk result }
    ensures told { T.told text.old → T.told text.new }
    ensures deaf { IsErrOf result Unheard.Deaf → Rose (T.faults text.old) (T.faults text.new) }
    ensures grows { T.faults text.old ≤ T.faults text.new }
{
    match event {
        Event::Installed { .. } => write_line(text, event),
        _ => Ok(()),
    }
}
