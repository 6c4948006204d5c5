//! Receiving a session.
ghost use Rattle.std.specs.Prelude.{◌≡◌, ◌≤◌, [], true, Some, IfOk, drop};
ghost use Rattle.edge_io.specs.Faults.{Rose};
ghost use Rattle.run_base.specs.Answers.{Blames, AfterTaking, LeavesNothing, LeavesText, LeavesShelf};
ghost use Rattle.run_base.specs.Outcome.{Once};
ghost use Rattle.run_base.specs.Ranges.{IsInRange};
ghost use Rattle.run_base.specs.Statuses.{is_one_of, leaves_shelf};
ghost use Rattle.run_base.specs.Tellings.{Tells};
ghost use Rattle.run_receive.specs.Events.{published};
ghost use Rattle.run_receive.specs.Outcome.{bound_statuses, received};
ghost use Rattle.watch_list.specs.Hearing.{Heard};

use crate::take::gather;
use edge_io::{Datagrams, Shelf, Text};
use run_base::{Fault, Settings, Status};
use run_receive::{Audience, conclude};
use std::alloc::Global;
use watch_list::Watch;

/// Takes the datagrams of the place, installs the best instance, writes the report, and answers how the run ended. The audience
/// is closed as soon as no further datagram will be taken.
pub fn receive<D: Datagrams, S: Shelf, T: Text, A: Audience>(
    alloc: Global,
    settings: &Settings,
    datagrams: &mut D,
    shelf: &mut S,
    text: &mut T,
    watchers: &mut Vec<Box<dyn Watch>>,
    audience: &mut A,
) -> Result<Status, Fault>
    requires range { IsInRange settings.now }
    requires empty { A.told → A.shown audience.old ≡ [] }
    ensures table { IfOk result (λ s. is_one_of (bound_statuses settings.now.bound) s ≡ true) }
    ensures status { D.told datagrams.old → IfOk result (λ s. s ≡ (received settings.now (D.left datagrams.old) (D.torn datagrams.old)).status) }
    ensures text { D.told datagrams.old → T.told text.old →
        LeavesText Once result (received settings.now (D.left datagrams.old) (D.torn datagrams.old)).text (T.written text.old) (T.written text.new) }
    ensures unwritten { T.told text.old → LeavesNothing Once result (T.written text.old) (T.written text.new) }
    ensures shelf { D.told datagrams.old → S.told shelf.old →
        LeavesShelf result (received settings.now (D.left datagrams.old) (D.torn datagrams.old)).calls (S.holds shelf.old) (S.holds shelf.new) }
    ensures apart { leaves_shelf result ≡ true → shelf.new ≡ shelf.old }
    ensures left { D.told datagrams.old → AfterTaking result
        (D.left datagrams.new ≡ drop (received settings.now (D.left datagrams.old) (D.torn datagrams.old)).asked (D.left datagrams.old)) }
    ensures place { AfterTaking result (D.connected datagrams.new ≡ Some settings.now.place) }
    ensures blames { Blames result (Rose (D.faults datagrams.old) (D.faults datagrams.new)) (Rose (T.faults text.old) (T.faults text.new)) ⊥
        (Rose (S.faults shelf.old) (S.faults shelf.new)) ⊥ }
    ensures told { T.told text.old → T.told text.new }
    ensures grows { T.faults text.old ≤ T.faults text.new }
    ensures events { D.told datagrams.old → Tells result (received settings.now (D.left datagrams.old) (D.torn datagrams.old)).events
        (received settings.now (D.left datagrams.old) (D.torn datagrams.old)).first_events
        (λ events. Heard (λ v. hearing v) events watchers.old.items watchers.new.items) }
    ensures shown { D.told datagrams.old → A.told → AfterTaking result (A.shown audience.new ≡ published settings.now (D.left datagrams.old)) }
{
    let gathered = gather(alloc, settings, datagrams, watchers, audience);
    audience.close();
    let gathered = gathered?;
    let receiver = &gathered.receiver;
    conclude(
        alloc,
        gathered.ending,
        receiver.drops(),
        receiver.installed(),
        shelf,
        text,
    )
}
