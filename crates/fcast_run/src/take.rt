//! Taking the datagrams of a list.
ghost use Rattle.std.specs.Prelude.{◌≡◌, ◌≢◌, ◌+◌, ◌-◌, ◌≤◌, ◌<◌, ◌^◌, ◌∷◌, ◌++◌, [], ℕ, List, IfOk, OnOk, OnErr, length, take, drop, Some};
ghost use Rattle.edge_io.specs.Faults.{Rose};
ghost use Rattle.run_base.specs.declared.ending.Ending.TheVariants.{TooMany};
ghost use Rattle.run_base.specs.Bounds.{ending_of, limit, asked, datagrams_taken, IsCounted};
ghost use Rattle.run_receive.specs.HasTaken.{HasTaken, HasTakenSome};
ghost use Rattle.run_base.specs.Answers.{Blames};
ghost use Rattle.run_base.specs.Ranges.{IsInRange};
ghost use Rattle.run_base.specs.Tellings.{HearsPart, Tells};
ghost use Rattle.run_receive.specs.Showings.{with_option};
ghost use Rattle.run_receive.specs.Events.{events_of, events_with, published_with, published_of, published};
ghost use Rattle.receiver_core.specs.BestOf.{best};
ghost use Rattle.snapshot_hub.specs.Histories.{last_of};
ghost use Rattle.watch_list.specs.Hearing.{Heard};

use crate::events::{tell_installed, tell_taken};
use edge_io::Datagrams;
use receiver_core::Receiver;
use rs_solve::Steps;
use run_base::{Bound, Ending, Fault, Settings, Step, datagram_buffer, next_within};
use run_receive::{Audience, show_installed};
use std::alloc::{AllocError, Global};
use watch_list::Watch;

/// A list of datagrams that a receiver has taken.
#[derive(Drop)]
pub struct Gathered {
    pub receiver: Receiver,
    pub ending: Ending,
}

/// Connects the datagrams to their place, and has a new receiver take them. The audience is shown each instance that is
/// installed then.
pub fn gather<D: Datagrams, A: Audience>(
    alloc: Global,
    settings: &Settings,
    datagrams: &mut D,
    watchers: &mut Vec<Box<dyn Watch>>,
    audience: &mut A,
) -> Result<Gathered, Fault>
    requires range { IsInRange settings.now }
    requires empty { A.told → A.shown audience.old ≡ [] }
    ensures tsi { IfOk result (λ g. g.receiver.tsi ≡ settings.now.tsi) }
    ensures budget { IfOk result (λ g. g.receiver.budget ≡ settings.now.budget) }
    ensures taken { IfOk result (λ g. D.told datagrams.old → HasTaken g.receiver (datagrams_taken settings.now (D.left datagrams.old))) }
    ensures counted { IsCounted settings.now.bound → IfOk result (λ g. g.ending ≢ TooMany) }
    ensures ending { IfOk result (λ g. D.told datagrams.old → g.ending ≡ ending_of settings.now.bound (D.left datagrams.old) (D.torn datagrams.old)) }
    ensures left { OnOk result (D.told datagrams.old → D.left datagrams.new ≡ drop (asked settings.now.bound) (D.left datagrams.old)) }
    ensures place { OnOk result (D.connected datagrams.new ≡ Some settings.now.place) }
    ensures blames { Blames result (Rose (D.faults datagrams.old) (D.faults datagrams.new)) ⊥ ⊥ ⊥ ⊥ }
    ensures events { D.told datagrams.old → Tells result (events_of settings.now.tsi settings.now.budget (take (limit settings.now.bound) (D.left datagrams.old)))
        (λ n. events_of settings.now.tsi settings.now.budget (take n (D.left datagrams.old)))
        (λ events. Heard (λ v. hearing v) events watchers.old.items watchers.new.items) }
    ensures shown { OnOk result (D.told datagrams.old → A.told → A.shown audience.new ≡ published settings.now (D.left datagrams.old)) }
{
    let mut buffer = datagram_buffer(alloc)?;
    let mut receiver = Receiver::start(alloc, settings.tsi, settings.budget)?;
    let Ok(()) = datagrams.connect(&settings.place) else {
        return Err(Fault::Datagrams);
    };
    let ending = take_all(
        &mut receiver,
        datagrams,
        watchers,
        audience,
        settings.bound,
        buffer.as_mut_slice(),
    )?;
    Ok(Gathered { receiver, ending })
}

/// Has the receiver take the datagrams that are left, as far as the bound goes.
fn take_all<D: Datagrams, A: Audience>(
    receiver: &mut Receiver,
    datagrams: &mut D,
    watchers: &mut Vec<Box<dyn Watch>>,
    audience: &mut A,
    mut bound: Bound,
    buffer: &mut [u8],
) -> Result<Ending, Fault>
    requires buffer { 65535 ≤ length buffer.old }
    requires fresh { HasTaken receiver.old [] }
    requires limit { limit bound < 2 ^ 32 }
    requires empty { A.told → A.shown audience.old ≡ [] }
    ensures taken { OnOk result (D.told datagrams.old → HasTaken receiver.new (take (limit bound) (D.left datagrams.old))) }
    ensures tsi { receiver.new.tsi ≡ receiver.old.tsi }
    ensures budget { receiver.new.budget ≡ receiver.old.budget }
    ensures counted { IsCounted bound → IfOk result (λ ending. ending ≢ TooMany) }
    ensures ending { IfOk result (λ ending. D.told datagrams.old → ending ≡ ending_of bound (D.left datagrams.old) (D.torn datagrams.old)) }
    ensures left { OnOk result (D.told datagrams.old → D.left datagrams.new ≡ drop (asked bound) (D.left datagrams.old)) }
    ensures place { D.connected datagrams.new ≡ D.connected datagrams.old }
    ensures blames { Blames result (Rose (D.faults datagrams.old) (D.faults datagrams.new)) ⊥ ⊥ ⊥ ⊥ }
    ensures grows { D.faults datagrams.old ≤ D.faults datagrams.new }
    ensures events { D.told datagrams.old → Tells result (events_of receiver.old.tsi receiver.old.budget (take (limit bound) (D.left datagrams.old)))
        (λ n. events_of receiver.old.tsi receiver.old.budget (take n (D.left datagrams.old)))
        (λ events. Heard (λ v. hearing v) events watchers.old.items watchers.new.items) }
    ensures shown { OnOk result (D.told datagrams.old → A.told →
        A.shown audience.new ≡ published_of receiver.old.tsi receiver.old.budget (take (limit bound) (D.left datagrams.old))) }
{
    // Nobody asks how many row steps a run takes.
    let mut steps = Steps::start(());
    loop {
        match next_within(datagrams, &mut bound, buffer)? {
            Step::Got(size) => {
                take_one(receiver, &mut steps, watchers, audience, &buffer[..size])?;
            }
            Step::Ended(ending) => return Ok(ending),
        }
    }
}

/// Takes one datagram more, and settles. The watchers are told what became of it, and of another instance that is
/// installed, which the audience is shown then.
fn take_one<L, A: Audience>(
    receiver: &mut Receiver,
    steps: &mut Steps<L>,
    watchers: &mut Vec<Box<dyn Watch>>,
    audience: &mut A,
    datagram: &[u8],
) -> Result<(), AllocError>
    requires some { HasTakenSome receiver.old }
    requires few { receiver.old.drops < 2 ^ 64 - 1 }
    requires last { A.told → last_of (A.shown audience.old) ≡ receiver.old.installed }
    requires room { A.told → length (A.shown audience.old) < 2 ^ 32 - 1 }
    ensures taken { OnOk result ((ds : List (List ℕ)) → receiver.old.drops < 2 ^ 64 - 1 → HasTaken receiver.old ds → HasTaken receiver.new (ds ++ datagram.now ∷ [])) }
    ensures drops { receiver.new.drops ≤ receiver.old.drops + 1 }
    ensures tsi { receiver.new.tsi ≡ receiver.old.tsi }
    ensures budget { receiver.new.budget ≡ receiver.old.budget }
    ensures events { receiver.old.installed ≡ best receiver.old.held →
        OnOk result (Heard (λ v. hearing v) (events_with receiver.old.tsi receiver.old.budget receiver.old.held datagram.now) watchers.old.items watchers.new.items) }
    ensures part { OnErr result (HearsPart (events_with receiver.old.tsi receiver.old.budget receiver.old.held datagram.now)
        (λ events. Heard (λ v. hearing v) events watchers.old.items watchers.new.items)) }
    ensures some { OnOk result (HasTakenSome receiver.new) }
    ensures last { OnOk result (A.told → last_of (A.shown audience.new) ≡ receiver.new.installed) }
    ensures room { OnOk result (A.told → length (A.shown audience.new) ≤ length (A.shown audience.old) + 1) }
    ensures shown { OnOk result (A.told → receiver.old.installed ≡ best receiver.old.held →
        A.shown audience.new ≡ with_option (A.shown audience.old) (published_with receiver.old.tsi receiver.old.budget receiver.old.held datagram.now)) }
{
    let taken = receiver.take(datagram, steps)?;
    tell_taken(watchers, &taken);
    let number = receiver.settle()?;
    tell_installed(watchers, number);
    show_installed(audience, number, receiver.installed())?;
    Ok(())
}
