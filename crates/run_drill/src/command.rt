//! The command `drill`.
ghost use Rattle.std.specs.Prelude.{◌≡◌, ◌+◌, ◌-◌, ◌^◌, true, None, [], min, IfOk, OnOk, OnErr, length};
ghost use Rattle.edge_io.specs.Faults.{Rose};
ghost use Rattle.held_packets.specs.Held.{nothing_held};
ghost use Rattle.held_packets.specs.Verdict.{held_after, steps_of};
ghost use Rattle.receiver_core.specs.BestOf.{installed_after};
ghost use Rattle.receiver_core.specs.Classes.{packets_of};
ghost use Rattle.run_drill.specs.Drill as specs;
ghost use Rattle.run_drill.specs.Drill.{HoldsPart, drill_statuses, drilled};
ghost use Rattle.run_base.specs.Statuses.{is_one_of};
ghost use Rattle.run_base.specs.Outcome.{Once};
ghost use Rattle.run_base.specs.Answers.{Blames, LeavesText};

use crate::feed::feed;
use crate::generator::Generator;
use crate::link::delivered;
use crate::sending::sent;
use crate::summary::{Summary, summary_lines, summary_status, summed};
use compound_object::Blob;
use edge_io::Text;
use receiver_core::Receiver;
use rs_solve::Steps;
use run_base::{Fault, Status, tell};
use std::alloc::{AllocError, Global};

/// The session of a drill.
const TSI: u64 = 1;

/// How many bytes of symbols its receiver may hold.
const BUDGET: u64 = 67_108_864;

/// Has the receiver take the datagrams of the drill that starts with this number, and says what came of it.
///
/// Twelve files are drawn and sent in three instances; each datagram is lost, delivered or delivered twice, and what is
/// delivered is put in another order. The row steps that the receiver's solving takes are added. An error says that there
/// was no memory; then the receiver may have taken some of the datagrams, the first ones, and row steps may have been
/// added.
pub fn drill_into<L>(
    alloc: Global,
    start: u64,
    receiver: &mut Receiver,
    steps: &mut Steps<L>,
) -> Result<Summary, AllocError>
    requires fresh { receiver.old ≡ record { tsi = 1; budget = 67108864; held = nothing_held; installed = None; settled = []; drops = 0 } }
    ensures held { OnOk result (receiver.new.held ≡ held_after 67108864 (packets_of 1 (specs.deliveries start))) }
    ensures installed { OnOk result (receiver.new.installed ≡ installed_after 67108864 (packets_of 1 (specs.deliveries start))) }
    ensures summary { IfOk result (λ s. s ≡ specs.summary start) }
    ensures part { OnErr result (HoldsPart (specs.deliveries start) receiver.new.held) }
    ensures count { OnOk result (steps.new.count ≡ min (steps.old.count + steps_of 67108864 (packets_of 1 (specs.deliveries start))) (2 ^ 64 - 1)) }
{
    let made = deliveries(alloc, start)?;
    feed(receiver, steps, made.datagrams.as_slice())?;
    summed(made.sent, made.datagrams.len() as u64, receiver.installed())
}

/// What the receiver of a drill gets, and how many datagrams were sent.
#[derive(Drop)]
struct Made {
    sent: u64,
    datagrams: Vec<Blob>,
}

/// The deliveries of the drill that starts with this number.
fn deliveries(alloc: Global, start: u64) -> Result<Made, AllocError>
    ensures sent { IfOk result (λ d. d.sent ≡ length (specs.sent start)) }
    ensures datagrams { IfOk result (λ d. d.datagrams.items ≡ specs.deliveries start) }
{
    let mut generator = Generator::new(start);
    let sent = sent(alloc, &mut generator)?;
    let datagrams = delivered(alloc, &mut generator, sent.as_slice())?;
    Ok(Made {
        sent: sent.len() as u64,
        datagrams,
    })
}

/// Does the drill that starts with this number, writes its lines, and answers how it ended.
pub fn drill<T: Text>(alloc: Global, start: u64, text: &mut T) -> Result<Status, Fault>
    ensures table { IfOk result (λ s. is_one_of drill_statuses s ≡ true) }
    ensures status { IfOk result (λ s. s ≡ (drilled start).status) }
    ensures text { T.told text.old → LeavesText Once result (drilled start).text (T.written text.old) (T.written text.new) }
    ensures blames { Blames result ⊥ (Rose (T.faults text.old) (T.faults text.new)) ⊥ ⊥ ⊥ }
{
    let mut receiver = Receiver::start(alloc, TSI, BUDGET)?;
    // Nobody asks how many row steps a drill takes.
    let mut steps = Steps::start(());
    let summary = drill_into(alloc, start, &mut receiver, &mut steps)?;
    let lines = summary_lines(alloc, &summary)?;
    tell(text, lines.as_str(), summary_status(summary.installed))
}
