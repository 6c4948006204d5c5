//! The command `send`.
ghost use Rattle.std.specs.Prelude.{◌≡◌, ◌++◌, ◌⊎◌, true, Some, Ok, IfOk, IfErr, OnOk, string_bytes};
ghost use Rattle.edge_io.specs.Faults.{Rose};
ghost use Rattle.sender_plan.specs.Session.{Session, IsSession};
ghost use Rattle.run_base.specs.Answers.{Blames, LeavesNothing, LeavesSink, LeavesText};
ghost use Rattle.run_base.specs.Outcome.{Once};
ghost use Rattle.run_base.specs.Statuses.{is_one_of, leaves_sink};
ghost use Rattle.watch_list.specs.EventLines.{labelled};
ghost use Rattle.run_base.specs.declared.status.Status.TheVariants.{Done, Missing};
ghost use Rattle.run_send.specs.Send.{asked, sent, session_asked, send_statuses, refusal_line, refusal_status, refusal_text};
ghost use Rattle.run_send.specs.Ranges.{AreParams};
ghost use Rattle.run_send.specs.Inner.Stages.{ComesTo, Halts, IsAloneAt, Sends};

use crate::load::load;
use crate::sending::{Refusal, Sending, Stop};
use crate::transmit::transmit;
use edge_io::{Emit, Files, Text, Trouble};
use run_base::{Fault, Status, push_labelled, tell};
use std::alloc::{AllocError, Global};

/// Sends the session that is planned of the catalog and its files, or writes the line of what refuses it. Nothing is sent before
/// everything that can refuse was looked at.
#[tactic(auto, using(crate::proofs::Sends::missed_of, run_base::proofs::Public::nothing_added, crate::proofs::Sends::part_of_all))]
pub fn send<E: Emit, F: Files, T: Text>(
    alloc: Global,
    sending: &Sending,
    files: &mut F,
    emit: &mut E,
    text: &mut T,
) -> Result<Status, Fault>
    requires { AreParams sending.now.params }
    ensures table { IfOk result (λ s. is_one_of send_statuses s ≡ true) }
    ensures status { F.told files.old → IfOk result (λ s. s ≡ (sent (F.found files.old) sending.now).status) }
    ensures text { F.told files.old → T.told text.old → LeavesText Once result (sent (F.found files.old) sending.now).text (T.written text.old) (T.written text.new) }
    ensures unwritten { T.told text.old → LeavesNothing Once result (T.written text.old) (T.written text.new) }
    ensures sent { F.told files.old → E.told emit.old → LeavesSink Once result (sent (F.found files.old) sending.now).sent (E.sent emit.old) (E.sent emit.new) }
    // Whatever was sent, it is of a sound session.
    ensures sound { F.told files.old → (s : Session) → session_asked (F.found files.old) sending.now ≡ Some s → (E.sent emit.new ≡ E.sent emit.old) ⊎ IsSession s }
    ensures alone { leaves_sink result ≡ true → emit.new ≡ emit.old }
    ensures place { IfOk result (λ s. s ≡ Done → E.connected emit.new ≡ Some sending.now.place) }
    ensures missed { IfOk result (λ s. s ≡ Missing → Rose (F.misses files.old) (F.misses files.new)) }
    ensures blames { Blames result ⊥ (Rose (T.faults text.old) (T.faults text.new)) (Rose (E.faults emit.old) (E.faults emit.new)) ⊥ (Rose (F.faults files.old) (F.faults files.new)) }
{
    match send_files(alloc, sending, files, emit) {
        Ok(()) => Ok(Status::Done),
        Err(Stop::Refused(refusal)) => refuse(alloc, &refusal, text),
        Err(Stop::Emit) => Err(Fault::Emit),
        Err(Stop::Files) => Err(Fault::Files),
        Err(Stop::Memory) => Err(Fault::Memory),
    }
}

/// Sends the session.
#[tactic(auto, using(crate::proofs::Sends::is_refused, crate::proofs::Sends::is_sent, crate::proofs::Sends::sound_of, crate::proofs::Sends::nothing_sent_of, crate::proofs::Sends::halts_at_files, run_base::proofs::Public::nothing_added))]
fn send_files<E: Emit, F: Files>(
    alloc: Global,
    sending: &Sending,
    files: &mut F,
    emit: &mut E,
) -> Result<(), Stop>
    requires { AreParams sending.now.params }
    ensures comes { F.told files.old → ComesTo (sent (F.found files.old) sending.now) result }
    ensures sound { F.told files.old → (s : Session) → session_asked (F.found files.old) sending.now ≡ Some s → (E.sent emit.new ≡ E.sent emit.old) ⊎ IsSession s }
    ensures sends { F.told files.old → E.told emit.old
        → Sends result (sent (F.found files.old) sending.now).sent (E.sent emit.old) (E.sent emit.new) }
    ensures alone { IfErr result (λ stop. IsAloneAt stop (emit.new ≡ emit.old)) }
    ensures place { OnOk result (E.connected emit.new ≡ Some sending.now.place) }
    ensures halts { Halts result
        (Rose (E.faults emit.old) (E.faults emit.new)) (Rose (F.faults files.old) (F.faults files.new)) (Rose (F.misses files.old) (F.misses files.new)) }
{
    let session = match load(alloc, sending, files) {
        Ok(session) => session,
        Err(stop) => return Err(stop),
    };
    match transmit(alloc, &sending.place, &session, emit) {
        Ok(()) => Ok(()),
        Err(Trouble::Failed) => Err(Stop::Emit),
        Err(Trouble::Memory) => Err(Stop::Memory),
    }
}

/// Writes the line of a refusal, and answers how the send ends.
fn refuse<T: Text>(alloc: Global, refusal: &Refusal, text: &mut T) -> Result<Status, Fault>
    ensures status { IfOk result (λ s. s ≡ refusal_status refusal.now) }
    ensures text { T.told text.old → LeavesText Once result (refusal_line refusal.now) (T.written text.old) (T.written text.new) }
    ensures blames { Blames result ⊥ (Rose (T.faults text.old) (T.faults text.new)) ⊥ ⊥ ⊥ }
{
    let line = refusal_line(alloc, refusal)?;
    tell(text, line.as_str(), refusal.status())
}

/// The line that says why nothing is sent.
fn refusal_line(alloc: Global, refusal: &Refusal) -> Result<String, AllocError>
    ensures { IfOk result (λ text. string_bytes text ≡ refusal_line refusal.now) }
{
    let mut text = String::new(alloc);
    push_refusal(alloc, &mut text, refusal)?;
    text.push_str("\n")?;
    Ok(text)
}

fn push_refusal(alloc: Global, text: &mut String, refusal: &Refusal) -> Result<(), AllocError>
    ensures { OnOk result (string_bytes text.new ≡ string_bytes text.old ++ refusal_text refusal.now) }
{
    match refusal {
        Refusal::Line { line, cause } => {
            let (line, cause) = (u128::from(*line), u128::from(*cause));
            push_numbers(
                alloc,
                text,
                "catalog refused: line ",
                line,
                " cause ",
                cause,
            )
        }
        Refusal::Plan { cause, at } => {
            let (cause, at) = (u128::from(*cause), u128::from(*at));
            push_numbers(alloc, text, "plan refused: cause ", cause, " at ", at)
        }
        Refusal::Absent(name) => push_name(text, "no such file: ", name.as_str()),
        Refusal::TooBig(name) => push_name(text, "file too large: ", name.as_str()),
    }
}

/// Adds two numbers, each after its label.
fn push_numbers(
    alloc: Global,
    text: &mut String,
    label: &str,
    number: u128,
    other_label: &str,
    other: u128,
) -> Result<(), AllocError>
    ensures { OnOk result (string_bytes text.new ≡ string_bytes text.old ++ (labelled label.now number ++ labelled other_label.now other)) }
{
    push_labelled(alloc, text, label, number)?;
    push_labelled(alloc, text, other_label, other)
}

/// Adds a name after a label.
fn push_name(text: &mut String, label: &str, name: &str) -> Result<(), AllocError>
    ensures { OnOk result (string_bytes text.new ≡ string_bytes text.old ++ (label.now ++ name.now)) }
{
    text.push_str(label)?;
    text.push_str(name)
}
