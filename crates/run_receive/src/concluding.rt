//! What a run does once the datagrams are taken.
ghost use Rattle.std.specs.Prelude.{◌≡◌, ◌≤◌, true, [], IfOk, OnOk, option_map};
ghost use Rattle.edge_io.specs.Faults.{Rose};
ghost use Rattle.run_receive.specs.Texts.{best_lines};
ghost use Rattle.run_receive.specs.Outcome.{base_status, end_status, calls_of, report_of};
ghost use Rattle.run_base.specs.Answers.{Blames, LeavesText, LeavesShelf};
ghost use Rattle.run_base.specs.Outcome.{Once};
ghost use Rattle.run_base.specs.Statuses.{leaves_shelf};

use crate::report::{best_lines, report_of};
use crate::shelve::install;
use carousel_cid::Instance;
use edge_io::{Shelf, Text, Trouble};
use run_base::{Ending, Fault, Status, tell};
use std::alloc::Global;

/// Installs the instance where the list was read to its end, writes the report, and answers how the run ended. All memory is
/// taken before the shelf is touched, but for what shelf and text take themselves.
pub fn conclude<S: Shelf, T: Text>(
    alloc: Global,
    ending: Ending,
    drops: u64,
    installed: Option<&Instance>,
    shelf: &mut S,
    text: &mut T,
) -> Result<Status, Fault>
    ensures status { IfOk result (λ s. s ≡ base_status ending drops (option_map (λ i. i.now) installed.entry)) }
    ensures text { T.told text.old →
        LeavesText Once result (report_of ending drops (option_map (λ i. i.now) installed.entry)) (T.written text.old) (T.written text.new) }
    ensures shelf { S.told shelf.old → LeavesShelf result (calls_of ending (option_map (λ i. i.now) installed.entry)) (S.holds shelf.old) (S.holds shelf.new) }
    ensures apart { leaves_shelf result ≡ true → shelf.new ≡ shelf.old }
    ensures told { T.told text.old → T.told text.new }
    ensures blames { Blames result ⊥ (Rose (T.faults text.old) (T.faults text.new)) ⊥ (Rose (S.faults shelf.old) (S.faults shelf.new)) ⊥ }
    ensures grows { T.faults text.old ≤ T.faults text.new }
{
    let best = best_lines(alloc, installed)?;
    let report = report_of(alloc, best.as_str(), drops, ending)?;
    shelve(shelf, ending, installed, best.as_bytes())?;
    let status = base_status(ending, drops, installed);
    tell(text, report.as_str(), status)
}

/// Gives the shelf the instance where the list was read to its end, and tells a trouble of the shelf as such.
fn shelve<S: Shelf>(
    shelf: &mut S,
    ending: Ending,
    installed: Option<&Instance>,
    best: &[u8],
) -> Result<(), Fault>
    requires { best.now ≡ best_lines (option_map (λ i. i.now) installed) }
    ensures shelf { S.told shelf.old → LeavesShelf result (calls_of ending (option_map (λ i. i.now) installed.entry)) (S.holds shelf.old) (S.holds shelf.new) }
    ensures apart { calls_of ending (option_map (λ i. i.now) installed.entry) ≡ [] → OnOk result (shelf.new ≡ shelf.old) }
    ensures blames { Blames result ⊥ ⊥ ⊥ (Rose (S.faults shelf.old) (S.faults shelf.new)) ⊥ }
{
    let (Ending::End, Some(instance)) = (ending, installed) else {
        return Ok(());
    };
    match install(shelf, instance.number, instance.files.as_slice(), best) {
        Ok(()) => Ok(()),
        Err(Trouble::Failed) => Err(Fault::Shelf),
        Err(Trouble::Memory) => Err(Fault::Memory),
    }
}

/// How a run ends whose datagrams were taken.
fn base_status(ending: Ending, drops: u64, installed: Option<&Instance>) -> Status
    ensures { result ≡ base_status ending drops (option_map (λ i. i.now) installed.entry) }
{
    match ending {
        Ending::End => end_status(drops, installed),
        Ending::Torn(_) => Status::Torn,
        Ending::TooMany => Status::TooMany,
    }
}

/// How a run ends whose list was read to its end.
fn end_status(drops: u64, installed: Option<&Instance>) -> Status
    ensures { result ≡ end_status drops (option_map (λ i. i.now) installed.entry) }
{
    if drops != 0 {
        return Status::OverBudget;
    }
    match installed {
        Some(_) => Status::Done,
        None => Status::NothingInstalled,
    }
}
