//! What a descriptor lists.
ghost use Rattle.std.specs.Prelude.{◌≡◌, ◌++◌, ◌-◌, length, OnOk, IfOk};
ghost use Rattle.std.specs.List.{AllByRecursion};
ghost use Rattle.carousel_cid.specs.Fronts.{first_of, after_first};
ghost use Rattle.carousel_cid.specs.IdentifierList.{identifiers_of};
ghost use Rattle.carousel_cid.specs.Inner.Runs.{IsRun, range_of, left};

use crate::Identifiers;
use crate::entry::Entry;
use std::alloc::{AllocError, Global};
use std::marker::Model;

/// The identifiers (TOI) that a descriptor lists, in order. Those that follow each other take the place of one.
#[derive(Drop)]
pub struct Listed {
    /// The last run stands first, so that the list is shortened in front.
    runs: Vec<Entry>,
}

impl Model for Listed {
    ghost use Rattle.std.specs.Prelude.{List, ℕ};
    ghost use Rattle.std.specs.List.{AllByRecursion};
    ghost use Rattle.carousel_cid.specs.Inner.Runs.{IsRun, left};

    ghost Value = { List ℕ };

    ghost view = { λ a. left a.runs.items };

    ghost invariant = { λ a. AllByRecursion IsRun a.runs.items };
}

impl Listed {
    /// The identifiers of these runs. It takes no more memory than they need, since many lists may wait for long.
    #[tactic(auto, using(crate::proofs::Runs::left_reverse, crate::proofs::Runs::each_reverse))]
    pub(crate) fn new(runs: Vec<Entry>) -> Listed
        requires { AllByRecursion IsRun runs.items }
        ensures { result ≡ identifiers_of runs.items }
    {
        let mut runs = runs;
        runs.reverse();
        runs.shrink_to_fit();
        Listed { runs }
    }

    /// The identifier in front.
    pub fn first(&self) -> Option<u128>
        ensures { result ≡ first_of self.now }
    {
        front_of(self.runs.as_slice())
    }

    /// Takes the identifier in front away.
    pub fn drop_first(&mut self)
        ensures { self.new ≡ after_first self.old }
    {
        drop_front(&mut self.runs);
    }

    /// The identifiers one by one, each in memory of its own.
    pub fn write_out(&self, alloc: Global) -> Result<Identifiers, AllocError>
        ensures { IfOk result (λ listed. listed ≡ self.now) }
    {
        Ok(Identifiers::new(written_out(alloc, self.runs.as_slice())?))
    }
}

fn front_of(runs: &[Entry]) -> Option<u128>
    requires { AllByRecursion IsRun runs.now }
    ensures { result ≡ first_of (left runs.now) }
{
    match runs {
        [] => None,
        [.., run] => Some(run.first),
    }
}

fn drop_front(runs: &mut Vec<Entry>)
    requires { AllByRecursion IsRun runs.old.items }
    ensures runs { AllByRecursion IsRun runs.new.items }
    ensures left { left runs.new.items ≡ after_first (left runs.old.items) }
{
    let Some(run) = runs.pop() else {
        return;
    };
    if run.first >= run.last {
        return;
    }
    runs.push_reserved(Entry {
        first: run.first + 1,
        last: run.last,
    });
}

/// The identifiers of runs of which the last one stands first.
#[tactic(auto, using(crate::proofs::Runs::left_more, crate::proofs::Runs::each_last, crate::proofs::Runs::each_front))]
fn written_out(alloc: Global, runs: &[Entry]) -> Result<Vec<u128>, AllocError>
    requires { AllByRecursion IsRun runs.now }
    ensures { IfOk result (λ all. all.items ≡ left runs.now) }
{
    let mut all = Vec::new(alloc);
    for run in runs.iter().rev() {
        push_all(&mut all, *run)?;
    }
    Ok(all)
}

/// Puts the identifiers of a run behind the others.
fn push_all(all: &mut Vec<u128>, run: Entry) -> Result<(), AllocError>
    requires { IsRun run }
    ensures { OnOk result (all.new.items ≡ all.old.items ++ range_of run) }
{
    for toi in run.first..run.last + 1 {
        all.push(toi)?;
    }
    Ok(())
}
