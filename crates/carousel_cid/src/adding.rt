//! The identifiers of a list so far, each at its first place alone.
ghost use Rattle.std.specs.Prelude.{◌≡◌, ◌+◌, ◌-◌, ◌≤◌, ◌<◌, ◌^◌, ◌++◌, ◌==◌, ℕ, false, OnOk, IfOk, IsTrue};
ghost use Rattle.std.specs.List.{list_any, range_with_len, AllByRecursion};
ghost use Rattle.carousel_cid.specs.IdentifierList.{identifiers_of};
ghost use Rattle.carousel_cid.specs.Inner.Runs.{IsRun, AreSeen, IsNext};
ghost use Rattle.carousel_cid.specs.Inner.Walks.{added_all};

use crate::entry::Entry;
use std::alloc::AllocError;
use std::collections::BTreeMap;

/// The runs that were seen: the first identifier of each, by its last. They don't meet.
pub(crate) type Seen = BTreeMap<u128, u128>;

/// Adds the identifiers from the first to the last, without those that were seen. It takes a step for each part of the
/// range of which all or none was seen.
pub(crate) fn add_range(
    runs: &mut Vec<Entry>,
    seen: &mut Seen,
    first: u128,
    last: u128,
) -> Result<(), AllocError>
    requires runs { AllByRecursion IsRun runs.old.items }
    requires seen { AreSeen seen.old (identifiers_of runs.old.items) }
    requires fits { last < 2 ^ 112 }
    ensures ok { OnOk result (identifiers_of runs.new.items ≡ added_all (identifiers_of runs.old.items) (range_with_len first (last + 1 - first))) }
    ensures runs { OnOk result (AllByRecursion IsRun runs.new.items) }
    ensures seen { OnOk result (AreSeen seen.new (identifiers_of runs.new.items)) }
{
    let mut at = first;
    while at <= last {
        at = add_alike(runs, seen, at, last)?;
    }
    Ok(())
}

/// Adds the identifiers from this one on that are new, or passes over those that aren't. The answer is where the others
/// begin.
fn add_alike(
    runs: &mut Vec<Entry>,
    seen: &mut Seen,
    at: u128,
    last: u128,
) -> Result<u128, AllocError>
    requires runs { AllByRecursion IsRun runs.old.items }
    requires seen { AreSeen seen.old (identifiers_of runs.old.items) }
    requires order { at ≤ last }
    requires fits { last < 2 ^ 112 }
    ensures on { IfOk result (λ next. at < next) }
    ensures within { IfOk result (λ next. next ≤ last + 1) }
    ensures ok { IfOk result (λ next. identifiers_of runs.new.items ≡ added_all (identifiers_of runs.old.items) (range_with_len at (next - at))) }
    ensures runs { OnOk result (AllByRecursion IsRun runs.new.items) }
    ensures seen { OnOk result (AreSeen seen.new (identifiers_of runs.new.items)) }
{
    match next_run(seen, at) {
        None => add_new(runs, seen, at, last),
        Some(run) if run.first > at => add_new(runs, seen, at, last.min(run.first - 1)),
        Some(run) => Ok(last.min(run.last) + 1),
    }
}

/// Adds the identifiers from the first to the last, which are new. The answer is the one behind them.
fn add_new(
    runs: &mut Vec<Entry>,
    seen: &mut Seen,
    first: u128,
    last: u128,
) -> Result<u128, AllocError>
    requires runs { AllByRecursion IsRun runs.old.items }
    requires seen { AreSeen seen.old (identifiers_of runs.old.items) }
    requires new { (toi : ℕ) → first ≤ toi → toi ≤ last → list_any (λ u. u == toi) (identifiers_of runs.old.items) ≡ false }
    requires order { first ≤ last }
    requires fits { last < 2 ^ 112 }
    ensures next { IfOk result (λ next. next ≡ last + 1) }
    ensures ok { IfOk result (λ next. identifiers_of runs.new.items ≡ added_all (identifiers_of runs.old.items) (range_with_len first (next - first))) }
    ensures runs { OnOk result (AllByRecursion IsRun runs.new.items) }
    ensures seen { OnOk result (AreSeen seen.new (identifiers_of runs.new.items)) }
{
    push_run(runs, first, last)?;
    seen.insert(last, first)?;
    Ok(last + 1)
}

/// The first of the runs that end at the identifier or behind it.
fn next_run(seen: &Seen, toi: u128) -> Option<Entry>
    ensures { IsNext seen.now toi result }
{
    let (last, first) = seen.range(toi..).next()?;
    Some(Entry {
        first: *first,
        last: *last,
    })
}

/// Puts a run behind the others. One that follows the last of them becomes its end.
fn push_run(runs: &mut Vec<Entry>, first: u128, last: u128) -> Result<(), AllocError>
    requires runs { AllByRecursion IsRun runs.old.items }
    requires order { first ≤ last }
    requires fits { last < 2 ^ 112 }
    ensures runs { OnOk result (AllByRecursion IsRun runs.new.items) }
    ensures ok { OnOk result (identifiers_of runs.new.items ≡ identifiers_of runs.old.items ++ range_with_len first (last + 1 - first)) }
{
    match runs.pop() {
        None => push_alone(runs, first, last),
        Some(run) if follows(first, run) => {
            runs.push_reserved(Entry {
                first: run.first,
                last,
            });
            Ok(())
        }
        Some(run) => {
            runs.push_reserved(run);
            push_alone(runs, first, last)
        }
    }
}

fn push_alone(runs: &mut Vec<Entry>, first: u128, last: u128) -> Result<(), AllocError>
    requires runs { AllByRecursion IsRun runs.old.items }
    requires order { first ≤ last }
    requires fits { last < 2 ^ 112 }
    ensures runs { OnOk result (AllByRecursion IsRun runs.new.items) }
    ensures ok { OnOk result (identifiers_of runs.new.items ≡ identifiers_of runs.old.items ++ range_with_len first (last + 1 - first)) }
{
    runs.push(Entry { first, last })?;
    Ok(())
}

/// Whether the identifier is the one behind the run.
fn follows(toi: u128, run: Entry) -> bool
    ensures { IsTrue result → run.last + 1 ≡ toi }
{
    run.last < toi && toi - run.last == 1
}
