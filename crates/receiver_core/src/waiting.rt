//! The candidates that wait, by the identifier that each of them waits for.
ghost use Rattle.std.specs.Prelude.{◌≡◌, ◌++◌, ◌∷◌, ◌==◌, [], ℕ, true, cond, OnOk};
ghost use Rattle.std.specs.List.{flat_map};
ghost use Rattle.object_store.specs.Store.{is_in, are_different};
ghost use Rattle.receiver_core.specs.Inner.Waiting.{waiting_for};

use crate::candidate::Candidate;
use std::alloc::{AllocError, Global};
use std::collections::BTreeMap;

/// The candidates that wait, by the identifier that each of them waits for.
pub type Waiting = BTreeMap<u128, Vec<Candidate>>;

/// One more waits for this identifier. Where there is no memory, those that wait for it may be gone.
pub fn wait(
    alloc: Global,
    waiting: &mut Waiting,
    toi: u128,
    candidate: Candidate,
) -> Result<(), AllocError>
    ensures { OnOk result ((t : ℕ) → waiting_for waiting.new t ≡ cond (toi == t) (waiting_for waiting.old toi ++ candidate ∷ []) (waiting_for waiting.old t)) }
{
    let mut all = taken_out(alloc, waiting, toi);
    all.push(candidate)?;
    waiting.insert(toi, all)?;
    Ok(())
}

/// Those that wait for this identifier wait no longer.
fn taken_out(alloc: Global, waiting: &mut Waiting, toi: u128) -> Vec<Candidate>
    ensures all { result.items ≡ waiting_for waiting.old toi }
    ensures others { (t : ℕ) → waiting_for waiting.new t ≡ cond (toi == t) [] (waiting_for waiting.old t) }
{
    match waiting.remove(&toi) {
        Some(all) => all,
        None => Vec::new(alloc),
    }
}

/// Those that wait for these objects wait no longer: they stand behind the others. Where there is no memory, some of
/// them may be gone.
pub fn wake_all(
    alloc: Global,
    waiting: &mut Waiting,
    fresh: &[u128],
    woken: &mut Vec<Candidate>,
) -> Result<(), AllocError>
    requires { are_different fresh.now ≡ true }
    ensures woken { OnOk result (woken.new.items ≡ woken.old.items ++ flat_map (waiting_for waiting.old) fresh.now) }
    ensures others { OnOk result ((t : ℕ) → waiting_for waiting.new t ≡ cond (is_in t fresh.now) [] (waiting_for waiting.old t)) }
{
    for toi in fresh {
        let mut all = taken_out(alloc, waiting, *toi);
        woken.append(&mut all)?;
    }
    Ok(())
}
