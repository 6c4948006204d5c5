//! Where candidates go when objects have become ready.
ghost use Rattle.std.specs.Prelude.{◌≡◌, ◌++◌, ℕ, OnOk, IfOk, reverse};
ghost use Rattle.std.specs.List.{flat_map};
ghost use Rattle.receiver_core.specs.Inner.Candidates.{advanced};
ghost use Rattle.receiver_core.specs.Inner.Standings.{is_known};
ghost use Rattle.receiver_core.specs.Inner.Waiting.{waiting_for, ended_of, waits_of};

use crate::Standing;
use crate::candidate::Candidate;
use crate::reaching::pass;
use crate::waiting::{Waiting, wait};
use carousel_cid::Instance;
use std::alloc::{AllocError, Global};
use std::collections::BTreeMap;

/// Has each of the candidates go on to its first file that isn't there. The answer is those whose files are all there;
/// the others wait, but for those that what is installed beats and those that wait for what is no file: they are let
/// go. Where there is no memory, any of them may be gone.
pub fn place_all(
    alloc: Global,
    standings: &BTreeMap<u128, Standing>,
    installed: &Option<Instance>,
    woken: Vec<Candidate>,
    waiting: &mut Waiting,
) -> Result<Vec<Candidate>, AllocError>
    ensures ended { IfOk result (λ all. all.items ≡ flat_map (λ c. ended_of installed.now (advanced (is_known standings.now) c)) (reverse woken.items)) }
    ensures waiting { OnOk result ((t : ℕ) → waiting_for waiting.new t
        ≡ waiting_for waiting.old t ++ flat_map (λ c. waits_of standings.now installed.now t (advanced (is_known standings.now) c)) (reverse woken.items)) }
{
    let mut ended = Vec::new(alloc);
    let mut left = woken;
    while let Some(candidate) = left.pop() {
        place(alloc, standings, installed, candidate, waiting, &mut ended)?;
    }
    Ok(ended)
}

/// Has a candidate go on to its first file that isn't there. Nothing is looked up for one that what is installed beats.
fn place(
    alloc: Global,
    standings: &BTreeMap<u128, Standing>,
    installed: &Option<Instance>,
    candidate: Candidate,
    waiting: &mut Waiting,
    ended: &mut Vec<Candidate>,
) -> Result<(), AllocError>
    ensures ended { OnOk result (ended.new.items ≡ ended.old.items ++ ended_of installed.now (advanced (is_known standings.now) candidate)) }
    ensures waiting { OnOk result ((t : ℕ) → waiting_for waiting.new t
        ≡ waiting_for waiting.old t ++ waits_of standings.now installed.now t (advanced (is_known standings.now) candidate)) }
{
    let mut candidate = candidate;
    if !candidate.beats_installed(installed) {
        return Ok(());
    }
    pass(standings, &mut candidate.rest);
    match candidate.rest.first() {
        None => ended.push(candidate)?,
        Some(toi) => {
            if !standings.contains_key(&toi) {
                wait(alloc, waiting, toi, candidate)?;
            }
        }
    }
    Ok(())
}
