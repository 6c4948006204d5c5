//! Letting those go that wait and that what is installed beats.
ghost use Rattle.std.specs.Prelude.{◌≡◌, ◌==◌, ℕ, [], cond, filter, OnOk, IfOk};
ghost use Rattle.receiver_core.specs.Inner.Choice.{beats_installed};
ghost use Rattle.receiver_core.specs.Inner.Waiting.{waiting_for};

use crate::candidate::Candidate;
use crate::waiting::Waiting;
use carousel_cid::Instance;
use std::alloc::{AllocError, Global};
use std::collections::BTreeMap;
use std::mem::replace;

/// When beaten candidates were let go last. It says when that is worth its cost again, and no more.
#[derive(Clone, Copy)]
pub struct Swept {
    /// How many objects were ready then.
    ready: usize,
    /// How many candidates were left waiting.
    left: usize,
}

impl Swept {
    /// Nothing was ready, and none waited.
    pub fn new() -> Swept {
        Swept { ready: 0, left: 0 }
    }

    /// Whether as many objects have become ready since as candidates were left. Since each candidate is an object, a
    /// sweep then goes over no more than two for each of those objects.
    pub fn is_due(self, ready: usize) -> bool {
        ready.saturating_sub(self.ready) >= self.left
    }
}

/// Lets those go that what is installed beats. Where there is no memory, any of those that wait may be gone.
pub fn sweep(
    alloc: Global,
    installed: &Option<Instance>,
    ready: usize,
    waiting: &mut Waiting,
) -> Result<Swept, AllocError>
    ensures { OnOk result ((t : ℕ) → waiting_for waiting.new t ≡ filter (λ c. beats_installed installed.now c.number c.toi) (waiting_for waiting.old t)) }
{
    let mut left: usize = 0;
    let mut all = replace(waiting, BTreeMap::new(alloc));
    while let Some((toi, candidates)) = all.pop_first() {
        let unbeaten = unbeaten(alloc, installed, candidates)?;
        left = left.saturating_add(unbeaten.len());
        put_back(waiting, toi, unbeaten)?;
    }
    Ok(Swept { ready, left })
}

/// These wait for the identifier, for which none waited.
fn put_back(waiting: &mut Waiting, toi: u128, candidates: Vec<Candidate>) -> Result<(), AllocError>
    requires { waiting_for waiting.old toi ≡ [] }
    ensures { OnOk result ((t : ℕ) → waiting_for waiting.new t ≡ cond (toi == t) candidates.items (waiting_for waiting.old t)) }
{
    if !candidates.is_empty() {
        waiting.insert(toi, candidates)?;
    }
    Ok(())
}

/// Those of the candidates that are better than what is installed.
fn unbeaten(
    alloc: Global,
    installed: &Option<Instance>,
    candidates: Vec<Candidate>,
) -> Result<Vec<Candidate>, AllocError>
    ensures { IfOk result (λ left. left.items ≡ filter (λ c. beats_installed installed.now c.number c.toi) candidates.items) }
{
    let mut left = Vec::new(alloc);
    for candidate in candidates {
        if candidate.beats_installed(installed) {
            left.push(candidate)?;
        }
    }
    Ok(left)
}
