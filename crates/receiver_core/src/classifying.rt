//! Reading the objects that have become ready.
ghost use Rattle.std.specs.Prelude.{◌≡◌, ◌++◌, ℕ, true, false, cond, Some, OnOk, OnErr, is_some, option_map};
ghost use Rattle.std.specs.BTreeMap.{get, Updates};
ghost use Rattle.std.specs.Ordering.{nat_cmp};
ghost use Rattle.carousel_cid.specs.Kinds.{kind_of_object};
ghost use Rattle.object_store.specs.Store.{is_in};
ghost use Rattle.held_packets.specs.Whole.{whole};
ghost use Rattle.receiver_core.specs.Inner.Candidates.{candidates_of, candidates_at, candidates_in};
ghost use Rattle.receiver_core.specs.Inner.Standings.{standing_of_bytes};

use crate::Standing;
use crate::candidate::Candidate;
use carousel_cid::{Kind, kind_of};
use object_store::Store;
use std::alloc::{AllocError, Global};
use std::collections::BTreeMap;

/// Reads these objects, which are ready: the standing of each goes into the map, and the descriptors among them stand
/// behind the candidates. Where there is no memory, only some of them may have got there.
pub fn classify_all(
    alloc: Global,
    store: &Store,
    fresh: &[u128],
    standings: &mut BTreeMap<u128, Standing>,
    candidates: &mut Vec<Candidate>,
) -> Result<(), AllocError>
    requires { (t : ℕ) → is_in t fresh.now ≡ true → is_some (whole store.now.held t) ≡ true }
    ensures standings { OnOk result ((t : ℕ) →
        get nat_cmp standings.new t ≡ cond (is_in t fresh.now) (option_map standing_of_bytes (whole store.now.held t)) (get nat_cmp standings.old t)) }
    ensures candidates { OnOk result (candidates.new.items ≡ candidates.old.items ++ candidates_in (whole store.now.held) fresh.now) }
    ensures others { OnErr result ((t : ℕ) → is_in t fresh.now ≡ false → get nat_cmp standings.new t ≡ get nat_cmp standings.old t) }
{
    for toi in fresh {
        classify_at(alloc, store, *toi, standings, candidates)?;
    }
    Ok(())
}

/// Reads one object, which is ready. Where there is no memory, the standings are as before.
fn classify_at(
    alloc: Global,
    store: &Store,
    toi: u128,
    standings: &mut BTreeMap<u128, Standing>,
    candidates: &mut Vec<Candidate>,
) -> Result<(), AllocError>
    requires { is_some (whole store.now.held toi) ≡ true }
    ensures standing { OnOk result (Updates nat_cmp standings.old standings.new toi (option_map standing_of_bytes (whole store.now.held toi))) }
    ensures candidates { OnOk result (candidates.new.items ≡ candidates.old.items ++ candidates_at (whole store.now.held) toi) }
    ensures same { OnErr result ((t : ℕ) → get nat_cmp standings.new t ≡ get nat_cmp standings.old t) }
{
    let Some(bytes) = store.whole(toi) else {
        unreachable!()
    };
    classify(alloc, toi, bytes, standings, candidates)
}

/// Reads an object of these bytes. Its standing goes into the map last.
fn classify(
    alloc: Global,
    toi: u128,
    bytes: &[u8],
    standings: &mut BTreeMap<u128, Standing>,
    candidates: &mut Vec<Candidate>,
) -> Result<(), AllocError>
    ensures standing { OnOk result (Updates nat_cmp standings.old standings.new toi (Some (standing_of_bytes bytes.now))) }
    ensures candidates { OnOk result (candidates.new.items ≡ candidates.old.items ++ candidates_of toi (kind_of_object bytes.now)) }
    ensures same { OnErr result ((t : ℕ) → get nat_cmp standings.new t ≡ get nat_cmp standings.old t) }
{
    match kind_of(alloc, bytes)? {
        Kind::File { .. } => {
            standings.insert(toi, Standing::File)?;
        }
        Kind::Unusable(cause) => {
            standings.insert(toi, Standing::Unusable(cause))?;
        }
        Kind::Descriptor { number, listed } => {
            candidates.push(Candidate {
                toi,
                number,
                rest: listed,
            })?;
            standings.insert(toi, Standing::Descriptor { number })?;
        }
    }
    Ok(())
}

/// Takes the standings of these objects out of the map.
pub fn forget(standings: &mut BTreeMap<u128, Standing>, fresh: &[u128])
    ensures { (t : ℕ) → get nat_cmp standings.new t ≡ cond (is_in t fresh.now) None (get nat_cmp standings.old t) }
{
    for toi in fresh {
        let _gone = standings.remove(toi);
    }
}
