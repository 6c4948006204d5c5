//! Finding the best instance when objects have become ready.
ghost use Rattle.std.specs.Prelude.{◌≡◌, ◌≤◌, ℕ, Bool, true, false, IfOk, OnOk, OnErr, drop, length, option_map};
ghost use Rattle.std.specs.Option.{option_or};
ghost use Rattle.std.specs.BTreeMap.{get};
ghost use Rattle.std.specs.Ordering.{nat_cmp};
ghost use Rattle.object_store.specs.Store.{is_in, IsListed};
ghost use Rattle.held_packets.specs.Whole.{whole};
ghost use Rattle.receiver_core.specs.Inner.Settling.{IsSettling, IsRead, IsAnnounced, Finds};

use crate::Standing;
use crate::announcing::instance_of;
use crate::choosing::choose;
use crate::classifying::{classify_all, forget};
use crate::placing::place_all;
use crate::waiting::{Waiting, wake_all};
use carousel_cid::Instance;
use object_store::Store;
use std::alloc::{AllocError, Global};
use std::collections::BTreeMap;

/// The best instance of what is whole, where it isn't the installed one. The first `settled` ready objects were
/// settled before. `lost` says whether candidates are lost, so that all is read again. Where there is no memory, the
/// standings are as before, and candidates are lost.
pub fn find(
    alloc: Global,
    store: &Store,
    settled: usize,
    lost: bool,
    installed: &Option<Instance>,
    standings: &mut BTreeMap<u128, Standing>,
    waiting: &mut Waiting,
) -> Result<Option<Instance>, AllocError>
    requires settling { IsSettling store.now standings.old waiting.old settled lost installed.now }
    ensures found { IfOk result (λ found. Finds (whole store.now.held) installed.now found) }
    ensures ok { IfOk result (λ found. IsRead store.now standings.new waiting.new (length store.now.ready) (option_or found installed.now)) }
    ensures err { OnErr result (IsSettling store.now standings.new waiting.new settled true installed.now) }
{
    if lost {
        find_anew(alloc, store, installed, standings, waiting)
    } else {
        find_more(alloc, store, settled, installed, standings, waiting)
    }
}

/// Reads all ready objects, with no candidates to begin with. Where there is no memory, nothing changes.
fn find_anew(
    alloc: Global,
    store: &Store,
    installed: &Option<Instance>,
    standings: &mut BTreeMap<u128, Standing>,
    waiting: &mut Waiting,
) -> Result<Option<Instance>, AllocError>
    requires { IsAnnounced (whole store.now.held) installed.now }
    ensures found { IfOk result (λ found. Finds (whole store.now.held) installed.now found) }
    ensures ok { IfOk result (λ found. IsRead store.now standings.new waiting.new (length store.now.ready) (option_or found installed.now)) }
    ensures standings { OnErr result (standings.new ≡ standings.old) }
    ensures waiting { OnErr result (waiting.new ≡ waiting.old) }
{
    let mut known = BTreeMap::new(alloc);
    let mut asleep = BTreeMap::new(alloc);
    let found = find_from(alloc, store, 0, installed, &mut known, &mut asleep)?;
    *standings = known;
    *waiting = asleep;
    Ok(found)
}

/// Reads the objects that have become ready since. Where there is no memory, their standings are forgotten, and no
/// candidate is left.
fn find_more(
    alloc: Global,
    store: &Store,
    settled: usize,
    installed: &Option<Instance>,
    standings: &mut BTreeMap<u128, Standing>,
    waiting: &mut Waiting,
) -> Result<Option<Instance>, AllocError>
    requires { IsSettling store.now standings.old waiting.old settled false installed.now }
    ensures found { IfOk result (λ found. Finds (whole store.now.held) installed.now found) }
    ensures ok { IfOk result (λ found. IsRead store.now standings.new waiting.new (length store.now.ready) (option_or found installed.now)) }
    ensures err { OnErr result (IsSettling store.now standings.new waiting.new settled true installed.now) }
{
    match find_from(alloc, store, settled, installed, standings, waiting) {
        Ok(found) => Ok(found),
        Err(error) => {
            forget(standings, fresh_of(store, settled));
            waiting.clear();
            Err(error)
        }
    }
}

/// The best instance, where it isn't the installed one, when the first `read` ready objects were read before.
fn find_from(
    alloc: Global,
    store: &Store,
    read: usize,
    installed: &Option<Instance>,
    standings: &mut BTreeMap<u128, Standing>,
    waiting: &mut Waiting,
) -> Result<Option<Instance>, AllocError>
    requires { IsRead store.now standings.old waiting.old read installed.now }
    ensures found { IfOk result (λ found. Finds (whole store.now.held) installed.now found) }
    ensures ok { IfOk result (λ found. IsRead store.now standings.new waiting.new (length store.now.ready) (option_or found installed.now)) }
    ensures others { OnErr result ((t : ℕ) → is_in t (drop read store.now.ready) ≡ false → get nat_cmp standings.new t ≡ get nat_cmp standings.old t) }
{
    let fresh = fresh_of(store, read);
    let mut woken = Vec::new(alloc);
    classify_all(alloc, store, fresh, standings, &mut woken)?;
    wake_all(alloc, waiting, fresh, &mut woken)?;
    let ended = place_all(alloc, standings, installed, woken, waiting)?;
    match choose(ended.as_slice()) {
        None => Ok(None),
        Some(best) => instance_of(alloc, store, best),
    }
}

/// The ready objects from this one on.
pub fn fresh_of(store: &Store, read: usize) -> &[u128]
    requires { read ≤ length store.now.ready }
    ensures fresh { result.now ≡ drop read store.now.ready }
    ensures listed { IsListed store.now.held store.now.ready }
{
    &store.ready()[read..]
}

/// Installs what was found, and tells its number.
pub fn install(installed: &mut Option<Instance>, found: Option<Instance>) -> Option<u32>
    ensures installed { installed.new ≡ option_or found installed.old }
    ensures number { result ≡ option_map (λ i. i.number) found }
{
    let instance = found?;
    let number = instance.number;
    *installed = Some(instance);
    Some(number)
}
