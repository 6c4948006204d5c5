//! How far the files of a candidate are there.
ghost use Rattle.std.specs.Prelude.{◌≡◌};
ghost use Rattle.receiver_core.specs.Inner.Lists.{behind, starts};
ghost use Rattle.receiver_core.specs.Inner.Standings.{is_known};

use crate::Standing;
use carousel_cid::Listed;
use std::collections::BTreeMap;

/// Takes those in front away that are known as files. Each identifier is looked up once as a file, and one more at the
/// end.
#[tactic(auto, using(crate::proofs::Lists::behind_passed, crate::proofs::Lists::behind_stopped, crate::proofs::Lists::after_shorter))]
pub fn pass(standings: &BTreeMap<u128, Standing>, rest: &mut Listed)
    ensures { rest.new ≡ behind (is_known standings.now) rest.old }
{
    while starts_with_file(standings, rest) {
        rest.drop_first();
    }
}

fn starts_with_file(standings: &BTreeMap<u128, Standing>, rest: &Listed) -> bool
    ensures { result ≡ starts (is_known standings.now) rest.now }
{
    match rest.first() {
        None => false,
        Some(toi) => is_file(standings, toi),
    }
}

fn is_file(standings: &BTreeMap<u128, Standing>, toi: u128) -> bool
    ensures { result ≡ is_known standings.now toi }
{
    match standings.get(&toi) {
        Some(standing) => *standing == Standing::File,
        None => false,
    }
}
