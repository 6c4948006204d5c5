//! Beginnings of a hub's history.
ghost use Rattle.std.specs.Prelude.{◌≡◌, ◌+◌, ◌<◌, ◌^◌, ◌++◌, ◌∷◌, [], length, nat_lt, IsTrue};
ghost use mathlib.Core.List.{IsPrefix};
ghost use Rattle.snapshot_hub.specs.Histories.{IsRising, MayFollow};
ghost use Rattle.snapshot_hub.specs.Inner.Kept.{BeginOne, count_of};

use crate::rule::{Add, Find, Law, Nothing};
use carousel_cid::Instance;
use logbook::{Offer, Seen, Word};

/// A beginning of the history, of which the code has the length alone.
#[derive(Drop)]
pub struct Front {
    count: u64,
    pub seen: Seen<Instance, u64, Law>,
    ghost counted: { count ≡ length seen.log },
    ghost rising: { IsRising seen.log },
}

impl Front {
    /// The front that has seen nothing.
    pub fn empty(seen: Seen<Instance, u64, Law>) -> Front
        requires { seen.log ≡ [] }
        ensures { result.seen ≡ seen }
    {
        Front { count: 0, seen }
    }

    /// A copy.
    pub fn again(&self) -> Front
        ensures { result.seen ≡ self.now.seen }
    {
        Front {
            count: self.count,
            seen: self.seen.again(),
        }
    }

    /// Says whether this front is the shorter of the two, which begin one history.
    pub fn is_shorter(&self, other: &Front) -> bool
        requires { other.now.seen.book ≡ self.now.seen.book }
        ensures length { result ≡ nat_lt (length self.now.seen.log) (length other.now.seen.log) }
        ensures one { BeginOne self.now.seen.log other.now.seen.log }
    {
        let mut both = self.seen.again();
        both.learn(&other.seen);
        self.count < other.count
    }

    /// Says whether this front has the whole history, which the other then begins.
    #[tactic(auto, using(crate::proofs::Prefixes::prefix_of_whole))]
    pub fn is_whole_beside(&self, head: &Word<Instance, u64, Law>, other: &Front) -> bool
        requires head { head.now ≡ count_of self.now.seen.book }
        requires book { other.now.seen.book ≡ self.now.seen.book }
        ensures { IsTrue result → IsPrefix other.now.seen.log self.now.seen.log }
    {
        let mut both = self.seen.again();
        both.learn(&other.seen);
        let mut offer: Offer<Instance, u64, Law, Nothing> = both.plain::<Nothing, u64, Find>(&0);
        head.load::<Find, Nothing>(&mut both, &mut offer) == self.count
    }

    /// Adds an instance to all that was seen, and says whether it did. It did not where the history is longer.
    pub fn add(&mut self, head: &Word<Instance, u64, Law>, instance: &Instance) -> bool
        requires head { head.now ≡ count_of self.old.seen.book }
        requires room { length self.old.seen.log < 2 ^ 62 }
        requires rising { MayFollow self.old.seen.log instance.now }
        ensures log { IsTrue result → self.new.seen.log ≡ self.old.seen.log ++ instance.now ∷ [] }
        ensures book { self.new.seen.book ≡ self.old.seen.book }
    {
        let mut offer: Offer<Instance, u64, Law, Nothing> = self
            .seen
            .plain::<Nothing, Instance, Add>(instance);
        let mut pen = self.seen.no_pen();
        let count = self.count;
        let found = head.compare_exchange::<Add, Nothing>(
            count,
            count + 1,
            &mut self.seen,
            &mut offer,
            &mut pen,
        );
        self.count = if found == count { count + 1 } else { found };
        found == count
    }
}
