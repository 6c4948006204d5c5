//! A beginning of the history with its last instance: what the two copies hold, what is told, and what a reader has.
ghost use Rattle.std.specs.Prelude.{◌≡◌, [], Some, IfOk, option_map};
ghost use Rattle.std.specs.Arc.{arc_value};
ghost use mathlib.Core.List.{IsPrefix};
ghost use Rattle.snapshot_hub.specs.Histories.{IsRising, last_of, longer};
ghost use Rattle.snapshot_hub.specs.Inner.Kept.{BeginOne};

use crate::front::Front;
use crate::rule::Law;
use carousel_cid::Instance;
use left_right::Absorb;
use logbook::Seen;
use std::alloc::{AllocError, Global};
use std::sync::Arc;

/// The last instance is shared by all who have it.
#[derive(Drop)]
pub struct Snapshot {
    last: Option<Arc<Instance, Global>>,
    pub front: Front,
    pub ghost last_is: { last_of front.seen.log ≡ option_map arc_value last },
}

impl Snapshot {
    /// The empty history.
    pub fn empty(front: Front) -> Snapshot
        requires { front.seen.log ≡ [] }
        ensures { result.front.seen ≡ front.seen }
    {
        Snapshot { last: None, front }
    }

    /// The history of this front, which ends with the instance.
    pub fn ending(front: Front, last: Arc<Instance, Global>) -> Snapshot
        requires { last_of front.seen.log ≡ Some (arc_value last) }
        ensures { result.front.seen ≡ front.seen }
    {
        Snapshot {
            last: Some(last),
            front,
        }
    }

    /// The same history, with the same instance. It fails only where the count of the instance's owners is full.
    pub fn share(&self) -> Result<Snapshot, AllocError>
        ensures { IfOk result (λ r. r.front.seen ≡ self.now.front.seen) }
    {
        let last = match &self.last {
            Some(instance) => Some(Arc::try_clone(instance)?),
            None => None,
        };
        Ok(Snapshot {
            last,
            front: self.front.again(),
        })
    }

    /// The last instance, which is absent where the history is empty.
    pub fn instance(&self) -> Option<&Instance>
        ensures { option_map (λ i. i.now) result ≡ last_of self.now.front.seen.log }
    {
        match &self.last {
            Some(instance) => Some(&**instance),
            None => None,
        }
    }

    /// The longer of the two.
    pub fn longer(self, other: Snapshot) -> Snapshot
        requires { other.front.seen.book ≡ self.front.seen.book }
        ensures longer { result.front.seen.log ≡ longer self.front.seen.log other.front.seen.log }
        ensures book { result.front.seen.book ≡ self.front.seen.book }
        ensures one { BeginOne self.front.seen.log other.front.seen.log }
    {
        if self.front.is_shorter(&other.front) {
            other
        } else {
            self
        }
    }

    /// The one that is lent, where it is longer and can be shared, and else this one.
    #[tactic(auto, using(crate::proofs::Longer::renewing))]
    pub fn renewed(self, other: &Snapshot) -> Snapshot
        requires { other.now.front.seen.book ≡ self.front.seen.book }
        ensures goes_on { IsPrefix self.front.seen.log result.front.seen.log }
        ensures rising { IsRising result.front.seen.log }
        ensures book { result.front.seen.book ≡ self.front.seen.book }
    {
        if !self.front.is_shorter(&other.front) {
            return self;
        }
        match other.share() {
            Ok(other) => other,
            Err(_) => self,
        }
    }
}

/// Each copy takes in what is published whole, so a later publish overtakes one that was left pending.
impl Absorb<Snapshot> for Snapshot {
    type State = Seen<Instance, u64, Law>;

    ghost state = { λ s. s.front.seen };

    ghost applied = { λ s operation. operation.front.seen };

    fn absorb_first(&mut self, operation: &Snapshot, _other: &Snapshot) -> Result<(), AllocError> {
        *self = operation.share()?;
        Ok(())
    }
}
