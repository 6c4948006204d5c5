//! What the publisher tells its readers.
ghost use Rattle.std.specs.Prelude.{◌≡◌};

use crate::naming::Naming;
use crate::snapshot::Snapshot;
use std::marker::{Model, PhantomData};

/// A history that the publisher told, with its last instance. `Look::learn` makes it known to a reader.
/// Contracts see it as the history.
#[derive(Drop)]
pub struct Told<H: Naming> {
    snapshot: Snapshot,
    of: PhantomData<H>,
}

impl<H: Naming> Model for Told<H> {
    ghost use Rattle.std.specs.Prelude.{◌≡◌, List};
    ghost use Rattle.carousel_cid.specs.Instances.{Shown};

    ghost Value = { List Shown };

    ghost view = { λ t. t.snapshot.front.seen.log };

    ghost invariant = { λ t. t.snapshot.front.seen.book ≡ H.book };
}

impl<H: Naming> Told<H> {
    pub(crate) fn new(snapshot: Snapshot) -> Told<H>
        requires { snapshot.front.seen.book ≡ H.book }
        ensures { result ≡ snapshot.front.seen.log }
    {
        Told {
            snapshot,
            of: PhantomData,
        }
    }

    pub(crate) fn into_snapshot(self) -> Snapshot
        ensures log { result.front.seen.log ≡ self }
        ensures book { result.front.seen.book ≡ H.book }
    {
        self.snapshot
    }
}
