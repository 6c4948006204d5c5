//! The name of a hub, and the rule of its copies.
use crate::snapshot::Snapshot;
use crossbeam_utils::rule::{Outcome, Protocol};
use std::marker::{Brand, PhantomData};

/// Names a hub, so that the type of a look, of a glance and of what is told says whose it is.
pub trait Naming {
    ghost use Rattle.logbook.specs.Pages.{Book};

    ghost book: { Book };
}

impl Naming for Brand {
    ghost book = { record { number = 0; log_name = 0; cells_name = 0 } };
}

/// The rule of the two copies: they hold snapshots of this hub. No value of it is made.
pub struct Of<H: Naming> {
    of: PhantomData<H>,
}

impl<H: Naming> Protocol<Snapshot, u64> for Of<H> {
    ghost use Rattle.std.specs.Prelude.{◌≡◌};

    ghost holds = { λ snapshot views. snapshot.front.seen.book ≡ H.book };

    ghost first = { 0 };
}

/// What a step tells: that the copy holds a snapshot of this hub.
impl<H: Naming> Outcome<Snapshot, u64> for Of<H> {
    ghost use Rattle.std.specs.Prelude.{◌≡◌};

    ghost then = { λ view before after next. after.front.seen.book ≡ H.book };
}
