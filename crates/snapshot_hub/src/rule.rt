//! The rule of the book in which a hub's history stands, and the one step that adds to it. The book is there for the
//! proofs: the code keeps the history's length alone.
use carousel_cid::Instance;
use logbook::{Gain, Plain, Play, Rule};

/// The book's first word counts the history, in which numbers never fall.
pub struct Law;

impl Rule<Instance, u64> for Law {
    ghost use Rattle.std.specs.Prelude.{[]};
    ghost use base.Fml.{ftrue};
    ghost use Rattle.snapshot_hub.specs.Inner.Kept.{IsKept};

    ghost holds = { λ cells log. IsKept cells log };

    ghost first = { [] };

    ghost hinted = { λ n log. Unit {0} };

    ghost shows = { λ log. [] };

    ghost keeps = { λ names log. ftrue };

    ghost moves = { λ ask before after answer. Unit {0} };
}

/// Callers trade nothing.
pub struct Nothing;

impl Gain<Instance, u64> for Nothing {
    ghost use base.Fml.{ftrue};

    ghost after = { λ names about answer. ftrue };
}

/// The step that adds an instance.
pub struct Add;

impl Play<Instance, u64> for Add {
    ghost use Rattle.snapshot_hub.specs.Inner.Kept.{Adds};

    ghost then = { Adds };
}

impl Plain<Instance, Instance, u64> for Add {
    ghost use Rattle.std.specs.Prelude.{None};

    ghost ask = { λ instance. instance };

    ghost state = { λ instance. None };
}

/// The step that looks at the count.
pub struct Find;

impl Play<Instance, u64> for Find {
    ghost use Rattle.snapshot_hub.specs.Inner.Kept.{Finds};

    ghost then = { Finds };
}

impl Plain<u64, Instance, u64> for Find {
    ghost use Rattle.std.specs.Prelude.{[], None};

    ghost ask = { λ n. record { number = n; descriptor_toi = 0; listed = []; files = [] } };

    ghost state = { λ n. None };
}
