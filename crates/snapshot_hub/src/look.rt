//! Readers and what they are shown.
ghost use Rattle.std.specs.Prelude.{◌≡◌, ◌≤◌, [], option_map};
ghost use mathlib.Core.List.{IsPrefix};
ghost use Rattle.snapshot_hub.specs.Histories.{IsRising, height, last_of, longer, newer};

use crate::front::Front;
use crate::naming::{Naming, Of};
use crate::snapshot::Snapshot;
use crate::told::Told;
use carousel_cid::Instance;
use left_right::reader::Reader;
use std::marker::Model;

/// A reader between two looks. Contracts see it as the history that it has seen.
#[derive(Drop)]
pub struct Look<H: Naming> {
    reader: Reader<Snapshot, u64, Of<H>>,
    seen: Snapshot,
}

impl<H: Naming> Model for Look<H> {
    ghost use Rattle.std.specs.Prelude.{◌≡◌, List};
    ghost use Rattle.carousel_cid.specs.Instances.{Shown};

    ghost Value = { List Shown };

    ghost view = { λ l. l.seen.front.seen.log };

    ghost invariant = { λ l. l.seen.front.seen.book ≡ H.book };
}

/// What a reader is shown, for as long as it likes: it holds no copy of the hub. Contracts see it as the
/// history that was seen.
#[derive(Drop)]
pub struct Glance<H: Naming> {
    look: Look<H>,
}

impl<H: Naming> Model for Glance<H> {
    ghost use Rattle.std.specs.Prelude.{List};
    ghost use Rattle.carousel_cid.specs.Instances.{Shown};

    ghost Value = { List Shown };

    ghost view = { λ g. g.look };
}

impl<H: Naming> Look<H> {
    /// A reader that has seen nothing.
    pub(crate) fn new(reader: Reader<Snapshot, u64, Of<H>>, seen: Snapshot) -> Look<H>
        requires empty { seen.front.seen.log ≡ [] }
        requires book { seen.front.seen.book ≡ H.book }
        ensures { result ≡ [] }
    {
        Look { reader, seen }
    }

    pub(crate) fn front(&self) -> &Front
        ensures log { result.now.seen.log ≡ self.now }
        ensures book { result.now.seen.book ≡ H.book }
    {
        &self.seen.front
    }

    /// Shows the last instance of what is published, or of what the reader saw before, where that is longer or the
    /// hub does not let it in. It takes no memory and waits for nobody.
    #[tactic(auto, using(crate::proofs::Rising::height_grows, crate::proofs::Prefixes::prefix_self))]
    pub fn look(self) -> Glance<H>
        ensures goes_on { IsPrefix self result }
        ensures rising { IsRising result }
        ensures number { height self ≤ height result }
    {
        let Look { reader, seen } = self;
        match reader.enter_as::<Of<H>>() {
            Ok(reading) => {
                let seen = seen.renewed(reading.get());
                Glance {
                    look: Look {
                        reader: reading.leave(),
                        seen,
                    },
                }
            }
            Err(reader) => Glance {
                look: Look { reader, seen },
            },
        }
    }

    /// Makes a told history known to the reader, where that is longer than what it has seen, which is where its last
    /// number is greater, or the same and it is longer. It takes no memory and waits for nobody.
    #[tactic(auto, using(crate::proofs::Longer::learning))]
    pub fn learn(self, told: Told<H>) -> Look<H>
        ensures learned { result ≡ longer self told }
        ensures newer { result ≡ newer self told }
        ensures goes_on { IsPrefix self result }
        ensures told { IsPrefix told result }
        ensures rising { IsRising result }
    {
        let Look { reader, seen } = self;
        Look {
            reader,
            seen: seen.longer(told.into_snapshot()),
        }
    }
}

impl<H: Naming> Glance<H> {
    /// The last instance of the history that was seen, whole. It is absent where that history is empty.
    pub fn instance(&self) -> Option<&Instance>
        ensures { option_map (λ i. i.now) result ≡ last_of self.now }
    {
        self.look.seen.instance()
    }

    /// Ends the glance. The reader keeps what it has seen.
    pub fn leave(self) -> Look<H>
        ensures { result ≡ self }
    {
        let Glance { look } = self;
        look
    }
}
