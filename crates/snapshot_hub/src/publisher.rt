//! The one publisher of a hub.
ghost use Rattle.std.specs.Prelude.{◌≡◌, ◌++◌, ◌∷◌, ◌-◌, ◌<◌, ◌^◌, [], length, OnOk, OnErr, IfOk, IfErr, IsTrue};
ghost use mathlib.Core.List.{IsPrefix};
ghost use Rattle.std.specs.Arc.{arc_value};
ghost use Rattle.snapshot_hub.specs.Histories.{MayFollow};
ghost use Rattle.snapshot_hub.specs.Inner.Kept.{count_of};

use crate::look::Look;
use crate::naming::{Naming, Of};
use crate::rule::Law;
use crate::snapshot::Snapshot;
use crate::told::Told;
use carousel_cid::Instance;
use left_right::writer::Writer;
use logbook::Word;
use std::alloc::{AllocError, Global};
use std::marker::Model;
use std::mem::replace;
use std::sync::{Arc, Wait};

/// Publishes instances. Contracts see it as the history, which the copy that readers take holds whole.
/// It can't be dropped: `end` ends it.
pub struct Publisher<H: Naming> {
    alloc: Global,
    writer: Option<Writer<Snapshot, Snapshot, u64, Of<H>>>,
    head: Word<Instance, u64, Law>,
    own: Snapshot,
}

impl<H: Naming> Model for Publisher<H> {
    ghost use Rattle.std.specs.Prelude.{◌≡◌, List, IsSomeAnd};
    ghost use Rattle.carousel_cid.specs.Instances.{Shown};
    ghost use Rattle.snapshot_hub.specs.Inner.Kept.{count_of};

    ghost Value = { List Shown };

    ghost view = { λ p. p.own.front.seen.log };

    ghost invariant = { λ p. (p.own.front.seen.book ≡ H.book) × (p.head ≡ count_of H.book) × IsSomeAnd p.writer (λ w. w.desk.shown.value.front.seen ≡ p.own.front.seen) };
}

impl<H: Naming> Publisher<H> {
    /// A publisher over an empty history.
    pub(crate) fn new(
        alloc: Global,
        writer: Writer<Snapshot, Snapshot, u64, Of<H>>,
        head: Word<Instance, u64, Law>,
        own: Snapshot,
    ) -> Publisher<H>
        requires own { own.front.seen.log ≡ [] }
        requires book { own.front.seen.book ≡ H.book }
        requires head { head ≡ count_of H.book }
        requires shown { writer.desk.shown.value.front.seen ≡ own.front.seen }
        ensures { result ≡ [] }
    {
        Publisher {
            alloc,
            writer: Some(writer),
            head,
            own,
        }
    }

    /// Appends the instance to the history, and shows it to all who look from then on. Its number isn't below the last
    /// one's, and fewer than 4,294,967,295 instances were published. It may wait for a reader to leave. For want of
    /// memory the history is as before, and the instance comes back.
    pub fn publish<R: Wait>(
        &mut self,
        rt: &R,
        instance: Instance,
    ) -> Result<(), (Instance, AllocError)>
        requires number { MayFollow self.old instance }
        requires room { length self.old < 2 ^ 32 - 1 }
        ensures ok { OnOk result (self.new ≡ self.old ++ instance ∷ []) }
        ensures err { OnErr result (self.new ≡ self.old) }
        ensures back { IfErr result (λ e. e.0 ≡ instance) }
    {
        match self.publish_copy(rt, &instance) {
            Ok(()) => Ok(()),
            Err(error) => Err((instance, error)),
        }
    }

    /// Does what `publish` does with a copy of the instance, which all who have it share.
    pub fn publish_copy<R: Wait>(&mut self, rt: &R, instance: &Instance) -> Result<(), AllocError>
        requires number { MayFollow self.old instance.now }
        requires room { length self.old < 2 ^ 32 - 1 }
        ensures ok { OnOk result (self.new ≡ self.old ++ instance.now ∷ []) }
        ensures err { OnErr result (self.new ≡ self.old) }
    {
        let (own, shown) = self.next(instance)?;
        let Some(writer) = self.writer.take() else {
            unreachable!()
        };
        let (writer, result) = show(rt, writer, shown);
        match replace(&mut self.writer, Some(writer)) {
            None => result?,
            Some(_) => unreachable!(),
        }
        self.own = own;
        Ok(())
    }

    /// The history with this instance, for the publisher and for the copies. All memory is taken before the book has it.
    #[tactic(auto, using(crate::proofs::Rising::last_snoc))]
    fn next(&self, instance: &Instance) -> Result<(Snapshot, Snapshot), AllocError>
        requires number { MayFollow self.now instance.now }
        requires room { length self.now < 2 ^ 32 - 1 }
        ensures log { IfOk result (λ r. r.0.front.seen.log ≡ self.now ++ instance.now ∷ []) }
        ensures book { IfOk result (λ r. r.0.front.seen.book ≡ H.book) }
        ensures shown { IfOk result (λ r. r.1.front.seen ≡ r.0.front.seen) }
    {
        let (own, shown) = two_owners(self.alloc, instance)?;
        let mut front = self.own.front.again();
        if !front.add(&self.head, instance) {
            return Err(AllocError);
        }
        let again = front.again();
        Ok((Snapshot::ending(front, own), Snapshot::ending(again, shown)))
    }

    /// The history so far, for a reader to learn. It takes no memory and waits for nobody; it fails only where the
    /// count of the last instance's owners is full.
    pub fn tell(&self) -> Result<Told<H>, AllocError>
        ensures { IfOk result (λ t. t ≡ self.now) }
    {
        Ok(Told::new(self.own.share()?))
    }

    /// Says whether what the reader has seen begins this history. It does, but where a publish was refused after the
    /// log had its instance. It takes no memory and waits for nobody.
    pub fn has_published(&self, look: &Look<H>) -> bool
        ensures { IsTrue result → IsPrefix look.now self.now }
    {
        self.own.front.is_whole_beside(&self.head, look.front())
    }

    /// Ends the hub: from then on a look shows what the reader had seen. It may wait for a reader to leave.
    pub fn end<R: Wait>(self, rt: &R) {
        let Publisher {
            alloc: _,
            writer,
            head: _head,
            own: _own,
        } = self;
        match writer {
            Some(writer) => drop(writer.take(rt)),
            None => unreachable!(),
        }
    }
}

/// A copy of the instance, with two owners.
fn two_owners(
    alloc: Global,
    instance: &Instance,
) -> Result<(Arc<Instance, Global>, Arc<Instance, Global>), AllocError>
    ensures one { IfOk result (λ r. arc_value r.0 ≡ instance.now) }
    ensures other { IfOk result (λ r. arc_value r.1 ≡ instance.now) }
{
    let one = Arc::new(alloc, instance.copy()?)?;
    let other = Arc::try_clone(&one)?;
    Ok((one, other))
}

/// Lets readers take this snapshot from now on.
#[tactic(auto, using(crate::proofs::Overtaking::last_stands))]
fn show<H: Naming, R: Wait>(
    rt: &R,
    mut writer: Writer<Snapshot, Snapshot, u64, Of<H>>,
    snapshot: Snapshot,
) -> (
    Writer<Snapshot, Snapshot, u64, Of<H>>,
    Result<(), AllocError>,
)
    requires { snapshot.front.seen.book ≡ H.book }
    ensures ok { OnOk result.1 (result.0.desk.shown.value.front.seen ≡ snapshot.front.seen) }
    ensures err { OnErr result.1 (result.0.desk.shown.value.front.seen ≡ writer.desk.shown.value.front.seen) }
{
    if writer.append(snapshot).is_err() {
        return (writer, Err(AllocError));
    }
    writer.publish_as::<Of<H>, R>(rt)
}
