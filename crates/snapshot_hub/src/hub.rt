//! Hubs, and how one is taken into use.
ghost use Rattle.std.specs.Prelude.{◌≡◌, ◌≤◌, [], replicate, IfOk};
ghost use Rattle.std.specs.Arc.{arc_value};
ghost use Rattle.snapshot_hub.specs.Inner.Kept.{count_of};

use crate::front::Front;
use crate::look::Look;
use crate::naming::{Naming, Of};
use crate::publisher::Publisher;
use crate::rule::Law;
use crate::snapshot::Snapshot;
use carousel_cid::Instance;
use left_right::reader::{Factory, Reader};
use left_right::writer::Writer;
use logbook::{Seen, Start, Word};
use std::alloc::{AllocError, Global};
use std::marker::Model;
use std::sync::Wait;

/// A hub for so many readers, with an empty history, which has no name yet. `make` takes it into use.
#[derive(Drop)]
pub struct Hub {
    alloc: Global,
    readers: u32,
    head: Word<Instance, u64, Law>,
    seen: Seen<Instance, u64, Law>,
}

impl Model for Hub {
    ghost use Rattle.std.specs.Prelude.{◌≡◌, ◌≤◌, []};
    ghost use Rattle.snapshot_hub.specs.Hubs.{Unnamed};
    ghost use Rattle.snapshot_hub.specs.Inner.Kept.{count_of};

    ghost Value = { Unnamed };

    ghost view = { λ h. record { readers = h.readers; book = h.seen.book } };

    ghost invariant = { λ h. (1 ≤ h.readers) × (h.readers ≤ 16) × (h.seen.log ≡ []) × (h.head ≡ count_of h.seen.book) };
}

impl Hub {
    /// A hub for 1 to 16 readers.
    pub fn new(alloc: Global, readers: u32) -> Hub
        requires { (1 ≤ readers) × (readers ≤ 16) }
        ensures { result.readers ≡ readers }
    {
        let (seen, mut pen, _second) = Seen::open(Start::alone(), 0, 0);
        Hub {
            alloc,
            readers,
            head: Word::tracked(0, &mut pen),
            seen,
        }
    }
}

/// Takes the hub into use under the name H: its publisher, and as many readers as it was made for, which have seen
/// nothing. It asks again where a reader is refused, so it may wait. For want of memory the hub is ended.
pub fn make<R: Wait, H: Naming>(
    rt: &R,
    hub: Hub,
) -> Result<(Publisher<H>, Vec<Look<H>>), AllocError>
    requires { hub.book ≡ H.book }
    ensures history { IfOk result (λ r. r.0 ≡ []) }
    ensures looks { IfOk result (λ r. r.1.items ≡ replicate hub.readers []) }
{
    let Hub {
        alloc,
        readers,
        head,
        seen,
    } = hub;
    let own = Snapshot::empty(Front::empty(seen));
    let mut writer = Writer::new(alloc, own.share()?, own.share()?, readers as usize)?;
    match looks(rt, alloc, &mut writer, &own, readers) {
        Ok(looks) => Ok((Publisher::new(alloc, writer, head, own), looks)),
        Err(error) => {
            drop(writer.take(rt));
            Err(error)
        }
    }
}

/// So many readers that have seen nothing. An operation is left pending, so that later ones find room in the log.
fn looks<R: Wait, H: Naming>(
    rt: &R,
    alloc: Global,
    writer: &mut Writer<Snapshot, Snapshot, u64, Of<H>>,
    own: &Snapshot,
    readers: u32,
) -> Result<Vec<Look<H>>, AllocError>
    requires empty { own.now.front.seen.log ≡ [] }
    requires book { own.now.front.seen.book ≡ H.book }
    ensures looks { IfOk result (λ looks. looks.items ≡ replicate readers []) }
    ensures desk { writer.new.desk ≡ writer.old.desk }
{
    if writer.append(own.share()?).is_err() {
        return Err(AllocError);
    }
    let mut looks = Vec::new(alloc);
    for _reader in 0..readers {
        let reader = seat(rt, writer.factory());
        looks.push(Look::new(reader, own.share()?))?;
    }
    Ok(looks)
}

/// A reader of these copies.
fn seat<R: Wait, H: Naming>(
    rt: &R,
    factory: &Factory<Snapshot, u64, Of<H>>,
) -> Reader<Snapshot, u64, Of<H>> {
    for _ in rt.forever() {
        if let Ok(reader) = factory.reader() {
            return reader;
        }
    }
    unreachable!()
}
