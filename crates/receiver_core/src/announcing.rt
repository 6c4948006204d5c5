//! The instance that a candidate announces.
ghost use Rattle.std.specs.Prelude.{◌≡◌, Some, IfOk, option_map};
ghost use Rattle.carousel_cid.specs.declared.kind.Kind.{Kind};
ghost use Rattle.held_packets.specs.Whole.{whole};
ghost use Rattle.receiver_core.specs.Best.{complete, file_of, files_of, file_of_kind};
ghost use Rattle.receiver_core.specs.Inner.Candidates.{kind_at};

use crate::candidate::Candidate;
use carousel_cid::{FileList, FileOf, Instance, Kind, Listed, kind_of};
use object_store::Store;
use std::alloc::{AllocError, Global};

/// The instance that the candidate announces, where all its files are there. Its object is read again, and each file's,
/// so that a body is copied once, straight into the instance.
pub fn instance_of(
    alloc: Global,
    store: &Store,
    candidate: &Candidate,
) -> Result<Option<Instance>, AllocError>
    ensures { IfOk result (λ i. i ≡ complete (whole store.now.held) candidate.now.toi) }
{
    let Some(bytes) = store.whole(candidate.toi) else {
        return Ok(None);
    };
    match kind_of(alloc, bytes)? {
        Kind::Descriptor { number, listed } => {
            announced(alloc, store, candidate.toi, number, listed)
        }
        Kind::File { .. } => Ok(None),
        Kind::Unusable(_) => Ok(None),
    }
}

/// The instance that this descriptor announces. Its list is written out here alone.
fn announced(
    alloc: Global,
    store: &Store,
    toi: u128,
    number: u32,
    listed: Listed,
) -> Result<Option<Instance>, AllocError>
    requires { kind_at (whole store.now.held) toi ≡ Some (Kind.Descriptor number listed) }
    ensures { IfOk result (λ i. i ≡ complete (whole store.now.held) toi) }
{
    let listed = listed.write_out(alloc)?;
    let Some(files) = files_of(alloc, store, listed.as_slice())? else {
        return Ok(None);
    };
    Ok(Some(Instance::new(number, toi, listed, FileList::new(files))))
}

/// These objects as files, in order, where each is one.
fn files_of(
    alloc: Global,
    store: &Store,
    listed: &[u128],
) -> Result<Option<Vec<FileOf>>, AllocError>
    ensures { IfOk result (λ files. option_map (λ v. v.items) files ≡ files_of (whole store.now.held) listed.now) }
{
    let mut files = Vec::new(alloc);
    for toi in listed {
        let Some(file) = file_of(alloc, store, *toi)? else {
            return Ok(None);
        };
        files.push(file)?;
    }
    Ok(Some(files))
}

/// The object as a file, where it is one.
fn file_of(alloc: Global, store: &Store, toi: u128) -> Result<Option<FileOf>, AllocError>
    ensures { IfOk result (λ file. file ≡ file_of (whole store.now.held) toi) }
{
    let Some(bytes) = store.whole(toi) else {
        return Ok(None);
    };
    let kind = kind_of(alloc, bytes)?;
    Ok(as_file(toi, kind))
}

fn as_file(toi: u128, kind: Kind) -> Option<FileOf>
    ensures { result ≡ file_of_kind toi kind }
{
    match kind {
        Kind::File {
            location,
            kind,
            body,
        } => Some(FileOf {
            toi,
            location,
            kind,
            body,
        }),
        Kind::Descriptor { .. } | Kind::Unusable(_) => None,
    }
}
