//! The bodies of the files that are sent.
ghost use Rattle.std.specs.Prelude.{◌≡◌, ◌≤◌, ◌+◌, ◌++◌, ◌∷◌, [], ℕ, List, All, IfOk, OnOk, length};
ghost use Rattle.edge_io.specs.Faults.{Rose};
ghost use Rattle.run_send.specs.Send.{and_then, bodies_of, bytes_under, within};
ghost use Rattle.run_send.specs.Inner.Stages.{Decides, Halts};

use crate::sending::{Refusal, Stop};
use compound_object::Blob;
use edge_io::{FileFault, Files};
use meta_text::Label;
use sender_plan::MOST_BYTES;
use std::alloc::{AllocError, Global};
use std::marker::Model;

/// Bodies of files, each of at most 16,777,216 bytes.
#[derive(Drop)]
pub struct Bodies {
    bodies: Vec<Blob>,
}

impl Model for Bodies {
    ghost use Rattle.std.specs.Prelude.{ℕ, List, All, length, ◌≤◌};

    ghost Value = { List (List ℕ) };

    ghost view = { λ a. a.bodies.items };

    ghost invariant = { λ a. All (λ body. length body ≤ 16777216) a.bodies.items };
}

impl Bodies {
    /// No body.
    pub fn new(alloc: Global) -> Bodies
        ensures { result ≡ [] }
    {
        Bodies {
            bodies: Vec::new(alloc),
        }
    }

    /// Adds a body at the end.
    pub fn push(&mut self, body: Blob) -> Result<(), AllocError>
        requires { length body ≤ 16777216 }
        ensures { OnOk result (self.new ≡ self.old ++ body ∷ []) }
    {
        self.bodies.push(body)?;
        Ok(())
    }

    /// The bodies.
    pub fn as_slice(&self) -> &[Blob]
        ensures bodies { result.now ≡ self.now }
        ensures short { All (λ body. length body ≤ 16777216) self.now }
    {
        self.bodies.as_slice()
    }
}

/// The bodies of the files with these names, in order. The first that brings all together above 268,435,456 bytes is
/// refused, and no file after it is read.
#[tactic(auto, using(crate::proofs::Sends::bodies_more, crate::proofs::Sends::bodies_stop, crate::proofs::Sends::bodies_all, crate::proofs::Sends::halts_later))]
pub fn read_bodies<F: Files>(alloc: Global, files: &mut F, names: &[Label]) -> Result<Bodies, Stop>
    ensures decides { F.told files.old → Decides (bodies_of (F.found files.old) 0 names.now) result }
    ensures many { IfOk result (λ bodies. length bodies ≡ length names.now) }
    ensures halts { Halts result ⊥ (Rose (F.faults files.old) (F.faults files.new)) (Rose (F.misses files.old) (F.misses files.new)) }
    ensures grows { F.faults files.old ≤ F.faults files.new }
    ensures grows_misses { F.misses files.old ≤ F.misses files.new }
{
    let mut bodies = Bodies::new(alloc);
    let mut total: u64 = 0;
    for name in names {
        let body = match read_within(files, name, total) {
            Ok(body) => body,
            Err(stop) => return Err(stop),
        };
        total += body.as_slice().len() as u64;
        bodies.push(body)?;
    }
    Ok(bodies)
}

/// The body of a file, after this many bytes of other bodies.
#[tactic(auto, using(crate::proofs::Sends::stopped, crate::proofs::Sends::decided))]
fn read_within<F: Files>(files: &mut F, name: &Label, before: u64) -> Result<Blob, Stop>
    requires { before ≤ 268435456 }
    ensures decides { F.told files.old → Decides (and_then (bytes_under name.now (F.found files.old name.now)) (within before)) result }
    ensures most { IfOk result (λ body. before + length body ≤ 268435456) }
    ensures short { IfOk result (λ body. length body ≤ 16777216) }
    ensures told { F.told files.old → F.told files.new }
    ensures same { F.told files.old → (other : List ℕ) → F.found files.new other ≡ F.found files.old other }
    ensures halts { Halts result ⊥ (Rose (F.faults files.old) (F.faults files.new)) (Rose (F.misses files.old) (F.misses files.new)) }
    ensures grows { F.faults files.old ≤ F.faults files.new }
    ensures grows_misses { F.misses files.old ≤ F.misses files.new }
{
    let body = match read_file(files, name) {
        Ok(body) => body,
        Err(stop) => return Err(stop),
    };
    let total = before + body.as_slice().len() as u64;
    if total > MOST_BYTES {
        return Err(Stop::Refused(Refusal::Plan {
            cause: 3,
            at: total,
        }));
    }
    Ok(body)
}

/// The bytes of a file.
pub fn read_file<F: Files>(files: &mut F, name: &Label) -> Result<Blob, Stop>
    ensures decides { F.told files.old → Decides (bytes_under name.now (F.found files.old name.now)) result }
    ensures short { IfOk result (λ body. length body ≤ 16777216) }
    ensures told { F.told files.old → F.told files.new }
    ensures same { F.told files.old → (other : List ℕ) → F.found files.new other ≡ F.found files.old other }
    ensures halts { Halts result ⊥ (Rose (F.faults files.old) (F.faults files.new)) (Rose (F.misses files.old) (F.misses files.new)) }
    ensures grows { F.faults files.old ≤ F.faults files.new }
    ensures grows_misses { F.misses files.old ≤ F.misses files.new }
{
    match files.read(name.as_str()) {
        Ok(bytes) => Ok(Blob::new(bytes)),
        Err(FileFault::Absent) => Err(Stop::Refused(Refusal::Absent(name.copy()?))),
        Err(FileFault::TooBig) => Err(Stop::Refused(Refusal::TooBig(name.copy()?))),
        Err(FileFault::Failed) => Err(Stop::Files),
        Err(FileFault::Memory) => Err(Stop::Memory),
    }
}
