//! The files of a drill.
ghost use Rattle.std.specs.Prelude.{◌≡◌, ◌<◌, IfOk, OnOk, length};
ghost use Rattle.run_drill.specs.Drill as specs;

use crate::generator::Generator;
use compound_object::Blob;
use std::alloc::{AllocError, Global};

/// No file has as many bytes.
const MOST_BYTES: u32 = 200_000;

/// So many files.
pub fn bodies(alloc: Global, generator: &mut Generator, count: u32) -> Result<Vec<Blob>, AllocError>
    ensures bodies { IfOk result (λ v. v.items ≡ specs.bodies count generator.old.state) }
    ensures state { OnOk result (generator.new.state ≡ specs.after_bodies count generator.old.state) }
{
    let mut out = Vec::new(alloc);
    for _file in 0..count {
        out.push(body(alloc, generator)?)?;
    }
    Ok(out)
}

/// A file: its length, and then each of its bytes.
#[tactic(auto, unfolding(crate::specs::Drill::body, crate::specs::Drill::after_body, crate::specs::Drill::body_length))]
fn body(alloc: Global, generator: &mut Generator) -> Result<Blob, AllocError>
    ensures body { IfOk result (λ b. b ≡ specs.body generator.old.state) }
    ensures state { OnOk result (generator.new.state ≡ specs.after_body generator.old.state) }
{
    let length = generator.draw() % MOST_BYTES;
    bytes(alloc, generator, length)
}

/// So many bytes.
fn bytes(alloc: Global, generator: &mut Generator, count: u32) -> Result<Blob, AllocError>
    ensures bytes { IfOk result (λ b. b ≡ specs.drawn_bytes count generator.old.state) }
    ensures state { OnOk result (generator.new.state ≡ specs.after_draws count generator.old.state) }
{
    let mut out = Vec::new(alloc);
    for _byte in 0..count {
        out.push((generator.draw() % 256) as u8)?;
    }
    Ok(Blob::new(out))
}
