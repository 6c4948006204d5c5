//! The link of a drill: it loses datagrams, repeats them, and puts them in another order.
ghost use Rattle.std.specs.Prelude.{◌≡◌, ◌++◌, IfOk, OnOk, length, replicate};
ghost use Rattle.run_drill.specs.Drill as specs;

use crate::generator::Generator;
use compound_object::Blob;
use std::alloc::{AllocError, Global};

/// What is delivered of the datagrams that are sent, in order.
pub fn delivered(
    alloc: Global,
    generator: &mut Generator,
    sent: &[Blob],
) -> Result<Vec<Blob>, AllocError>
    ensures { IfOk result (λ v. v.items ≡ specs.delivered generator.old.state sent.now) }
{
    let mut datagrams = passed(alloc, generator, sent)?;
    shuffle(generator, datagrams.as_mut_slice());
    Ok(datagrams)
}

/// What passes: each datagram not at all, once or twice in succession.
fn passed(alloc: Global, generator: &mut Generator, sent: &[Blob]) -> Result<Vec<Blob>, AllocError>
    ensures passed { IfOk result (λ v. v.items ≡ specs.passed generator.old.state sent.now) }
    ensures state { OnOk result (generator.new.state ≡ specs.after_draws (length sent.now) generator.old.state) }
{
    let mut out = Vec::new(alloc);
    for datagram in sent {
        let copies = copies(generator.draw());
        push_copies(&mut out, datagram, copies)?;
    }
    Ok(out)
}

/// How many times a datagram is delivered at this draw.
#[tactic(auto, unfolding(crate::specs::Drill::copies))]
fn copies(draw: u32) -> u32
    ensures { result ≡ specs.copies draw }
{
    if draw % 3 == 0 {
        0
    } else if draw % 8 == 1 {
        2
    } else {
        1
    }
}

/// Adds this many copies of a datagram.
fn push_copies(out: &mut Vec<Blob>, datagram: &Blob, copies: u32) -> Result<(), AllocError>
    ensures { OnOk result (out.new.items ≡ out.old.items ++ replicate copies datagram.now) }
{
    for _copy in 0..copies {
        out.push(datagram.copy()?)?;
    }
    Ok(())
}

/// Puts the datagrams in another order: each, from the last one on, is exchanged with a drawn one that isn't after it.
fn shuffle(generator: &mut Generator, datagrams: &mut [Blob])
    ensures { datagrams.new ≡ specs.reordered generator.old.state datagrams.old }
{
    let mut left = datagrams.len();
    while left > 1 {
        let place = u64::from(generator.draw()) % left as u64;
        left -= 1;
        datagrams.swap(left, place as usize);
    }
}
