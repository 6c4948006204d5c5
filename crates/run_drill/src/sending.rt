//! What a drill sends.
ghost use Rattle.std.specs.Prelude.{◌≡◌, ◌≤◌, All, IfOk, OnOk, length};
ghost use Rattle.sender_schedule.specs.Schedule.{schedule};
ghost use Rattle.sender_plan.specs.Plan.{planned};
ghost use Rattle.sender_plan.specs.declared.fault.PlanFault.TheVariants.{Memory};
ghost use Rattle.run_drill.specs.Drill as specs;

use crate::bodies::bodies;
use crate::catalog::{FILES, drill_catalog};
use crate::generator::Generator;
use compound_object::Blob;
use sender_plan::{Params, PlanFault, Session, plan};
use sender_schedule::Schedule;
use std::alloc::{AllocError, Global};

/// How the catalog is sent.
const PARAMS: Params = Params {
    tsi: 1,
    symbol: 512,
    max_block: 32,
    max_n: 48,
    cycles: 2,
};

/// The datagrams that are sent, for files that the generator draws.
#[tactic(auto, unfolding(crate::specs::Drill::sent))]
pub fn sent(alloc: Global, generator: &mut Generator) -> Result<Vec<Blob>, AllocError>
    ensures sent { IfOk result (λ v. v.items ≡ specs.sent generator.old.state) }
    ensures state { OnOk result (generator.new.state ≡ specs.after_bodies 12 generator.old.state) }
{
    let bodies = bodies(alloc, generator, FILES)?;
    let session = session(alloc, bodies.as_slice())?;
    scheduled(alloc, &session)
}

/// The session that carries these files. Its plan isn't refused: the numbers rise, and the files are few and short.
fn session(alloc: Global, bodies: &[Blob]) -> Result<Session, AllocError>
    requires many { length bodies.now ≡ 12 }
    requires short { All (λ body. length body ≤ 200000) bodies.now }
    ensures { IfOk result (λ s. s ≡ planned specs.drill_catalog bodies.now specs.drill_params) }
{
    let catalog = drill_catalog(alloc)?;
    match plan(alloc, &catalog, bodies, &PARAMS) {
        Ok(session) => Ok(session),
        Err(fault) => Err(memory(fault)),
    }
}

/// The one fault of a plan that isn't refused.
fn memory(fault: PlanFault) -> AllocError
    requires { fault ≡ Memory }
{
    let _ = fault;
    AllocError
}

/// The datagrams of a session.
fn scheduled(alloc: Global, session: &Session) -> Result<Vec<Blob>, AllocError>
    ensures { IfOk result (λ v. v.items ≡ schedule session.now) }
{
    let mut schedule = Schedule::new(session);
    let mut out = Vec::new(alloc);
    let mut datagram = Vec::new(alloc);
    while schedule.next(&mut datagram)? {
        out.push(Blob::new(datagram))?;
        datagram = Vec::new(alloc);
    }
    Ok(out)
}
