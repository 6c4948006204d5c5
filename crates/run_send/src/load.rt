//! The session of a send, from the files.
ghost use Rattle.std.specs.Prelude.{◌≡◌, ◌≤◌, ◌+◌, [], All, IfOk, length, unwrap_or};
ghost use Rattle.edge_io.specs.Faults.{Rose};
ghost use Rattle.sender_plan.specs.Names.{names_of};
ghost use Rattle.sender_plan.specs.Plan.{planned, plan_faults};
ghost use Rattle.sender_plan.specs.Session.{IsSession};
ghost use Rattle.run_send.specs.Send.{asked, catalog_in, checked, session_of, unless_any};
ghost use Rattle.run_send.specs.Ranges.{AreParams};
ghost use Rattle.run_send.specs.Inner.Stages.{Decides, Halts, fault_stop};

use crate::bodies::{Bodies, read_bodies, read_file};
use crate::sending::{Refusal, Sending, Stop};
use compound_object::Blob;
use edge_io::Files;
use sender_plan::{Catalog, CatalogFault, Params, PlanFault, Session};
use std::alloc::Global;

/// The session that is sent: the catalog's file is read, then it is checked, then the file of each of its names is
/// read, and then it is planned. The first of these that refuses, fails or has no memory is the answer.
#[tactic(auto, using(crate::proofs::Sends::stopped, crate::proofs::Sends::decided, crate::proofs::Sends::not_listed, crate::proofs::Sends::loaded, crate::proofs::Sends::halts_later, crate::proofs::Sends::halts_at_none))]
pub fn load<F: Files>(alloc: Global, sending: &Sending, files: &mut F) -> Result<Session, Stop>
    requires { AreParams sending.now.params }
    ensures decides { F.told files.old → Decides (asked (F.found files.old) sending.now) result }
    ensures sound { IfOk result (λ s. IsSession s) }
    ensures halts { Halts result ⊥ (Rose (F.faults files.old) (F.faults files.new)) (Rose (F.misses files.old) (F.misses files.new)) }
{
    let text = match read_file(files, &sending.catalog) {
        Ok(text) => text,
        Err(stop) => return Err(stop),
    };
    let catalog = match listed(alloc, &text) {
        Ok(catalog) => catalog,
        Err(stop) => return Err(stop),
    };
    session_of(alloc, &catalog, &sending.params, files)
}

/// The session of a catalog whose files are read.
#[tactic(auto, using(crate::proofs::Sends::stopped, crate::proofs::Sends::decided, crate::proofs::Sends::halts_later, crate::proofs::Sends::halts_at_none))]
fn session_of<F: Files>(
    alloc: Global,
    catalog: &Catalog,
    params: &Params,
    files: &mut F,
) -> Result<Session, Stop>
    requires params { AreParams params.now }
    requires texts { All (λ i. All (λ item. length item.location + length (unwrap_or item.kind []) ≤ 16777216) i.items) catalog.now }
    ensures decides { F.told files.old → Decides (session_of (F.found files.old) params.now catalog.now) result }
    ensures sound { IfOk result (λ s. IsSession s) }
    ensures halts { Halts result ⊥ (Rose (F.faults files.old) (F.faults files.new)) (Rose (F.misses files.old) (F.misses files.new)) }
{
    match check(catalog, params) {
        Ok(()) => {}
        Err(stop) => return Err(stop),
    }
    let names = catalog.names()?;
    let bodies = match read_bodies(alloc, files, names.as_slice()) {
        Ok(bodies) => bodies,
        Err(stop) => return Err(stop),
    };
    plan(alloc, catalog, &bodies, params)
}

/// What the text lists.
#[tactic(auto, using(sender_plan::proofs::Public::texts_within))]
fn listed(alloc: Global, text: &Blob) -> Result<Catalog, Stop>
    requires { length text.now ≤ 16777216 }
    ensures decides { Decides (catalog_in text.now) result }
    ensures halts { Halts result ⊥ ⊥ ⊥ }
    ensures texts { IfOk result (λ c. All (λ i. All (λ item. length item.location + length (unwrap_or item.kind []) ≤ 16777216) i.items) c) }
{
    match sender_plan::read_catalog(alloc, text.as_slice()) {
        Ok(catalog) => Ok(catalog),
        Err(CatalogFault::Line { line, cause }) => {
            Err(Stop::Refused(Refusal::Line { line, cause }))
        }
        Err(CatalogFault::Memory) => Err(Stop::Memory),
    }
}

/// Refuses what can't be planned, before the files are read.
fn check(catalog: &Catalog, params: &Params) -> Result<(), Stop>
    ensures decides { Decides (checked catalog.now params.now) result }
    ensures halts { Halts result ⊥ ⊥ ⊥ }
{
    match sender_plan::check(catalog, params) {
        Ok(()) => Ok(()),
        Err(fault) => Err(stop_of(fault)),
    }
}

/// Plans the session.
fn plan(alloc: Global, catalog: &Catalog, bodies: &Bodies, params: &Params) -> Result<Session, Stop>
    requires params { AreParams params.now }
    requires many { length bodies.now ≡ length (names_of catalog.now) }
    requires texts { All (λ i. All (λ item. length item.location + length (unwrap_or item.kind []) ≤ 16777216) i.items) catalog.now }
    ensures decides { Decides (unless_any (plan_faults catalog.now bodies.now params.now) (planned catalog.now bodies.now params.now)) result }
    ensures sound { IfOk result (λ s. IsSession s) }
    ensures halts { Halts result ⊥ ⊥ ⊥ }
{
    match sender_plan::plan(alloc, catalog, bodies.as_slice(), params) {
        Ok(session) => Ok(session),
        Err(fault) => Err(stop_of(fault)),
    }
}

/// What a fault of a plan comes to.
fn stop_of(fault: PlanFault) -> Stop
    ensures { result ≡ fault_stop fault }
{
    match fault {
        PlanFault::NumberNotRising { at } => Stop::Refused(Refusal::Plan { cause: 1, at }),
        PlanFault::TooManyFiles { at } => Stop::Refused(Refusal::Plan { cause: 2, at }),
        PlanFault::TooLarge { total } => Stop::Refused(Refusal::Plan {
            cause: 3,
            at: total,
        }),
        PlanFault::Params => Stop::Refused(Refusal::Plan { cause: 4, at: 0 }),
        PlanFault::Memory => Stop::Memory,
    }
}
