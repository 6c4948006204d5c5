//! The session of a catalog.

ghost use Rattle.std.specs.Prelude.{◌≡◌, ◌≢◌, ◌≤◌, ◌<◌, ◌+◌, ◌^◌, ◌∷◌, ◌++◌, ℕ, List, []};
ghost use Rattle.std.specs.Prelude.{length, map, take, Some, None, All, IfOk, OnOk, IfErr, unwrap_or, slice_get, true};
ghost use Rattle.std.specs.List.{IsDistinct, flat_map, AllByRecursion, list_any, position_or_len};
ghost use Rattle.std.specs.Str.{bytes_eq};
ghost use Rattle.wire_bytes.specs.FirstFault.{first_fault};
ghost use Rattle.carousel_cid.specs.Repeats.{first_places, are_different};
ghost use Rattle.sender_plan.specs.declared.fault.PlanFault.TheVariants.{Memory, TooLarge};
ghost use Rattle.sender_plan.specs.CatalogInstance as specs;
ghost use Rattle.sender_plan.specs.Names.{names_of};
ghost use Rattle.sender_plan.specs.Check.{not_rising};
ghost use Rattle.sender_plan.specs.CatalogInstance.{IsItem};
ghost use Rattle.sender_plan.specs.Content.{Content, Descriptor, same};
ghost use Rattle.sender_plan.specs.Plan.{planned, plan_faults, total_of, file_of, files_of, contents, sent_of, session_of};
ghost use Rattle.sender_plan.specs.Session.{IsSession};
ghost use Rattle.sender_plan.specs.Inner.Sets.{added, added_all};
ghost use Rattle.sender_plan.specs.Inner.Planning.{Keeps, IsReady, IsFilable, HasPlaces, shown_kind, place_in, body_at};

use crate::bodies::Bodies;
use crate::catalog::{Catalog, CatalogInstance, CatalogItem};
use crate::fault::PlanFault;
use crate::key::FileKey;
use crate::names::name_set;
use crate::params::{Params, check};
use crate::planner::Planner;
use crate::session::{SentInstance, Session};
use compound_object::Blob;
use indexmap::{IndexMap, IndexSet};
use std::alloc::{AllocError, Global};

/// How many bytes the bodies of a catalog's files may have together.
pub const MOST_BYTES: u64 = 268_435_456;

/// The session of a catalog, whose files have these bodies, in the order of its names.
///
/// Objects are numbered from 1 by first appearance: an instance's files in order, and then its descriptor. A file that
/// equals an earlier one in location, type and bytes is the same object. It is refused as `check` refuses it, or else as
/// `TooLarge` where the bodies have together more than 268,435,456 bytes.
pub fn plan(
    alloc: Global,
    catalog: &Catalog,
    bodies: &[Blob],
    params: &Params,
) -> Result<Session, PlanFault>
    requires many { length bodies.now ≡ length (names_of catalog.now) }
    requires short { All (λ body. length body ≤ 16777216) bodies.now }
    requires texts { All (λ i. All (λ item. length item.location + length (unwrap_or item.kind []) ≤ 16777216) i.items) catalog.now }
    requires symbol_from { 8 ≤ params.now.symbol }
    requires symbol_to { params.now.symbol ≤ 65475 }
    requires block { 1 ≤ params.now.max_block }
    requires cycles { 1 ≤ params.now.cycles }
    ensures ok { IfOk result (λ s. s ≡ planned catalog.now bodies.now params.now) }
    ensures session { IfOk result (λ s. IsSession s) }
    ensures sound { OnOk result (first_fault (plan_faults catalog.now bodies.now params.now) ≡ None) }
    ensures err { IfErr result (λ fault. fault ≢ Memory → first_fault (plan_faults catalog.now bodies.now params.now) ≡ Some fault) }
    ensures memory { IfErr result (λ fault. fault ≡ Memory → first_fault (plan_faults catalog.now bodies.now params.now) ≡ None) }
{
    refuse(catalog, bodies, params)?;
    Ok(session(alloc, catalog, bodies, params)?)
}

/// Refuses what can't be planned. It takes no memory.
pub(crate) fn refuse(catalog: &Catalog, bodies: &[Blob], params: &Params) -> Result<(), PlanFault>
    requires many { length bodies.now ≡ length (names_of catalog.now) }
    requires short { All (λ body. length body ≤ 16777216) bodies.now }
    ensures ok { OnOk result (first_fault (plan_faults catalog.now bodies.now params.now) ≡ None) }
    ensures err { IfErr result (λ fault. first_fault (plan_faults catalog.now bodies.now params.now) ≡ Some fault) }
    ensures memory { IfErr result (λ fault. fault ≢ Memory) }
{
    check(catalog, params)?;
    refuse_total(total_len(bodies))
}

/// Refuses bodies that have together more bytes than they may.
pub(crate) fn refuse_total(total: u64) -> Result<(), PlanFault>
    ensures ok { OnOk result (total ≤ 268435456) }
    ensures err { IfErr result (λ fault. (fault ≡ TooLarge total) × (268435456 < total)) }
{
    if total > MOST_BYTES {
        return Err(PlanFault::TooLarge { total });
    }
    Ok(())
}

/// The session of a catalog that isn't refused.
fn session(
    alloc: Global,
    catalog: &Catalog,
    bodies: &[Blob],
    params: &Params,
) -> Result<Session, AllocError>
    requires many { length bodies.now ≡ length (names_of catalog.now) }
    requires short { All (λ body. length body ≤ 16777216) bodies.now }
    requires texts { All (λ i. All (λ item. length item.location + length (unwrap_or item.kind []) ≤ 16777216) i.items) catalog.now }
    requires symbol_from { 8 ≤ params.now.symbol }
    requires symbol_to { params.now.symbol ≤ 65475 }
    requires block { 1 ≤ params.now.max_block }
    requires cycles { 1 ≤ params.now.cycles }
    requires sound { first_fault (plan_faults catalog.now bodies.now params.now) ≡ None }
    ensures planned { IfOk result (λ s. s ≡ planned catalog.now bodies.now params.now) }
    ensures session { IfOk result (λ s. IsSession s) }
{
    let instances = catalog.as_slice();
    let names = name_set(alloc, instances)?;
    let bodies = Bodies::new(alloc, bodies)?;
    let mut planner = Planner {
        params: *params,
        bodies: bodies.as_slice(),
        objects: Vec::new(alloc),
        files: IndexMap::new(alloc),
    };
    let sent = sent_all(&mut planner, &names, &bodies.places, instances)?;
    Ok(Session::new(params.tsi, planner.objects, sent, params.cycles))
}

/// How many bytes the bodies have together.
fn total_len(bodies: &[Blob]) -> u64
    requires many { length bodies.now ≤ 1048576 }
    requires short { All (λ body. length body ≤ 16777216) bodies.now }
    ensures { result ≡ total_of bodies.now }
{
    let mut total: u64 = 0;
    for body in bodies {
        total += body.as_slice().len() as u64;
    }
    total
}

/// The instances, whose objects are made.
fn sent_all<'a>(
    planner: &mut Planner<'a, '_>,
    names: &IndexSet<&'a str>,
    places: &[usize],
    instances: &'a [CatalogInstance],
) -> Result<Vec<SentInstance>, AllocError>
    requires ready { IsReady planner.old }
    requires fresh { (lists : specs.CatalogInstance → List ℕ) → Keeps lists [] planner.old }
    requires many { length places.now ≡ length names.now.keys }
    requires within { All (λ place. place < length planner.old.bodies.now) places.now }
    requires rising { not_rising 1 None instances.now ≡ None }
    requires few { All (λ i. length i.items ≤ 4096) instances.now }
    requires filable { All (λ i. All (IsFilable names.now.keys places.now planner.old.bodies.now) i.items) instances.now }
    ensures ready { OnOk result (IsReady planner.new) }
    ensures objects { OnOk result (
        let body = body_at names.now.keys places.now planner.old.bodies.now in
        planner.new.objects.items ≡ (session_of (contents body instances.now) body instances.now planner.old.params).objects) }
    ensures instances { IfOk result (λ sent.
        let body = body_at names.now.keys places.now planner.old.bodies.now in
        sent.items ≡ map (sent_of (contents body instances.now) body) instances.now) }
    ensures known { IfOk result (λ sent. AllByRecursion (HasPlaces (length planner.new.objects.items)) sent.items) }
{
    let alloc = *planner.objects.allocator();
    let mut out = Vec::new(alloc);
    for instance in instances {
        out.push(sent(planner, names, places, instance)?)?;
    }
    Ok(out)
}

/// An instance, whose objects are made.
fn sent<'a>(
    planner: &mut Planner<'a, '_>,
    names: &IndexSet<&'a str>,
    places: &[usize],
    instance: &'a CatalogInstance,
) -> Result<SentInstance, AllocError>
    requires ready { IsReady planner.old }
    requires many { length places.now ≡ length names.now.keys }
    requires within { All (λ place. place < length planner.old.bodies.now) places.now }
    requires few { length instance.now.items ≤ 4096 }
    requires filable { All (IsFilable names.now.keys places.now planner.old.bodies.now) instance.now.items }
    ensures same { (planner.new.params ≡ planner.old.params) × (planner.new.bodies.now ≡ planner.old.bodies.now) }
    ensures ready { OnOk result (IsReady planner.new) }
    ensures number { IfOk result (λ s. s.number ≡ instance.now.number) }
    ensures different { IfOk result (λ s. are_different s.listed ≡ true) }
    ensures listed { IfOk result (λ s. (lists : specs.CatalogInstance → List ℕ) (kept : List Content) → Keeps lists kept planner.old → (more : List Content)
        → let files = files_of (body_at names.now.keys places.now planner.old.bodies.now) instance.now in
        s.listed ≡ first_places (map (place_in (added_all same kept files ++ more)) files)) }
    ensures toi { IfOk result (λ s. (lists : specs.CatalogInstance → List ℕ) (kept : List Content) → Keeps lists kept planner.old
        → s.descriptor_toi ≡ length (added_all same kept (files_of (body_at names.now.keys places.now planner.old.bodies.now) instance.now)) + 1) }
    ensures keeps { IfOk result (λ s. (lists : specs.CatalogInstance → List ℕ) (kept : List Content) → Keeps lists kept planner.old → lists instance.now ≡ s.listed
        → Keeps lists (added_all same kept (files_of (body_at names.now.keys places.now planner.old.bodies.now) instance.now)
        ++ Descriptor instance.now ∷ []) planner.new) }
{
    let listed = listed(planner, names, places, instance.items.as_slice())?;
    let descriptor_toi = planner.descriptor(instance.number, listed.as_slice())? as u128;
    Ok(SentInstance {
        number: instance.number,
        descriptor_toi,
        listed,
    })
}

/// The identifiers of files, whose objects are made, repeats left out.
fn listed<'a>(
    planner: &mut Planner<'a, '_>,
    names: &IndexSet<&'a str>,
    places: &[usize],
    items: &'a [CatalogItem],
) -> Result<Vec<u128>, AllocError>
    requires ready { IsReady planner.old }
    requires many { length places.now ≡ length names.now.keys }
    requires within { All (λ place. place < length planner.old.bodies.now) places.now }
    requires filable { All (IsFilable names.now.keys places.now planner.old.bodies.now) items.now }
    ensures same { (planner.new.params ≡ planner.old.params) × (planner.new.bodies.now ≡ planner.old.bodies.now) }
    ensures ready { OnOk result (IsReady planner.new) }
    ensures few { IfOk result (λ v. length v.items ≤ length items.now) }
    ensures different { IfOk result (λ v. are_different v.items ≡ true) }
    ensures small { IfOk result (λ v. AllByRecursion (λ toi. toi < 2 ^ 112) v.items) }
    ensures keeps { OnOk result ((lists : specs.CatalogInstance → List ℕ) (kept : List Content) → Keeps lists kept planner.old
        → Keeps lists (added_all same kept (map (file_of (body_at names.now.keys places.now planner.old.bodies.now)) items.now)) planner.new) }
    ensures listed { IfOk result (λ v. (lists : specs.CatalogInstance → List ℕ) (kept : List Content) → Keeps lists kept planner.old → (more : List Content)
        → let files = map (file_of (body_at names.now.keys places.now planner.old.bodies.now)) items.now in
        v.items ≡ first_places (map (place_in (added_all same kept files ++ more)) files)) }
{
    let alloc = *planner.objects.allocator();
    let mut listed = IndexSet::new(alloc);
    for item in items {
        listed.insert(item_toi(planner, names, places, item)?)?;
    }
    Vec::from_slice(alloc, listed.as_slice())
}

/// The identifier of an item's file, whose object is made where it isn't there yet.
fn item_toi<'a>(
    planner: &mut Planner<'a, '_>,
    names: &IndexSet<&'a str>,
    places: &[usize],
    item: &'a CatalogItem,
) -> Result<u128, AllocError>
    requires ready { IsReady planner.old }
    requires many { length places.now ≡ length names.now.keys }
    requires within { All (λ place. place < length planner.old.bodies.now) places.now }
    requires filable { IsFilable names.now.keys places.now planner.old.bodies.now item.now }
    ensures same { (planner.new.params ≡ planner.old.params) × (planner.new.bodies.now ≡ planner.old.bodies.now) }
    ensures ready { OnOk result (IsReady planner.new) }
    ensures small { IfOk result (λ toi. toi < 2 ^ 64) }
    ensures keeps { OnOk result ((lists : specs.CatalogInstance → List ℕ) (kept : List Content) → Keeps lists kept planner.old
        → Keeps lists (added same kept (file_of (body_at names.now.keys places.now planner.old.bodies.now) item.now)) planner.new) }
    ensures toi { IfOk result (λ toi. (lists : specs.CatalogInstance → List ℕ) (kept : List Content) → Keeps lists kept planner.old
        → let file = file_of (body_at names.now.keys places.now planner.old.bodies.now) item.now in toi ≡ place_in (added same kept file) file) }
{
    let body = place_of(names, places, item.name.as_str());
    Ok(planner.file(key_of(item, body))? as u128)
}

/// The place of a name's body among the distinct ones.
fn place_of(names: &IndexSet<&str>, places: &[usize], name: &str) -> usize
    requires known { list_any (bytes_eq name.now) (map (λ k. k.now) names.now.keys) ≡ true }
    requires many { length places.now ≡ length names.now.keys }
    ensures { slice_get places.now (position_or_len (bytes_eq name.now) (map (λ k. k.now) names.now.keys)) ≡ Some result }
{
    match names.get_index_of(&name) {
        Some(at) => places[at],
        None => 0,
    }
}

fn key_of<'a>(item: &'a CatalogItem, body: usize) -> FileKey<'a>
    ensures location { result.location.now ≡ item.now.location }
    ensures kind { shown_kind result.kind ≡ item.now.kind }
    ensures body { result.body ≡ body }
    ensures filed { IsItem item.now }
{
    FileKey {
        location: item.location.as_str(),
        kind: match &item.kind {
            Some(kind) => Some(kind.as_str()),
            None => None,
        },
        body,
    }
}
