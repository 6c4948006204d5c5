//! Slices joined to files.

ghost use Rattle.std.specs.Prelude.{◌≡◌, ◌≤◌, ◌∷◌, ◌++◌, [], ℕ, true, false, map, unwrap_or, Some, None, not, if◌then◌else◌, ◌==◌, List, IfOk, IfErr, OnOk, OnErr};
ghost use Rattle.std.specs.BTreeMap.{get};
ghost use Rattle.std.specs.List.{flat_map};
ghost use Rattle.std.specs.Option.{option_and_then, option_copied, option_eq, option_map, is_some};
ghost use Rattle.std.specs.Ordering.{nat_cmp};
ghost use Rattle.std.specs.Str.{bytes_eq};
ghost use Rattle.slice_join.specs.declared.fault.JoinFault.TheVariants.{Header, Disagree, Twice, Missing};
ghost use Rattle.slice_join.specs.SliceKind as kinds;
ghost use Rattle.slice_join.specs.Groups.{files_of};
ghost use Rattle.slice_join.specs.Faults as faults;
ghost use Rattle.slice_join.specs.Faults.{first_where, has_bad_head, disagrees, repeated, missing, is_among, places_of, places_to, said, join_fault};
ghost use Rattle.slice_join.specs.Joins as specs;
ghost use Rattle.slice_join.specs.Joins.{joined, joined_body, joins};
ghost use Rattle.slice_join.specs.Inner.Places.{AreParts};
ghost use Rattle.slice_join.specs.Inner.Stops.{StopsFor};

use crate::fault::JoinFault;
use crate::groups::{Entry, entries, is_slice};
use crate::joined::{Joined, Outcome};
use crate::kind::whole_kind;
use crate::slice::Slice;
use crate::stop::Stop;
use carousel_cid::{FileOf, Instance};
use compound_object::Blob;
use meta_text::Label;
use std::alloc::{AllocError, Global};
use std::collections::BTreeMap;
use std::marker::Model;

/// How many slices a file may have.
const MOST_PIECES: u32 = 4096;

/// The part of a file at each place.
type Parts<'a> = BTreeMap<u32, &'a [u8]>;

/// A slice's file, with what its body says.
#[derive(Drop)]
struct Told<'a> {
    file: &'a FileOf,
    says: Slice<'a>,
}

impl<'a> Model for Told<'a> {
    ghost use Rattle.std.specs.Prelude.{◌≡◌};
    ghost use Rattle.carousel_cid.specs.declared.file_of.FileOf.{FileOf};
    ghost use Rattle.slice_join.specs.Faults.{said};

    ghost Value = { FileOf };

    ghost view = { λ t. t.file.now };

    ghost invariant = { λ t. t.says ≡ said t.file.now };
}

impl<'a> Told<'a> {
    /// Which slice of its file it is.
    fn place(&self) -> u32
        ensures { result ≡ (said self.now).place }
    {
        self.says.place
    }

    /// How many slices it says that the file has.
    fn count(&self) -> u32
        ensures { result ≡ (said self.now).count }
    {
        self.says.count
    }

    /// How many bytes it says that the file has.
    fn total(&self) -> u64
        ensures { result ≡ (said self.now).total }
    {
        self.says.total
    }

    /// The bytes of the file that it carries.
    fn part(&self) -> &'a [u8]
        ensures { result.now ≡ (said self.now).part }
    {
        self.says.part
    }
}

/// The files of an instance, those that are cut into slices joined: each file that is no slice by itself, and what the
/// slices under each location make, in order of first appearance.
#[tactic(auto, unfolding(crate::specs::Joins::joins))]
pub fn join(alloc: Global, instance: &Instance) -> Result<Vec<Joined>, AllocError>
    ensures { IfOk result (λ v. v.items ≡ joins instance.now.files) }
{
    let entries = entries(alloc, instance.files.as_slice())?;
    joined_all(alloc, entries.as_slice())
}

fn joined_all(alloc: Global, entries: &[Entry<'_>]) -> Result<Vec<Joined>, AllocError>
    ensures { IfOk result (λ v. v.items ≡ map joined entries.now) }
{
    let mut all = Vec::with_capacity(alloc, entries.len())?;
    for entry in entries {
        all.push(joined_entry(alloc, entry)?)?;
    }
    Ok(all)
}

#[tactic(auto, unfolding(crate::specs::Joins::joined))]
fn joined_entry(alloc: Global, entry: &Entry<'_>) -> Result<Joined, AllocError>
    ensures { IfOk result (λ j. j ≡ joined entry.now) }
{
    let first = entry.first();
    if !is_slice(first) {
        return alone(first);
    }
    match body_of(alloc, entry) {
        Ok(body) => whole(first, body),
        Err(Stop::Fault(fault)) => broken(first, fault),
        Err(Stop::Memory) => Err(AllocError),
    }
}

/// A file that is no slice.
fn alone(file: &FileOf) -> Result<Joined, AllocError>
    ensures { IfOk result (λ j. j ≡ specs.alone file.now) }
{
    let file = file.copy()?;
    Ok(Joined {
        toi: file.toi,
        location: file.location,
        kind: file.kind,
        outcome: Outcome::Whole(file.body),
    })
}

/// The file with this body, of which this is the first slice.
fn whole(first: &FileOf, body: Vec<u8>) -> Result<Joined, AllocError>
    ensures { IfOk result (λ j. j ≡ record { toi = first.now.toi; location = first.now.location; kind = option_and_then kinds.whole_kind first.now.kind; outcome = Outcome.Whole body.items }) }
{
    let alloc = *body.allocator();
    Ok(Joined {
        toi: first.toi,
        location: first.location.copy()?,
        kind: whole_type(alloc, &first.kind)?,
        outcome: Outcome::Whole(Blob::new(body)),
    })
}

/// The type of the whole file, as that of a slice says it.
fn whole_type(alloc: Global, kind: &Option<Label>) -> Result<Option<Label>, AllocError>
    ensures { IfOk result (λ r. r ≡ option_and_then kinds.whole_kind kind.now) }
{
    let Some(kind) = kind else {
        return Ok(None);
    };
    match whole_kind(kind.as_str()) {
        None => Ok(None),
        Some(whole) => Ok(Some(Label::new(whole.to_string(alloc)?))),
    }
}

/// The file that the slices behind this one don't make.
fn broken(first: &FileOf, fault: JoinFault) -> Result<Joined, AllocError>
    ensures { IfOk result (λ j. j ≡ record { toi = first.now.toi; location = first.now.location; kind = None; outcome = Outcome.Broken fault }) }
{
    Ok(Joined {
        toi: first.toi,
        location: first.location.copy()?,
        kind: None,
        outcome: Outcome::Broken(fault),
    })
}

/// The parts of a group's slices in order of place, each copied once; or the first fault that holds.
fn body_of(alloc: Global, entry: &Entry<'_>) -> Result<Vec<u8>, Stop>
    ensures ok { OnOk result (join_fault entry.now ≡ None) }
    ensures body { IfOk result (λ v. v.items ≡ joined_body entry.now) }
    ensures err { IfErr result (λ stop. StopsFor (join_fault entry.now) stop) }
{
    let all = all_told(alloc, entry)?;
    let first = &all[0];
    agree(first, &all)?;
    let parts = parts_of(alloc, &all)?;
    complete(&parts, first.count())?;
    let found = found_in(&all)?;
    if found != first.total() {
        return Err(Stop::Fault(JoinFault::Total { found }));
    }
    Ok(joined_parts(alloc, &parts, first.count(), found)?)
}

/// The slice that a file is.
#[tactic(auto, using(crate::proofs::Bodies::head_said, crate::proofs::Bodies::head_short))]
fn read_told(file: &FileOf) -> Result<Told<'_>, JoinFault>
    ensures ok { OnOk result (has_bad_head file.now ≡ false) }
    ensures file { IfOk result (λ t. t ≡ file.now) }
    ensures head { OnErr result (has_bad_head file.now ≡ true) }
    ensures err { IfErr result (λ fault. fault ≡ JoinFault.Header file.now.toi) }
{
    let Some(says) = Slice::read(file.body.as_slice()) else {
        return Err(JoinFault::Header { toi: file.toi });
    };
    if !is_placed(&says) {
        return Err(JoinFault::Header { toi: file.toi });
    }
    Ok(Told { file, says })
}

/// Whether the place is from 1 to the count, and the count at most 4,096.
fn is_placed(slice: &Slice<'_>) -> bool
    ensures { result ≡ faults.is_placed slice.now }
{
    0 < slice.place && slice.place <= slice.count && slice.count <= MOST_PIECES
}

/// The slices of a group in listed order.
fn all_told<'a>(alloc: Global, entry: &Entry<'a>) -> Result<Vec<Told<'a>>, Stop>
    ensures ok { OnOk result (first_where has_bad_head (files_of entry.now) ≡ None) }
    ensures all { IfOk result (λ v. v.items ≡ files_of entry.now) }
    ensures err { IfErr result (λ stop. StopsFor (option_map Header (first_where has_bad_head (files_of entry.now))) stop) }
{
    let mut all = Vec::new(alloc);
    push(&mut all, read_told(entry.first())?)?;
    let more = entry.more();
    for file in more {
        push(&mut all, read_told(file)?)?;
    }
    Ok(all)
}

fn push<'a>(all: &mut Vec<Told<'a>>, told: Told<'a>) -> Result<(), AllocError>
    ensures { OnOk result (all.new.items ≡ all.old.items ++ told.entry ∷ []) }
{
    all.push(told)?;
    Ok(())
}

/// Whether all slices have the count, the total and the type of the first.
fn agree(first: &Told<'_>, all: &[Told<'_>]) -> Result<(), JoinFault>
    ensures ok { OnOk result (first_where (disagrees first.now) all.now ≡ None) }
    ensures err { IfErr result (λ fault. option_map Disagree (first_where (disagrees first.now) all.now) ≡ Some fault) }
{
    for told in all {
        if !is_alike(told, first) {
            return Err(JoinFault::Disagree { toi: told.file.toi });
        }
    }
    Ok(())
}

fn is_alike(told: &Told<'_>, first: &Told<'_>) -> bool
    ensures { disagrees first.now told.now ≡ not result }
{
    told.count() == first.count()
        && told.total() == first.total()
        && is_one_type(&told.file.kind, &first.file.kind)
}

fn is_one_type(kind: &Option<Label>, other: &Option<Label>) -> bool
    ensures { result ≡ option_eq bytes_eq kind.now other.now }
{
    match (kind, other) {
        (None, None) => true,
        (Some(kind), Some(other)) => kind.as_str() == other.as_str(),
        _ => false,
    }
}

/// The part at each place, none of which comes twice.
fn parts_of<'a>(alloc: Global, all: &[Told<'a>]) -> Result<Parts<'a>, Stop>
    ensures ok { OnOk result (repeated [] (places_of (map said all.now)) ≡ None) }
    ensures parts { IfOk result (λ parts. AreParts parts (map said all.now)) }
    ensures err { IfErr result (λ stop. StopsFor (option_map Twice (repeated [] (places_of (map said all.now)))) stop) }
{
    let mut parts = BTreeMap::new(alloc);
    for told in all {
        let place = told.place();
        if parts.contains_key(&place) {
            return Err(Stop::Fault(JoinFault::Twice { place }));
        }
        insert(&mut parts, place, told.part())?;
    }
    Ok(parts)
}

fn insert<'a>(parts: &mut Parts<'a>, place: u32, part: &'a [u8]) -> Result<(), AllocError>
    ensures { (p : ℕ) → OnOk result (option_copied (get nat_cmp parts.new p) ≡ (if place == p then Some part.now else option_copied (get nat_cmp parts.old p))) }
{
    parts.insert(place, part)?;
    Ok(())
}

/// Whether there is a part at each place up to the count. It ends at the first place that isn't there, whatever the
/// count is.
fn complete(parts: &Parts<'_>, count: u32) -> Result<(), JoinFault>
    requires { count ≤ 4096 }
    ensures ok { (places : List ℕ) → ((p : ℕ) → is_some (get nat_cmp parts.now p) ≡ is_among places p) → OnOk result (missing places (places_to count) ≡ None) }
    ensures err { (places : List ℕ) → ((p : ℕ) → is_some (get nat_cmp parts.now p) ≡ is_among places p) → IfErr result (λ fault. option_map Missing (missing places (places_to count)) ≡ Some fault) }
{
    for before in 0..count {
        let place = before + 1;
        if !parts.contains_key(&place) {
            return Err(JoinFault::Missing { place });
        }
    }
    Ok(())
}

/// How many bytes the parts have together. More than 64 bits count can't stand in memory.
fn found_in(all: &[Told<'_>]) -> Result<u64, AllocError>
    ensures { IfOk result (λ n. n ≡ faults.found_in (map said all.now)) }
{
    let mut found: u64 = 0;
    for told in all {
        let Some(sum) = found.checked_add(told.part().len() as u64) else {
            return Err(AllocError);
        };
        found = sum;
    }
    Ok(found)
}

/// The parts from place 1 to the count, which have so many bytes together.
fn joined_parts(
    alloc: Global,
    parts: &Parts<'_>,
    count: u32,
    found: u64,
) -> Result<Vec<u8>, AllocError>
    requires { count ≤ 4096 }
    ensures { IfOk result (λ v. v.items ≡ flat_map (λ p. unwrap_or (option_copied (get nat_cmp parts.now p)) []) (places_to count)) }
{
    let mut body = Vec::with_capacity(alloc, found as usize)?;
    for before in 0..count {
        append_part(&mut body, parts, before + 1)?;
    }
    Ok(body)
}

fn append_part(body: &mut Vec<u8>, parts: &Parts<'_>, place: u32) -> Result<(), AllocError>
    ensures { OnOk result (body.new.items ≡ body.old.items ++ unwrap_or (option_copied (get nat_cmp parts.now place)) []) }
{
    match parts.get(&place) {
        None => Ok(()),
        Some(part) => {
            body.extend_from_slice(part)?;
            Ok(())
        }
    }
}
