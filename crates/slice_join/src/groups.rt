//! The files of an instance in groups: slices under one location together, all others alone.

ghost use Rattle.std.specs.Prelude.{◌≡◌, ◌<◌, ◌++◌, ◌∷◌, [], map, vec_len, slice_set, slice_index_or, IfOk, OnOk};
ghost use Rattle.slice_join.specs.Groups as specs;
ghost use Rattle.slice_join.specs.Groups.{entries_of, is_slice_type};
ghost use Rattle.slice_join.specs.Inner.Places.{begun, with_slice, with_file, ArePlaces};

use crate::kind::is_slice_kind;
use carousel_cid::FileOf;
use meta_text::Label;
use std::alloc::{AllocError, Global};
use std::collections::BTreeMap;
use std::marker::Model;

/// Where in the list of entries the slices under each location are.
type Places<'a> = BTreeMap<&'a str, usize>;

/// A file, and the slices behind it that belong to it.
#[derive(Drop)]
pub(crate) struct Entry<'a> {
    first: &'a FileOf,
    more: Vec<&'a FileOf>,
}

impl<'a> Model for Entry<'a> {
    ghost use Rattle.std.specs.Prelude.{map};
    ghost use Rattle.slice_join.specs.Groups as specs;

    ghost Value = { specs.Entry };

    ghost view = { λ e. record { first = e.first.now; more = map (λ f. f.now) e.more.items } };
}

impl<'a> Entry<'a> {
    /// The entry that a file begins.
    fn new(alloc: Global, first: &'a FileOf) -> Entry<'a>
        ensures { result ≡ begun first.now }
    {
        Entry {
            first,
            more: Vec::new(alloc),
        }
    }

    pub fn first(&self) -> &'a FileOf
        ensures { result.now ≡ self.now.first }
    {
        self.first
    }

    pub fn more(&self) -> &[&'a FileOf]
        ensures { map (λ f. f.now) result.now ≡ self.now.more }
    {
        self.more.as_slice()
    }

    fn push(&mut self, slice: &'a FileOf) -> Result<(), AllocError>
        ensures { OnOk result (self.new ≡ with_slice self.old slice.now) }
    {
        self.more.push(slice)?;
        Ok(())
    }
}

/// The entries of files in order of first appearance.
pub(crate) fn entries(alloc: Global, files: &[FileOf]) -> Result<Vec<Entry<'_>>, AllocError>
    ensures { IfOk result (λ v. v.items ≡ entries_of files.now) }
{
    let mut entries = Vec::new(alloc);
    let mut places = BTreeMap::new(alloc);
    for file in files {
        add(&mut entries, &mut places, file)?;
    }
    Ok(entries)
}

/// Adds a file to the entry to which it belongs, or begins one with it.
fn add<'a>(
    entries: &mut Vec<Entry<'a>>,
    places: &mut Places<'a>,
    file: &'a FileOf,
) -> Result<(), AllocError>
    requires { ArePlaces places.old entries.old.items }
    ensures entries { OnOk result (entries.new.items ≡ with_file entries.old.items file.now) }
    ensures places { OnOk result (ArePlaces places.new entries.new.items) }
{
    if !is_slice(file) {
        return begin(entries, file);
    }
    let location = file.location.as_str();
    match places.get(location).copied() {
        Some(place) => push_at(entries, place, file),
        None => {
            places.insert(location, entries.len())?;
            begin(entries, file)
        }
    }
}

/// Begins an entry with a file.
fn begin<'a>(entries: &mut Vec<Entry<'a>>, file: &'a FileOf) -> Result<(), AllocError>
    ensures { OnOk result (entries.new.items ≡ entries.old.items ++ begun file.now ∷ []) }
{
    let alloc = *entries.allocator();
    entries.push(Entry::new(alloc, file))?;
    Ok(())
}

/// Adds a slice to the entry at a place.
fn push_at<'a>(
    entries: &mut Vec<Entry<'a>>,
    place: usize,
    slice: &'a FileOf,
) -> Result<(), AllocError>
    requires { place < vec_len entries.old }
    ensures { OnOk result (entries.new.items ≡ slice_set entries.old.items place (with_slice (slice_index_or entries.old.items place (begun slice.now)) slice.now)) }
{
    entries[place].push(slice)
}

/// Whether a file is a slice.
pub(crate) fn is_slice(file: &FileOf) -> bool
    ensures { result ≡ specs.is_slice file.now }
{
    is_slice_type(&file.kind)
}

fn is_slice_type(kind: &Option<Label>) -> bool
    ensures { result ≡ is_slice_type kind.now }
{
    match kind {
        None => false,
        Some(kind) => is_slice_kind(kind.as_str()),
    }
}
