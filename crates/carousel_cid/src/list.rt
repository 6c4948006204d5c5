//! The list of identifiers that is the body of a descriptor.
ghost use Rattle.std.specs.Prelude.{◌≡◌, ◌+◌, ◌≤◌, ◌<◌, ◌^◌, ◌∷◌, length, min, Some, OnOk, IfOk, IfErr, IfSome, MatchOption};
ghost use Rattle.std.specs.List.{AllByRecursion};
ghost use Rattle.carousel_cid.specs.declared.entry.Entry.{Entry};
ghost use Rattle.carousel_cid.specs.Listing as specs;
ghost use Rattle.carousel_cid.specs.IdentifierList.{size_of, identifiers_of};
ghost use Rattle.carousel_cid.specs.Causes.{list_fault};
ghost use Rattle.carousel_cid.specs.Repeats.{first_places};
ghost use Rattle.carousel_cid.specs.Inner.Runs.{IsRun, AreSeen};
ghost use Rattle.carousel_cid.specs.Inner.Walks.{texts_from, added_all};

use crate::adding::{Seen, add_range};
use crate::entry::{Entry, read_entry};
use crate::kind::Cause;
use crate::listed::Listed;
use meta_text::{place_of, without_return};
use std::alloc::{AllocError, Global};
use std::collections::BTreeMap;

/// How many identifiers a descriptor may list, repeats counted.
const MOST_LISTED: u128 = 4096;

/// The identifiers of a list so far, each at its first place alone.
#[derive(Drop)]
struct Kept {
    runs: Vec<Entry>,
    seen: Seen,
}

/// The identifiers that a body lists, each at its first place alone; or what is wrong with it.
///
/// It is one walk, which goes on where memory was refused, since that is told only of a list in which nothing is
/// wrong.
#[tactic(auto, unfolding(crate::specs::Causes::list_fault))]
pub(crate) fn read_list(alloc: Global, body: &[u8]) -> Result<Result<Listed, AllocError>, Cause>
    ensures sound { OnOk result (list_fault body.now ≡ None) }
    ensures listed { IfOk result (λ found. IfOk found (λ v. v ≡ first_places (specs.identifiers_in (specs.texts_in body.now)))) }
    ensures fault { IfErr result (λ cause. list_fault body.now ≡ Some cause) }
{
    let list = without_line_end(body);
    if list.is_empty() {
        return Ok(Ok(Listed::new(Vec::new(alloc))));
    }
    let mut count: u128 = 0;
    let mut kept = Some(Kept {
        runs: Vec::new(alloc),
        seen: BTreeMap::new(alloc),
    });
    let mut at: usize = 0;
    while at <= list.len() {
        let text = text_at(list, at);
        let Some(entry) = read_entry(text) else {
            return Err(Cause::BadList { at: at as u64 });
        };
        count = counted(count, entry);
        kept = kept_with(kept, entry, count);
        at += text.len() + 1;
    }
    if count > MOST_LISTED {
        return Err(Cause::ListTooLong);
    }
    match kept {
        None => Ok(Err(AllocError)),
        Some(kept) => Ok(Ok(Listed::new(kept.runs))),
    }
}

/// A count with the identifiers of an entry more. It stays where it has passed the most.
fn counted(count: u128, entry: Entry) -> u128
    requires count { count ≤ 4097 }
    requires last { entry.last < 2 ^ 112 }
    requires order { entry.first ≤ entry.last }
    ensures { result ≡ min (count + size_of entry) 4097 }
{
    (count + (entry.last - entry.first + 1)).min(MOST_LISTED + 1)
}

/// What is kept with the identifiers of an entry more. Nothing is kept of a list that counts too many identifiers,
/// nor where memory is refused.
fn kept_with(kept: Option<Kept>, entry: Entry, count: u128) -> Option<Kept>
    requires runs { IfSome kept (λ k. AllByRecursion IsRun k.runs.items) }
    requires seen { IfSome kept (λ k. AreSeen k.seen (identifiers_of k.runs.items)) }
    requires fits { entry.last < 2 ^ 112 }
    ensures all { IfSome result (λ new. MatchOption kept ⊥ (λ old. identifiers_of new.runs.items ≡ added_all (identifiers_of old.runs.items) (specs.range_in (Some entry)))) }
    ensures runs { IfSome result (λ new. AllByRecursion IsRun new.runs.items) }
    ensures seen { IfSome result (λ new. AreSeen new.seen (identifiers_of new.runs.items)) }
{
    let mut kept = kept?;
    if count > MOST_LISTED {
        return None;
    }
    match add_range(&mut kept.runs, &mut kept.seen, entry.first, entry.last) {
        Ok(()) => Some(kept),
        Err(_) => None,
    }
}

/// The text from this place up to the next comma or the end.
fn text_at(list: &[u8], at: usize) -> &[u8]
    requires { at ≤ length list.now }
    ensures first { texts_from at list.now ≡ result.now ∷ texts_from (at + length result.now + 1) list.now }
    ensures within { at + length result.now ≤ length list.now }
{
    let rest = &list[at..];
    match place_of(rest, b',') {
        Some(comma) => &rest[..comma],
        None => rest,
    }
}

/// The body without one end of line at its end: a line feed, or a carriage return and a line feed.
fn without_line_end(body: &[u8]) -> &[u8]
    ensures { result.now ≡ specs.without_line_end body.now }
{
    match body {
        [front @ .., b'\n'] => without_return(front),
        _ => body,
    }
}
