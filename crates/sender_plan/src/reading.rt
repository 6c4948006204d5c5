//! A catalog, read line by line.

ghost use Rattle.std.specs.Prelude.{◌≡◌, ◌≤◌, ◌+◌, ◌++◌, ◌∷◌, [], ℕ, List, Some, None, false, length, All, IfOk, IfErr, OnOk, OnErr, unwrap_or, option_copied};
ghost use Rattle.std.specs.List.{flat_map};
ghost use Rattle.meta_text.specs.Lines.{lines_of};
ghost use Rattle.sender_plan.specs.CatalogInstance.{IsItem, most_instances};
ghost use Rattle.sender_plan.specs.CatalogLine.{Entry, cause_of};
ghost use Rattle.sender_plan.specs.Catalog as specs;
ghost use Rattle.sender_plan.specs.Catalog.{bad_at, said, instances_of, reading, Gives};
ghost use Rattle.sender_plan.specs.Inner.Lines.{item_of, continued, with_item};

use crate::catalog::{Catalog, CatalogInstance, CatalogItem};
use crate::fault::{BadLine, CatalogFault};
use crate::line::{FileLine, Said, read_line};
use meta_text::{Label, split_line};
use std::alloc::{AllocError, Global};

/// The catalog that a text lists, or its first bad line.
///
/// The text is cut at each LF, and one CR at a line's end is left out. Empty lines and lines that start with `#` are
/// passed over and counted. Fields are separated by single tabs. `instance` and a number is a new instance; `file`, a
/// name, a location and maybe a type is a file of the last instance. Memory is taken once no line is bad. A file's
/// location and type stand in the text, and have together at most its bytes.
pub fn read_catalog(alloc: Global, bytes: &[u8]) -> Result<Catalog, CatalogFault>
    ensures reading { Gives result (reading bytes.now) }
    ensures short { IfOk result (λ c. All (λ i. All (λ item. length item.location + length (unwrap_or item.kind []) ≤ length bytes.now) i.items) c) }
{
    if let Some(bad) = bad_line(bytes) {
        return Err(CatalogFault::Line {
            line: bad.line,
            cause: bad.cause,
        });
    }
    let instances = collect(alloc, bytes)?;
    Ok(Catalog::new(instances))
}

/// The first bad line.
fn bad_line(bytes: &[u8]) -> Option<BadLine>
    ensures { result ≡ specs.bad_line 1 0 (lines_of bytes.now) }
{
    let mut rest = bytes;
    let mut number: u64 = 0;
    let mut before: usize = 0;
    while !rest.is_empty() {
        let (line, after) = split_line(rest);
        number += 1;
        match begun_by(line, before) {
            Ok(begun) => before += begun,
            Err(cause) => {
                return Some(BadLine {
                    line: number,
                    cause,
                });
            }
        }
        rest = after;
    }
    None
}

/// How many instances a line begins, or the lowest of its causes. It stands behind so many `instance` lines.
fn begun_by(line: &[u8], before: usize) -> Result<usize, u8>
    ensures few { IfOk result (λ begun. begun ≤ 1) }
    ensures sound { IfOk result (λ begun. (number : ℕ) (lines : List (List ℕ))
        → specs.bad_line number before (line.now ∷ lines) ≡ specs.bad_line (number + 1) (before + begun) lines) }
    ensures cause { IfErr result (λ cause. (number : ℕ) (lines : List (List ℕ))
        → specs.bad_line number before (line.now ∷ lines) ≡ Some (bad_at number cause)) }
{
    if is_passed_over(line) {
        return Ok(0);
    }
    match read_line(line, before)? {
        Said::Instance(_) => Ok(1),
        Said::File(_) => Ok(0),
    }
}

/// An empty line, or one that starts with `#`.
fn is_passed_over(line: &[u8]) -> bool
    ensures { result ≡ specs.is_passed_over line.now }
{
    matches!(line, [] | [b'#', ..])
}

/// The instances of a text without a bad line.
fn collect(alloc: Global, bytes: &[u8]) -> Result<Vec<CatalogInstance>, AllocError>
    requires { specs.bad_line 1 0 (lines_of bytes.now) ≡ None }
    ensures instances { IfOk result (λ v. v.items ≡ instances_of (flat_map said (lines_of bytes.now))) }
    ensures few { IfOk result (λ v. length v.items ≤ most_instances) }
{
    let mut instances = Vec::new(alloc);
    let mut rest = bytes;
    while !rest.is_empty() {
        let (line, after) = split_line(rest);
        add_line(&mut instances, line)?;
        rest = after;
    }
    Ok(instances)
}

/// Adds what a line says.
fn add_line(instances: &mut Vec<CatalogInstance>, line: &[u8]) -> Result<(), AllocError>
    requires sound { specs.is_passed_over line.now ≡ false → cause_of (length instances.old.items) line.now ≡ None }
    requires few { length instances.old.items ≤ most_instances }
    ensures few { length instances.new.items ≤ most_instances }
    ensures added { OnOk result ((entries : List Entry) → continued instances.new.items entries ≡ continued instances.old.items (said line.now ++ entries)) }
    ensures begun { OnOk result ((number : ℕ) (lines : List (List ℕ)) → specs.bad_line number (length instances.old.items) (line.now ∷ lines)
        ≡ specs.bad_line (number + 1) (length instances.new.items) lines) }
{
    if is_passed_over(line) {
        return Ok(());
    }
    match read_line(line, instances.len()) {
        Ok(Said::Instance(number)) => begin(instances, number),
        Ok(Said::File(file)) => add_file(instances, file),
        Err(_) => Ok(()),
    }
}

/// Begins an instance.
fn begin(instances: &mut Vec<CatalogInstance>, number: u32) -> Result<(), AllocError>
    ensures ok { OnOk result (instances.new.items ≡ instances.old.items ++ record { number = number; items = [] } ∷ []) }
    ensures err { OnErr result (instances.new.items ≡ instances.old.items) }
{
    let alloc = *instances.allocator();
    instances.push(CatalogInstance {
        number,
        items: Vec::new(alloc),
    })?;
    Ok(())
}

/// Adds a file to the last instance.
fn add_file(instances: &mut Vec<CatalogInstance>, file: FileLine<'_>) -> Result<(), AllocError>
    requires some { 1 ≤ length instances.old.items }
    requires item { IsItem (item_of file) }
    ensures ok { OnOk result (instances.new.items ≡ with_item instances.old.items (item_of file.entry)) }
    ensures len { length instances.new.items ≡ length instances.old.items }
{
    let alloc = *instances.allocator();
    let item = item_of(alloc, file)?;
    if let Some(last) = instances.last_mut() {
        last.push(item)?;
    }
    Ok(())
}

/// The item that a `file` line says.
fn item_of(alloc: Global, file: FileLine<'_>) -> Result<CatalogItem, AllocError>
    requires { IsItem (item_of file) }
    ensures { IfOk result (λ item. item ≡ item_of file.entry) }
{
    let name = Label::new(String::from_str(alloc, file.name)?);
    let location = Label::new(String::from_str(alloc, file.location)?);
    let kind = kind_of(alloc, file.kind)?;
    Ok(CatalogItem::new(name, location, kind))
}

fn kind_of(alloc: Global, kind: Option<&str>) -> Result<Option<Label>, AllocError>
    ensures { IfOk result (λ label. label ≡ option_copied kind.entry) }
{
    match kind {
        Some(text) => Ok(Some(Label::new(String::from_str(alloc, text)?))),
        None => Ok(None),
    }
}
