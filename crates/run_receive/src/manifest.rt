//! The text that says what is installed.
ghost use Rattle.std.specs.Prelude.{◌≡◌, ◌++◌, IfOk, OnOk, string_bytes, flat_map};
ghost use Rattle.run_receive.specs.Texts.{kind_line, file_lines, manifest};

use carousel_cid::{FileOf, Instance};
use meta_text::Label;
use run_base::{push_number, push_text};
use std::alloc::{AllocError, Global};

/// The manifest of an instance.
#[tactic(auto, unfolding(crate::specs::Texts::manifest))]
pub fn manifest_of(alloc: Global, instance: &Instance) -> Result<String, AllocError>
    ensures { IfOk result (λ text. string_bytes text ≡ manifest instance.now) }
{
    let mut text = String::new(alloc);
    push_number(alloc, &mut text, "instance ", u128::from(instance.number))?;
    push_number(alloc, &mut text, "descriptor ", instance.descriptor_toi)?;
    let files = instance.files.as_slice();
    push_number(alloc, &mut text, "files ", files.len() as u128)?;
    push_files(alloc, &mut text, files)?;
    Ok(text)
}

fn push_files(alloc: Global, text: &mut String, files: &[FileOf]) -> Result<(), AllocError>
    ensures { OnOk result (string_bytes text.new ≡ string_bytes text.old ++ flat_map file_lines files.now) }
{
    for file in files {
        push_file(alloc, text, file)?;
    }
    Ok(())
}

/// Adds the lines of a file.
fn push_file(alloc: Global, text: &mut String, file: &FileOf) -> Result<(), AllocError>
    ensures { OnOk result (string_bytes text.new ≡ string_bytes text.old ++ file_lines file.now) }
{
    text.push_str("file ")?;
    let toi = file.toi.to_string(alloc)?;
    text.push_str(toi.as_str())?;
    push_number(alloc, text, " ", file.body.as_slice().len() as u128)?;
    push_text(text, "location ", file.location.as_str())?;
    push_kind(text, &file.kind)
}

fn push_kind(text: &mut String, kind: &Option<Label>) -> Result<(), AllocError>
    ensures { OnOk result (string_bytes text.new ≡ string_bytes text.old ++ kind_line kind.now) }
{
    match kind {
        Some(kind) => push_text(text, "type ", kind.as_str()),
        None => Ok(()),
    }
}
