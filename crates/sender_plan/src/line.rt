//! A line of a catalog.

ghost use Rattle.std.specs.Prelude.{◌≡◌, ◌^◌, ◌∷◌, [], Some, None, IfSome, IfNone, IfOk, IfErr, option_to_list, option_copied};
ghost use Rattle.std.specs.List.{list_any, AllByRecursion};
ghost use Rattle.std.specs.Option.{ForSome};
ghost use Rattle.std.specs.Str as strs;
ghost use Rattle.carousel_cid.specs.Number.{number_below};
ghost use Rattle.sender_plan.specs.CatalogLine as specs;
ghost use Rattle.wire_bytes.specs.FirstFault.{first_fault};
ghost use Rattle.sender_plan.specs.CatalogLine.{fields_of, causes_of, cause_of, entry_in};
ghost use Rattle.sender_plan.specs.Inner.Lines.{texts_of, HasForm, IsField, entry_of, Follows};

use carousel_cid::number_below;
use meta_text::clean_text;

/// How many instances a catalog may have.
const MOST_INSTANCES: usize = 256;

/// The fields of a `file` line.
#[derive(Clone, Copy)]
pub(crate) struct FileLine<'a> {
    pub(crate) name: &'a str,
    pub(crate) location: &'a str,
    pub(crate) kind: Option<&'a str>,
}

/// A line by its word and the number of its fields.
#[derive(Clone, Copy)]
pub(crate) enum Form<'a> {
    /// `instance` and a field.
    Instance(&'a str),
    /// `file`, and two fields or three.
    File(FileLine<'a>),
}

/// What a line says.
#[derive(Clone, Copy)]
pub(crate) enum Said<'a> {
    /// An instance with this number begins.
    Instance(u32),
    /// The last instance has this file more.
    File(FileLine<'a>),
}

/// What a line behind so many `instance` lines says, or the lowest of its causes.
pub(crate) fn read_line(line: &[u8], before: usize) -> Result<Said<'_>, u8>
    ensures sound { IfOk result (λ said. cause_of before line.now ≡ None) }
    ensures entry { IfOk result (λ said. entry_in (fields_of line.now) ≡ Some (entry_of said)) }
    ensures follows { IfOk result (λ said. Follows before said) }
    ensures cause { IfErr result (λ cause. cause_of before line.now ≡ Some cause) }
{
    let Some(text) = clean_text(line) else {
        return Err(1);
    };
    match form_of(text) {
        Some(Form::Instance(number)) => read_instance(number, before),
        Some(Form::File(file)) => read_file(file, before),
        None => Err(2),
    }
}

/// The form of a line.
fn form_of(text: &str) -> Option<Form<'_>>
    ensures { HasForm (fields_of text.now) result }
{
    let (word, rest) = cut_at_tab(text)?;
    match word {
        "instance" => instance_form(rest),
        "file" => file_form(rest),
        _ => None,
    }
}

/// The form of a line whose first field is `instance`, by what stands behind it.
fn instance_form(rest: &str) -> Option<Form<'_>>
    ensures { HasForm (specs.instance_word ∷ fields_of rest.now) result }
{
    match cut_at_tab(rest) {
        None => Some(Form::Instance(rest)),
        Some(_) => None,
    }
}

/// The form of a line whose first field is `file`, by what stands behind it.
fn file_form(rest: &str) -> Option<Form<'_>>
    ensures { HasForm (specs.file_word ∷ fields_of rest.now) result }
{
    let (name, rest) = cut_at_tab(rest)?;
    let Some((location, rest)) = cut_at_tab(rest) else {
        return Some(Form::File(FileLine {
            name,
            location: rest,
            kind: None,
        }));
    };
    match cut_at_tab(rest) {
        None => Some(Form::File(FileLine {
            name,
            location,
            kind: Some(rest),
        })),
        Some(_) => None,
    }
}

/// The text before the first tab, and the text behind it.
fn cut_at_tab(text: &str) -> Option<(&str, &str)>
    ensures cut { IfSome result (λ r. fields_of text.now ≡ r.0.now ∷ fields_of r.1.now) }
    ensures whole { IfNone result (fields_of text.now ≡ text.now ∷ []) }
{
    text.split_once('\t')
}

/// What an `instance` line says.
fn read_instance<'a>(number: &'a str, before: usize) -> Result<Said<'a>, u8>
    ensures sound { IfOk result (λ said. first_fault (causes_of before (specs.instance_word ∷ number.now ∷ [])) ≡ None) }
    ensures entry { IfOk result (λ said. entry_in (specs.instance_word ∷ number.now ∷ []) ≡ Some (entry_of said)) }
    ensures follows { IfOk result (λ said. Follows before said) }
    ensures cause { IfErr result (λ cause. first_fault (causes_of before (specs.instance_word ∷ number.now ∷ [])) ≡ Some cause) }
{
    let Some(number) = number_in(number) else {
        return Err(3);
    };
    if before >= MOST_INSTANCES {
        return Err(6);
    }
    Ok(Said::Instance(number))
}

/// What a `file` line says.
fn read_file<'a>(file: FileLine<'a>, before: usize) -> Result<Said<'a>, u8>
    requires { AllByRecursion IsField (texts_of file) }
    ensures sound { IfOk result (λ said. first_fault (causes_of before (specs.file_word ∷ texts_of file.entry)) ≡ None) }
    ensures entry { IfOk result (λ said. entry_in (specs.file_word ∷ texts_of file.entry) ≡ Some (entry_of said)) }
    ensures follows { IfOk result (λ said. Follows before said) }
    ensures cause { IfErr result (λ cause. first_fault (causes_of before (specs.file_word ∷ texts_of file.entry)) ≡ Some cause) }
{
    if before == 0 {
        return Err(4);
    }
    if is_bad_text(file.name) || is_bad_text(file.location) || has_bad_kind(file.kind) {
        return Err(5);
    }
    Ok(Said::File(file))
}

/// A type that may not stand in a line.
fn has_bad_kind(kind: Option<&str>) -> bool
    ensures bad { result ≡ list_any specs.is_bad_text (option_to_list (option_copied kind.entry)) }
    ensures utf8 { ForSome (option_copied kind.entry) strs.IsUtf8 }
{
    match kind {
        Some(text) => is_bad_text(text),
        None => false,
    }
}

/// A text that is empty, or has a space at one of its ends.
fn is_bad_text(text: &str) -> bool
    ensures bad { result ≡ specs.is_bad_text text.now }
    ensures utf8 { strs.IsUtf8 text.now }
{
    text.is_empty() || text.starts_with(' ') || text.ends_with(' ')
}

/// The number that a text of ASCII digits writes, zeros in front included, where it is one of 32 bits.
fn number_in(text: &str) -> Option<u32>
    ensures { result ≡ number_below (2 ^ 32) text.now }
{
    let number = number_below(1 << 32, text.as_bytes())?;
    Some(number as u32)
}
