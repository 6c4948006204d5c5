//! Fields: pairs of a name and a value, kept in one text.

ghost use Rattle.std.specs.Prelude.{ℕ, List, ◌≡◌, ◌<◌, ◌+◌, ◌-◌, ◌^◌, ◌++◌, [], ◌∷◌, length, take, min, slice_get, Some, Ok, IsOk, IfOk, IfErr, OnOk, OnErr};
ghost use Rattle.std.specs.Str.{IsUtf8};
ghost use Rattle.meta_text.specs.Text.{IsName, IsValue};
ghost use Rattle.meta_text.specs.Fields.{line_of, written};
ghost use Rattle.meta_text.specs.Reading as readings;
ghost use Rattle.meta_text.specs.Reading.{Gives};
ghost use Rattle.meta_text.specs.Lookup.{values_of, Finds};
ghost use Rattle.meta_text.specs.Inner.Spans.{name_at, value_at, pair_at, pairs_at, IsSpan, AreSpans, Extends};

use crate::fault::FieldFault;
use crate::field::Field;
use crate::reading;
use crate::span::Span;
use std::alloc::{AllocError, Global};
use std::marker::Model;
use std::str;

/// Metadata fields: pairs of a name and a value, in order.
///
/// Each name is a name as `is_name` tests, each value a value as `is_value` does.
#[derive(Drop)]
pub struct Fields {
    /// The names and values, one behind the other.
    text: Vec<u8>,
    spans: Vec<Span>,
}

impl Model for Fields {
    ghost use Rattle.std.specs.Prelude.{ℕ, List};
    ghost use Rattle.meta_text.specs.Inner.Spans.{pairs_at, AreSpans};

    ghost Value = { List (List ℕ × List ℕ) };

    ghost view = { λ a. pairs_at a.text.items a.spans.items };

    ghost invariant = { λ a. AreSpans a.text.items a.spans.items };
}

impl Fields {
    /// No field yet.
    pub fn new(alloc: Global) -> Fields
        ensures { result ≡ [] }
    {
        Fields {
            text: Vec::new(alloc),
            spans: Vec::new(alloc),
        }
    }

    /// No field yet, and room for so many pairs of so many bytes in all.
    pub(crate) fn with_capacity(
        alloc: Global,
        pairs: usize,
        bytes: usize,
    ) -> Result<Fields, AllocError>
        ensures { IfOk result (λ fields. fields ≡ []) }
    {
        Ok(Fields {
            text: Vec::with_capacity(alloc, bytes)?,
            spans: Vec::with_capacity(alloc, pairs)?,
        })
    }

    /// How many pairs there are.
    pub fn len(&self) -> usize
        ensures { result ≡ length self.now }
    {
        self.spans.len()
    }

    /// The name and the value of the pair at an index, counted from 0.
    pub fn pair(&self, i: usize) -> (&str, &str)
        requires { i < length self.now }
        ensures { slice_get self.now i ≡ Some (result.0.now, result.1.now) }
    {
        let span = self.spans[i];
        (name(&self.text, span), value(&self.text, span))
    }

    /// Adds a pair at the end. Without memory for it, the fields are as they were.
    pub fn push(&mut self, name: &str, value: &str) -> Result<(), AllocError>
        requires name { IsName name.now }
        requires value { IsValue value.now }
        ensures ok { OnOk result (self.new ≡ self.old ++ (name.now, value.now) ∷ []) }
        ensures err { OnErr result (self.new ≡ self.old) }
    {
        push_pair(&mut self.text, &mut self.spans, name, value)
    }

    /// The fields of a text, or the fault of its first faulty line.
    ///
    /// The text is cut at each LF, and one CR at a line's end is left out. Empty lines are passed over and
    /// counted. Every other line is a name, a colon and a value; spaces and tabs at the value's ends are
    /// left out. Memory is taken once no line is faulty: at most the text's length, and 12 bytes a pair. There is none for
    /// names and values of 4 GiB.
    pub fn read(alloc: Global, bytes: &[u8]) -> Result<Fields, FieldFault>
        ensures reading { Gives result (readings.reading bytes.now) }
        ensures memory { IfErr result (λ e. e ≡ FieldFault.Memory → IsOk (readings.reading bytes.now)) }
    {
        reading::read(alloc, bytes)
    }

    /// What stands under a name, compared without regard to the case of ASCII letters.
    pub fn get(&self, name: &str) -> Field<'_>
        ensures { Finds result (values_of name.now self.now) }
    {
        find(&self.text, &self.spans, name)
    }

    /// The text of the fields: name, colon, space, value and CR LF for each pair in order.
    pub fn write(&self) -> Result<Vec<u8>, AllocError>
        ensures text { IfOk result (λ v. v.items ≡ written self.now) }
        ensures read_again { IfOk result (λ v. readings.reading v.items ≡ Ok self.now) }
    {
        let alloc = *self.text.allocator();
        let mut out = Vec::with_capacity(alloc, self.written_len())?;
        self.write_to(&mut out)?;
        Ok(out)
    }

    /// Adds the text of the fields to these bytes. Without memory for all of it, a front of it is added.
    pub fn write_to(&self, out: &mut Vec<u8>) -> Result<(), AllocError>
        ensures text { OnOk result (out.new.items ≡ out.old.items ++ written self.now) }
        ensures front { OnErr result ((n : ℕ) × (out.new.items ≡ out.old.items ++ take n (written self.now))) }
        ensures read_again { readings.reading (written self.now) ≡ Ok self.now }
    {
        push_lines(out, &self.text, &self.spans)
    }

    /// How many bytes the text of the fields has.
    pub fn written_len(&self) -> usize
        ensures { result ≡ min (length (written self.now)) (2 ^ 64 - 1) }
    {
        lines_len(&self.text, &self.spans)
    }
}

/// The name of a span.
fn name(text: &[u8], span: Span) -> &str
    requires { IsSpan text.now span }
    ensures { result.now ≡ name_at text.now span }
{
    as_text(&text[span.start as usize..span.middle as usize])
}

/// The value of a span.
fn value(text: &[u8], span: Span) -> &str
    requires { IsSpan text.now span }
    ensures { result.now ≡ value_at text.now span }
{
    as_text(&text[span.middle as usize..span.end as usize])
}

/// Bytes that are UTF-8, as text.
fn as_text(bytes: &[u8]) -> &str
    requires { IsUtf8 bytes.now }
    ensures { result.now ≡ bytes.now }
{
    match str::from_utf8(bytes) {
        Ok(text) => text,
        Err(_) => "",
    }
}

fn push_pair(
    text: &mut Vec<u8>,
    spans: &mut Vec<Span>,
    name: &str,
    value: &str,
) -> Result<(), AllocError>
    requires spans { AreSpans text.old.items spans.old.items }
    requires name { IsName name.now }
    requires value { IsValue value.now }
    ensures spans { AreSpans text.new.items spans.new.items }
    ensures ok { OnOk result (pairs_at text.new.items spans.new.items ≡ pairs_at text.old.items spans.old.items ++ (name.now, value.now) ∷ []) }
    ensures err { OnErr result (pairs_at text.new.items spans.new.items ≡ pairs_at text.old.items spans.old.items) }
{
    let span = push_text(text, name, value)?;
    spans.push(span)?;
    Ok(())
}

/// Adds a name and a value to the text, and says where they stand.
fn push_text(text: &mut Vec<u8>, name: &str, value: &str) -> Result<Span, AllocError>
    ensures text { OnOk result (text.new.items ≡ text.old.items ++ (name.now ++ value.now)) }
    ensures span { IfOk result (λ span. span ≡ record {
      start = length text.old.items;
      middle = length text.old.items + length name.now;
      end = length text.old.items + length name.now + length value.now;
    }) }
    ensures err { OnErr result (Extends text.old.items text.new.items) }
{
    let start = offset(text.len())?;
    text.extend_from_slice(name.as_bytes())?;
    let middle = offset(text.len())?;
    text.extend_from_slice(value.as_bytes())?;
    let end = offset(text.len())?;
    Ok(Span { start, middle, end })
}

/// An offset in the text as it is kept. There is no room for a text of 4 GiB.
fn offset(at: usize) -> Result<u32, AllocError>
    ensures { IfOk result (λ offset. offset ≡ at) }
{
    match u32::try_from(at) {
        Ok(offset) => Ok(offset),
        Err(_) => Err(AllocError),
    }
}

fn find<'a>(text: &'a [u8], spans: &[Span], name: &str) -> Field<'a>
    requires { AreSpans text.now spans.now }
    ensures { Finds result (values_of name.now (pairs_at text.now spans.now)) }
{
    let mut found = Field::Absent;
    for span in spans {
        found = noted(found, text, span, name);
    }
    found
}

/// What was found so far, and the pair of a span after it.
fn noted<'a>(found: Field<'a>, text: &'a [u8], span: &Span, wanted: &str) -> Field<'a>
    requires { IsSpan text.now span.now }
    ensures { (values : List (List ℕ)) → Finds found.entry values
        → Finds result (values ++ values_of wanted.now (pair_at text.now span.now ∷ [])) }
{
    if !name(text, *span).eq_ignore_ascii_case(wanted) {
        return found;
    }
    match found {
        Field::Absent => Field::Once(value(text, *span)),
        Field::Once(_) => Field::Twice,
        Field::Twice => Field::Twice,
    }
}

fn push_lines(out: &mut Vec<u8>, text: &[u8], spans: &[Span]) -> Result<(), AllocError>
    requires { AreSpans text.now spans.now }
    ensures ok { OnOk result (out.new.items ≡ out.old.items ++ written (pairs_at text.now spans.now)) }
    ensures front { OnErr result ((n : ℕ) × (out.new.items ≡ out.old.items ++ take n (written (pairs_at text.now spans.now)))) }
{
    for span in spans {
        push_line(out, text, *span)?;
    }
    Ok(())
}

fn push_line(out: &mut Vec<u8>, text: &[u8], span: Span) -> Result<(), AllocError>
    requires { IsSpan text.now span }
    ensures ok { OnOk result (out.new.items ≡ out.old.items ++ line_of (pair_at text.now span)) }
    ensures front { OnErr result ((n : ℕ) × (out.new.items ≡ out.old.items ++ take n (line_of (pair_at text.now span)))) }
{
    out.extend_from_slice(name(text, span).as_bytes())?;
    out.extend_from_slice(b": ")?;
    out.extend_from_slice(value(text, span).as_bytes())?;
    out.extend_from_slice(b"\r\n")?;
    Ok(())
}

fn lines_len(text: &[u8], spans: &[Span]) -> usize
    requires { AreSpans text.now spans.now }
    ensures { result ≡ min (length (written (pairs_at text.now spans.now))) (2 ^ 64 - 1) }
{
    let mut len: usize = 0;
    for span in spans {
        len = with_line(len, text, *span);
    }
    len
}

/// A length with the line of the pair of a span more.
fn with_line(len: usize, text: &[u8], span: Span) -> usize
    requires { IsSpan text.now span }
    ensures { result ≡ min (len + length (line_of (pair_at text.now span))) (2 ^ 64 - 1) }
{
    let name = name(text, span).len();
    let value = value(text, span).len();
    len.saturating_add(name)
        .saturating_add(value)
        .saturating_add(4)
}
