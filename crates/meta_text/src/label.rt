//! A text of its own memory.

ghost use Rattle.std.specs.Prelude.{◌≡◌, IfOk, string_bytes};

use std::alloc::AllocError;
use std::marker::Model;

/// A text of its own memory, as the name or the value of a field.
#[derive(Drop)]
pub struct Label {
    text: String,
}

impl Model for Label {
    ghost use Rattle.std.specs.Prelude.{ℕ, List, string_bytes};

    ghost Value = { List ℕ };

    ghost view = { λ a. string_bytes a.text };
}

impl Label {
    /// The label of this text.
    pub fn new(text: String) -> Label
        ensures { result ≡ string_bytes text }
    {
        Label { text }
    }

    /// The text.
    pub fn as_str(&self) -> &str
        ensures { result.now ≡ self.now }
    {
        self.text.as_str()
    }

    /// The text, which takes no memory.
    pub fn into_string(self) -> String
        ensures { string_bytes result ≡ self }
    {
        self.text
    }

    /// A label with the same text.
    pub fn copy(&self) -> Result<Label, AllocError>
        ensures { IfOk result (λ r. r ≡ self.now) }
    {
        Ok(Label {
            text: self.text.clone()?,
        })
    }
}
