//! The lines of a text, and the numbers in them.
ghost use Rattle.std.specs.Prelude.{◌≡◌, ◌++◌, OnOk, string_bytes};
ghost use Rattle.watch_list.specs.EventLines.{labelled};
ghost use Rattle.run_base.specs.Texts.{line, number_line, ending_line};

use crate::ending::Ending;
use std::alloc::{AllocError, Global};

/// Adds a label and a number.
#[tactic(auto, unfolding(watch_list::specs::EventLines::labelled))]
pub fn push_labelled(
    alloc: Global,
    text: &mut String,
    label: &str,
    number: u128,
) -> Result<(), AllocError>
    ensures { OnOk result (string_bytes text.new ≡ string_bytes text.old ++ labelled label.now number) }
{
    text.push_str(label)?;
    let digits = number.to_string(alloc)?;
    text.push_str(digits.as_str())
}

/// Adds a line of a label and a number.
pub fn push_number(
    alloc: Global,
    text: &mut String,
    label: &str,
    number: u128,
) -> Result<(), AllocError>
    ensures { OnOk result (string_bytes text.new ≡ string_bytes text.old ++ number_line label.now number) }
{
    let digits = number.to_string(alloc)?;
    push_text(text, label, digits.as_str())
}

/// Adds a line of a label and a text.
pub fn push_text(text: &mut String, label: &str, value: &str) -> Result<(), AllocError>
    ensures { OnOk result (string_bytes text.new ≡ string_bytes text.old ++ line (label.now ++ value.now)) }
{
    text.push_str(label)?;
    text.push_str(value)?;
    text.push_str("\n")
}

/// Adds the line that says why the list wasn't read to its end, where it wasn't.
pub fn push_ending(alloc: Global, text: &mut String, ending: Ending) -> Result<(), AllocError>
    ensures { OnOk result (string_bytes text.new ≡ string_bytes text.old ++ ending_line ending) }
{
    match ending {
        Ending::End => Ok(()),
        Ending::Torn(place) => push_number(alloc, text, "torn at ", u128::from(place)),
        Ending::TooMany => text.push_str("too many datagrams\n"),
    }
}
