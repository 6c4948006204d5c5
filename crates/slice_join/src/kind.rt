//! The types of slices.

ghost use Rattle.std.specs.Prelude.{◌≡◌, IfOk};
ghost use Rattle.std.specs.Option.{option_copied};
ghost use Rattle.slice_join.specs.SliceKind as specs;

use meta_text::Label;
use std::alloc::{AllocError, Global};

/// The type of a slice whose whole file has none.
const WORD: &str = "fcast-slice";

/// What stands in front of the whole file's type.
const START: &str = "fcast-slice;";

/// Whether this is the type of a slice: `fcast-slice`, or `fcast-slice;` and the type of the whole file.
#[tactic(auto, unfolding(crate::specs::SliceKind::is_slice_kind))]
pub fn is_slice_kind(kind: &str) -> bool
    ensures { result ≡ specs.is_slice_kind kind.now }
{
    kind == WORD || kind.starts_with(START)
}

/// The type of the slices of a file with this type.
pub(crate) fn slice_kind(alloc: Global, kind: Option<&str>) -> Result<Label, AllocError>
    ensures { IfOk result (λ r. r ≡ specs.slice_kind (option_copied kind.entry)) }
{
    match kind {
        None => Ok(Label::new(WORD.to_string(alloc)?)),
        Some(kind) => Ok(Label::new(format!(in alloc; "{START}{kind}")?)),
    }
}

/// The type of the whole file, where the type of its slices says one.
#[tactic(auto, unfolding(crate::specs::SliceKind::whole_kind))]
pub(crate) fn whole_kind(kind: &str) -> Option<&str>
    ensures { option_copied result ≡ specs.whole_kind kind.now }
{
    kind.strip_prefix(START)
}
