//! The report of a run.
ghost use Rattle.std.specs.Prelude.{◌≡◌, ◌++◌, IfOk, OnOk, string_bytes, option_map};
ghost use Rattle.run_receive.specs.Texts.{best_lines, over_line};
ghost use Rattle.run_base.specs.Texts.{ending_line};

use crate::manifest::manifest_of;
use carousel_cid::Instance;
use run_base::{Ending, push_ending, push_number};
use std::alloc::{AllocError, Global};

/// The report's first lines: the manifest of the installed instance, or that there is none.
pub fn best_lines(alloc: Global, installed: Option<&Instance>) -> Result<String, AllocError>
    ensures { IfOk result (λ text. string_bytes text ≡ best_lines (option_map (λ i. i.now) installed.entry)) }
{
    match installed {
        Some(instance) => manifest_of(alloc, instance),
        None => String::from_str(alloc, "nothing installed\n"),
    }
}

/// The report: the first lines, how many packets were over the budget, and how the taking of the datagrams ended.
pub fn report_of(
    alloc: Global,
    best: &str,
    drops: u64,
    ending: Ending,
) -> Result<String, AllocError>
    ensures { IfOk result (λ text. string_bytes text ≡ best.now ++ (over_line drops ++ ending_line ending)) }
{
    let mut text = String::from_str(alloc, best)?;
    push_over(alloc, &mut text, drops)?;
    push_ending(alloc, &mut text, ending)?;
    Ok(text)
}

fn push_over(alloc: Global, text: &mut String, drops: u64) -> Result<(), AllocError>
    ensures { OnOk result (string_bytes text.new ≡ string_bytes text.old ++ over_line drops) }
{
    if drops == 0 {
        return Ok(());
    }
    push_number(alloc, text, "over budget ", u128::from(drops))
}
