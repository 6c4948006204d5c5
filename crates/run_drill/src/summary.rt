//! What came of a drill.
ghost use Rattle.std.specs.Prelude.{◌≡◌, ◌++◌, true, IfOk, IfSome, OnOk, option_map, string_bytes};
ghost use Rattle.run_base.specs.Statuses.{is_one_of};
ghost use Rattle.run_drill.specs.Drill as specs;

use carousel_cid::{FileOf, Instance};
use run_base::{Status, push_number};
use std::alloc::{AllocError, Global};

/// What came of a drill.
#[derive(Clone, Copy, PartialEq, Eq, Debug)]
pub struct Summary {
    /// How many datagrams were sent.
    pub sent: u64,
    /// How many were delivered, repeats counted.
    pub delivered: u64,
    /// The number of the installed instance, where one is installed.
    pub installed: Option<u32>,
    /// How many files it has.
    pub files: u32,
    /// How many bytes these have together.
    pub total: u64,
}

/// The summary of a drill in which this many datagrams were sent and delivered. It fails where the files or their bytes
/// are too many for the fields.
pub fn summed(
    sent: u64,
    delivered: u64,
    installed: Option<&Instance>,
) -> Result<Summary, AllocError>
    ensures { IfOk result (λ s. s ≡ specs.summed sent delivered (option_map (λ i. i.now) installed.entry)) }
{
    let Some(instance) = installed else {
        return Ok(Summary {
            sent,
            delivered,
            installed: None,
            files: 0,
            total: 0,
        });
    };
    let files = instance.files.as_slice();
    let Ok(count) = u32::try_from(files.len()) else {
        return Err(AllocError);
    };
    let Some(total) = total_of(files) else {
        return Err(AllocError);
    };
    Ok(Summary {
        sent,
        delivered,
        installed: Some(instance.number),
        files: count,
        total,
    })
}

/// How many bytes the files have together, where these can be counted.
fn total_of(files: &[FileOf]) -> Option<u64>
    ensures { IfSome result (λ total. total ≡ specs.total_of files.now) }
{
    let mut total: u64 = 0;
    for file in files {
        total = total.checked_add(file.body.as_slice().len() as u64)?;
    }
    Some(total)
}

/// The lines of a summary.
pub fn summary_lines(alloc: Global, summary: &Summary) -> Result<String, AllocError>
    ensures { IfOk result (λ text. string_bytes text ≡ specs.summary_lines summary.now) }
{
    let mut text = String::new(alloc);
    push_number(alloc, &mut text, "sent ", u128::from(summary.sent))?;
    push_number(
        alloc,
        &mut text,
        "delivered ",
        u128::from(summary.delivered),
    )?;
    push_installed(alloc, &mut text, summary.installed)?;
    push_files(alloc, &mut text, summary.files, summary.total)?;
    Ok(text)
}

/// Adds the line that says what is installed.
fn push_installed(
    alloc: Global,
    text: &mut String,
    installed: Option<u32>,
) -> Result<(), AllocError>
    ensures { OnOk result (string_bytes text.new ≡ string_bytes text.old ++ specs.installed_line installed) }
{
    match installed {
        Some(number) => push_number(alloc, text, "installed ", u128::from(number)),
        None => text.push_str("nothing installed\n"),
    }
}

/// Adds the line of the files.
fn push_files(alloc: Global, text: &mut String, files: u32, total: u64) -> Result<(), AllocError>
    ensures { OnOk result (string_bytes text.new ≡ string_bytes text.old ++ specs.files_line files total) }
{
    let count = files.to_string(alloc)?;
    text.push_str("files ")?;
    text.push_str(count.as_str())?;
    push_number(alloc, text, " ", u128::from(total))
}

/// How a drill ends: by whether an instance is installed.
pub fn summary_status(installed: Option<u32>) -> Status
    ensures status { result ≡ specs.summary_status installed }
    ensures table { is_one_of specs.drill_statuses result ≡ true }
{
    match installed {
        Some(_) => Status::Done,
        None => Status::NothingInstalled,
    }
}
