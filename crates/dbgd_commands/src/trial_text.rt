//! The line of a trial.

ghost use Rattle.std.specs.Prelude.{◌≡◌, ◌++◌, decimal, IfOk, OnOk};
ghost use Rattle.std.specs.String.{string_bytes};
ghost use Rattle.dbgd_commands.specs.Trial.{totals_line};

use crate::trial_sum::Totals;
use itoa::Buffer;
use pass_runner::Summary;
use std::alloc::{AllocError, Global};

/// Adds a number and what it counts to a text.
fn push_number(text: &mut String, number: u128, what: &str) -> Result<(), AllocError>
    ensures { OnOk result
        (string_bytes text.new ≡ string_bytes text.old ++ decimal number ++ what.now) }
{
    text.push_str(Buffer::new().format(number))?;
    text.push_str(what)
}

/// The line of a trial of so many files, by the numbers of its pass and the totals of its rows.
pub fn totals_line(
    alloc: Global,
    files: u64,
    summary: &Summary,
    totals: &Totals,
) -> Result<String, AllocError>
    ensures { IfOk result (λ text. string_bytes text
        ≡ totals_line files summary.now.executables summary.now.debuginfo totals.now) }
{
    let mut text = String::from_str(alloc, "trial: ")?;
    push_number(&mut text, files.into(), " files, ")?;
    push_number(&mut text, summary.executables.into(), " executables, ")?;
    push_number(&mut text, summary.debuginfo.into(), " debuginfo, ")?;
    push_number(&mut text, totals.sources, " sources, index ")?;
    text.push_str(hex::encode(alloc, totals.sum)?.as_str())?;
    text.push_str("\n")?;
    Ok(text)
}
