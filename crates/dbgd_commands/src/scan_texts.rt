//! The texts of a scan.

ghost use Rattle.std.specs.Prelude.{◌≡◌, ◌++◌, ◌≤◌, decimal, replicate, IfOk, OnOk};
ghost use Rattle.std.specs.String.{string_bytes};
ghost use Rattle.dbgd_commands.specs.Texts.{altered_text, appeared_text, nine_digits, seen_text};
ghost use Rattle.dbgd_commands.specs.Texts.{stamp_text, summary_line};

use itoa::Buffer;
use pass_runner::Summary;
use row_types::{Name, Stamp};
use scan_queue::Seen;
use std::alloc::{AllocError, Global};

/// So many zeros.
fn zeros(count: usize) -> &'static str
    requires { count ≤ 9 }
    ensures { result.now ≡ replicate count 48 }
{
    match count {
        0 => "",
        1 => "0",
        2 => "00",
        3 => "000",
        4 => "0000",
        5 => "00000",
        6 => "000000",
        7 => "0000000",
        8 => "00000000",
        _ => "000000000",
    }
}

/// A number in nine digits.
fn nine_digits(alloc: Global, number: u32) -> Result<String, AllocError>
    ensures { IfOk result (λ text. string_bytes text ≡ nine_digits number) }
{
    let mut buffer = Buffer::new();
    let digits = buffer.format(number);
    let mut text = String::from_str(alloc, zeros(9usize.saturating_sub(digits.len())))?;
    text.push_str(digits)?;
    Ok(text)
}

/// A stamp: size, seconds, and nanoseconds in nine digits.
fn stamp_text(alloc: Global, stamp: &Stamp) -> Result<String, AllocError>
    ensures { IfOk result (λ text. string_bytes text ≡ stamp_text stamp.now) }
{
    let mut text = String::from_str(alloc, Buffer::new().format(stamp.size))?;
    text.push_str(":")?;
    text.push_str(Buffer::new().format(stamp.secs))?;
    text.push_str(":")?;
    text.push_str(nine_digits(alloc, stamp.nanos)?.as_str())?;
    Ok(text)
}

/// What stood at a path.
fn seen_text(alloc: Global, seen: &Seen) -> Result<String, AllocError>
    ensures { IfOk result (λ text. string_bytes text ≡ seen_text seen.now) }
{
    match seen {
        Seen::Gone => String::from_str(alloc, "gone"),
        Seen::File(stamp) => stamp_text(alloc, stamp),
        Seen::Other => String::from_str(alloc, "other"),
    }
}

/// The line of a file that was another by the time that it was read, but for its line feed.
pub fn altered_text(alloc: Global, name: &Name, seen: &Seen) -> Result<String, AllocError>
    ensures { IfOk result (λ text. string_bytes text ≡ altered_text name.now seen.now) }
{
    let mut text = String::from_str(alloc, "dbgd: altered ")?;
    text.push_str(name.path.text())?;
    text.push_str(" listed ")?;
    text.push_str(stamp_text(alloc, &name.stamp)?.as_str())?;
    text.push_str(" seen ")?;
    text.push_str(seen_text(alloc, seen)?.as_str())?;
    Ok(text)
}

/// The line of a file that stands though it isn't listed, but for its line feed.
pub fn appeared_text(alloc: Global, name: &Name) -> Result<String, AllocError>
    ensures { IfOk result (λ text. string_bytes text ≡ appeared_text name.now) }
{
    let mut text = String::from_str(alloc, "dbgd: appeared ")?;
    text.push_str(name.path.text())?;
    text.push_str(" ")?;
    text.push_str(stamp_text(alloc, &name.stamp)?.as_str())?;
    Ok(text)
}

/// Adds a number and what it counts to a text.
pub fn push_count(text: &mut String, number: u64, what: &str) -> Result<(), AllocError>
    ensures { OnOk result
        (string_bytes text.new ≡ string_bytes text.old ++ decimal number ++ what.now) }
{
    text.push_str(Buffer::new().format(number))?;
    text.push_str(what)
}

/// The line of a scan.
pub fn summary_line(alloc: Global, summary: &Summary) -> Result<String, AllocError>
    ensures { IfOk result (λ text. string_bytes text ≡ summary_line summary.now) }
{
    let mut text = String::from_str(alloc, "scan: ")?;
    push_count(&mut text, summary.files, " files, ")?;
    push_count(&mut text, summary.added, " added, ")?;
    push_count(&mut text, summary.replaced, " replaced, ")?;
    push_count(&mut text, summary.dropped, " dropped, ")?;
    push_count(&mut text, summary.kept, " kept, ")?;
    push_count(&mut text, summary.executables, " executables, ")?;
    push_count(&mut text, summary.debuginfo, " debuginfo")?;
    text.push_str("\n")?;
    Ok(text)
}
