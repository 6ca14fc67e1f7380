//! Lines that aren't read as their command.

ghost use Rattle.std.specs.Prelude.{◌≡◌, ◌≢◌, IfOk};
ghost use Rattle.clap.specs.Values.{kind_of};
ghost use Rattle.dbgd_words.specs.Lines.{asked_by};
ghost use Rattle.dbgd_words.specs.Words.{refused_line};

use crate::line::Line;
use clap::Error;
use clap::error::ErrorKind;
use std::alloc::{AllocError, Global};

/// What a line asks that isn't read as its command: its help, its version, or nothing that can be
/// read. It is none of these where memory was refused.
pub fn refused<'a>(alloc: Global, error: &Error) -> Result<Line<'a>, AllocError>
    ensures kind { IfOk result (λ line. kind_of error.now ≢ ErrorKind.OutOfMemory) }
    ensures line { IfOk result (λ line. asked_by line ≡ refused_line (kind_of error.now)) }
{
    match error.kind() {
        ErrorKind::OutOfMemory => Err(AllocError),
        ErrorKind::DisplayHelp | ErrorKind::DisplayVersion => {
            let text = format!(in alloc; "{error}")?;
            Ok(Line::Help { text })
        }
        _ => Ok(Line::Usage),
    }
}
