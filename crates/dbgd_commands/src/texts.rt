//! The program's texts.

ghost use Rattle.std.specs.Prelude.{◌≡◌, IfOk};
ghost use Rattle.std.specs.String.{string_bytes};
ghost use Rattle.dbgd_commands.specs.Texts.{class_word, identity_line, plain_line, why_word};

use row_types::{Ident, Why};
use std::alloc::{AllocError, Global};

/// The word for what a file holds.
pub fn class_word(ident: &Ident) -> &'static str
    ensures { result.now ≡ class_word ident.now.exec ident.now.debug }
{
    match (ident.exec, ident.debug) {
        (true, false) => "executable",
        (false, true) => "debuginfo",
        (true, true) => "both",
        (false, false) => "none",
    }
}

/// The line of a file's identity.
pub fn identity_line(alloc: Global, ident: &Ident) -> Result<String, AllocError>
    ensures { IfOk result (λ text. string_bytes text ≡ identity_line ident.now) }
{
    let mut text = ident.id.print(alloc)?;
    text.push_str(" ")?;
    text.push_str(class_word(ident))?;
    text.push_str("\n")?;
    Ok(text)
}

/// The word for the reason why a file has no identity.
pub fn why_word(why: Why) -> &'static str
    ensures { result.now ≡ why_word why }
{
    match why {
        Why::NotElf => "not-elf",
        Why::BadElf => "bad-elf",
        Why::NoSections => "no-sections",
        Why::Core => "core",
        Why::NoBuildId => "no-build-id",
        Why::TooLarge => "too-large",
    }
}

/// The line of a file without an identity.
pub fn plain_line(why: Why) -> &'static str
    ensures { result.now ≡ plain_line why }
{
    match why {
        Why::NotElf => "plain not-elf\n",
        Why::BadElf => "plain bad-elf\n",
        Why::NoSections => "plain no-sections\n",
        Why::Core => "plain core\n",
        Why::NoBuildId => "plain no-build-id\n",
        Why::TooLarge => "plain too-large\n",
    }
}
