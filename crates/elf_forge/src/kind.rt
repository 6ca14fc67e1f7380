//! What a generated file is.

ghost use Rattle.std.specs.Prelude.{◌≡◌};
ghost use Rattle.elf_forge.specs.Forge.{kind_of};

/// What a generated file is.
#[derive(Clone, Copy, Debug, PartialEq, Eq)]
pub enum Kind {
    /// Code, and debug information of one unit with two sources.
    Whole,
    /// Code without debug information.
    Executable,
    /// Debug information of the executable of the number before.
    Companion,
    /// A text, which is no ELF file.
    Text,
}

/// What the file of a number is.
pub fn kind_of(k: u64) -> Kind
    ensures { result ≡ kind_of k }
{
    let rest = k % 4;
    if rest == 0 {
        Kind::Whole
    } else if rest == 1 {
        Kind::Executable
    } else if rest == 2 {
        Kind::Companion
    } else {
        Kind::Text
    }
}
