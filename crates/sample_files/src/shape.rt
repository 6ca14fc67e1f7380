//! What a sample's header says.

/// The order in which a number's bytes stand.
#[derive(Clone, Copy, PartialEq, Eq)]
pub enum Order {
    /// The least significant byte comes first.
    Little,
    /// The most significant byte comes first.
    Big,
}

/// The size of a file's places and sizes.
#[derive(Clone, Copy, PartialEq, Eq)]
pub enum Class {
    /// Four bytes.
    Elf32,
    /// Eight bytes.
    Elf64,
}

/// What a class has for numbers.
#[derive(Clone, Copy, PartialEq, Eq)]
pub(crate) struct ClassNumbers {
    /// Byte 4 of the file.
    pub(crate) byte: u8,
    /// The header's size, in bytes.
    pub(crate) header: u16,
    /// The size of a section header, in bytes.
    pub(crate) entry: u16,
    /// The alignment of the section table, in bytes.
    pub(crate) table_alignment: usize,
}

impl Class {
    ghost use Rattle.std.specs.Prelude.{◌≡◌};
    ghost use Rattle.sample_files.specs.Layout.{numbers_of};

    pub(crate) fn numbers(self) -> ClassNumbers
        ensures { result ≡ numbers_of self }
    {
        match self {
            Class::Elf32 => ClassNumbers {
                byte: 1,
                header: 52,
                entry: 40,
                table_alignment: 4,
            },
            Class::Elf64 => ClassNumbers {
                byte: 2,
                header: 64,
                entry: 64,
                table_alignment: 8,
            },
        }
    }
}

/// Where a file says how many section headers it has, and which section holds the names.
#[derive(Clone, Copy, PartialEq, Eq)]
pub enum Counts {
    /// In its header.
    Plain,
    /// In section 0, to which the header's numbers send.
    Extended,
}

/// What a file's header says beside the places of its parts.
#[derive(Clone, Copy, PartialEq, Eq)]
pub struct Shape {
    pub class: Class,
    pub order: Order,
    /// The file's type, as ET_DYN.
    pub e_type: u16,
    /// The machine, as EM_X86_64.
    pub e_machine: u16,
    pub counts: Counts,
}
