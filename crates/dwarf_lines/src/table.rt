//! A line table. DWARF 2 to 5, section 6.2.4.

ghost use Rattle.std.specs.Prelude.{◌≡◌, ◌≤◌, ℕ, Option, false, length, IfOk, map};
ghost use Rattle.file_formats.specs.DwarfLines.{IsLineTable, IsListed, LineCodes, line_input};
ghost use Rattle.dwarf_forms.specs.FormAnswers.{input_of};
ghost use Rattle.dwarf_forms.specs.Pieces.{piece_here};
ghost use Rattle.dwarf_forms.specs.TextAnswers.{strings_texts};
ghost use Rattle.dwarf_forms.specs.TextBytes.{text_said};
ghost use Rattle.dwarf_forms.specs.Tells.{TellsOnly};
ghost use Rattle.dwarf_lines.specs.Bases.{IsSameForBases, TellsTable, based};
ghost use Rattle.dwarf_lines.specs.Ended.{AreItems};
ghost use Rattle.dwarf_lines.specs.Entries.{file_facts};
ghost use Rattle.dwarf_lines.specs.Finds.{FindsPart, as_it_is};
ghost use Rattle.dwarf_lines.specs.Lists.{lists_at, lists_of, directory_path};

use crate::ended::read_ended;
use crate::entry::LineFile;
use crate::head::read_head;
use crate::lists::{ReadList, read_list};
use byte_read::Cursor;
use dwarf_forms::{Format, Piece, Strings, Text, piece_at};
use file_formats::dwarf_lines::LineHead;
use file_formats::dwarf_units::DWARF_VERSION;
use std::alloc::{AllocError, Global};
use std::marker::Model;

/// What a line table lists. Contracts see it as the paths of its directories, and its files.
#[derive(Drop)]
pub struct LineTable<'a> {
    /// The version.
    pub version: u16,
    /// The paths of the directories in their order: in version 5 the first has the index 0, and before
    /// it 1. None where the text isn't there.
    pub dirs: Vec<Option<Text<'a>>>,
    /// The files, by their indexes from 0.
    pub files: Vec<LineFile<'a>>,
}

impl<'a> Model for LineTable<'a> {
    ghost use Rattle.std.specs.Prelude.{map};
    ghost use Rattle.dwarf_forms.specs.TextBytes.{text_said};
    ghost use Rattle.file_formats.specs.DwarfLines as formats;
    ghost use Rattle.dwarf_lines.specs.Entries.{file_facts};

    ghost Value = { formats.LineTable };

    ghost view = { λ t. record {
      version = t.version;
      directories = map text_said t.dirs.items;
      files = map file_facts t.files.items;
    } };
}

/// A line table as it was read.
#[derive(Drop)]
pub struct ReadTable<'a> {
    /// The table, None where it can't be read.
    pub table: Option<LineTable<'a>>,
    /// Whether a form in one of its lists names texts by their indexes in .debug_str_offsets.
    pub indexed: bool,
}

/// The paths of directories.
fn paths_of<'a>(
    alloc: Global,
    directories: &[LineFile<'a>],
) -> Result<Vec<Option<Text<'a>>>, AllocError>
    ensures { IfOk result (λ paths. map text_said paths.items
        ≡ map directory_path (map file_facts directories.now)) }
{
    let mut paths = Vec::with_capacity(alloc, directories.len())?;
    for directory in directories {
        paths.push(directory.path)?;
    }
    Ok(paths)
}

/// Reads the two lists.
#[tactic(auto, unfolding(crate::specs::Lists::lists_at))]
fn read_lists<'a>(
    alloc: Global,
    cursor: &mut Cursor<'a>,
    format: Format,
    strings: &Strings<'a>,
) -> Result<ReadTable<'a>, AllocError>
    ensures lists { IfOk result (λ read. FindsPart as_it_is (λ s. lists_at s (strings_texts strings.now))
        format cursor.old cursor.new read.table) }
    ensures fixed { IfOk result (λ read. read.indexed ≡ false → IsSameForBases
        (λ texts. lists_at (input_of cursor.old format) texts cursor.old.place) (strings_texts strings.now)) }
{
    let ReadList { entries, indexed } = read_list(alloc, cursor, format, strings)?;
    let Some(directories) = entries else {
        return Ok(ReadTable {
            table: None,
            indexed,
        });
    };
    let ReadList {
        entries,
        indexed: files_indexed,
    } = read_list(alloc, cursor, format, strings)?;
    let indexed = indexed || files_indexed;
    let Some(files) = entries else {
        return Ok(ReadTable {
            table: None,
            indexed,
        });
    };
    let dirs = paths_of(alloc, directories.as_slice())?;
    Ok(ReadTable {
        table: Some(LineTable {
            version: format.version,
            dirs,
            files,
        }),
        indexed,
    })
}

/// Reads the lists of a table with this header, of version 5.
#[tactic(auto, unfolding(crate::specs::Lists::lists_within))]
fn read_counted<'a>(
    alloc: Global,
    piece: &Piece<'a>,
    head: LineHead,
    strings: &Strings<'a>,
) -> Result<ReadTable<'a>, AllocError>
    requires { head.lists ≤ length piece.now.bytes.now }
    ensures lists { IfOk result (λ read. read.table
        ≡ lists_of (strings_texts strings.now) (piece_here piece.now).value head) }
    ensures fixed { IfOk result (λ read. read.indexed ≡ false → IsSameForBases
        (λ texts. lists_of texts (piece_here piece.now).value head) (strings_texts strings.now)) }
{
    let strings = Strings {
        wide: piece.wide,
        ..*strings
    };
    let format = Format {
        wide: piece.wide,
        address_size: head.address_size,
        version: head.version,
    };
    let mut cursor = Cursor::new(piece.bytes, strings.order);
    if cursor.take(head.lists as u64).is_err() {
        return Ok(ReadTable {
            table: None,
            indexed: true,
        });
    }
    let ReadTable { table, indexed } = read_lists(alloc, &mut cursor, format, &strings)?;
    let Some(table) = table else {
        return Ok(ReadTable {
            table: None,
            indexed,
        });
    };
    if cursor.at() as u128 > head.end {
        return Ok(ReadTable {
            table: None,
            indexed,
        });
    }
    Ok(ReadTable {
        table: Some(table),
        indexed,
    })
}

/// Reads the lists of a table with this header, of a version before 5. They name no texts by indexes.
fn read_named<'a>(
    alloc: Global,
    piece: &Piece<'a>,
    head: LineHead,
    strings: &Strings<'a>,
) -> Result<ReadTable<'a>, AllocError>
    requires head { head.lists ≤ length piece.now.bytes.now }
    ensures lists { IfOk result (λ read. TellsOnly as_it_is
        (AreItems (line_input strings.now.order (piece_here piece.now).value head) head.lists head.end)
        read.table) }
    ensures fixed { IfOk result (λ read. read.indexed ≡ false) }
{
    let format = Format {
        wide: piece.wide,
        address_size: head.address_size,
        version: head.version,
    };
    let mut cursor = Cursor::new(piece.bytes, strings.order);
    if cursor.take(head.lists as u64).is_err() {
        return Ok(ReadTable {
            table: None,
            indexed: false,
        });
    }
    let table = read_ended(alloc, &mut cursor, format, head.end)?;
    Ok(ReadTable {
        table,
        indexed: false,
    })
}

/// Reads the lists of a table with this header.
#[tactic(auto, using(crate::proofs::EndedLaws::counted_told, crate::proofs::EndedLaws::ended_told))]
fn read_within<'a>(
    alloc: Global,
    piece: &Piece<'a>,
    head: LineHead,
    strings: &Strings<'a>,
) -> Result<ReadTable<'a>, AllocError>
    requires { head.lists ≤ length piece.now.bytes.now }
    ensures { IfOk result (λ read. TellsTable
        (λ texts. IsListed texts (piece_here piece.now).value head) (strings_texts strings.now) read) }
{
    if head.version == DWARF_VERSION {
        read_counted(alloc, piece, head, strings)
    } else {
        read_named(alloc, piece, head, strings)
    }
}

/// Reads the line table at a place of .debug_line, and tells whether it may be another one where
/// texts are taken from another place of .debug_str_offsets. Texts are sought by the table's own
/// format and not by that of `strings`. Memory is taken by what is read, and not by the counts that
/// the table states.
#[tactic(auto, using(crate::proofs::EndedLaws::table_told, crate::proofs::EndedLaws::table_fixed))]
pub fn read_table<'a>(
    alloc: Global,
    line: &'a [u8],
    offset: u64,
    strings: &Strings<'a>,
) -> Result<ReadTable<'a>, AllocError>
    ensures table { IfOk result (λ read. TellsOnly as_it_is
        (IsLineTable line.now offset (strings_texts strings.now)) read.table) }
    ensures fixed { IfOk result (λ read. read.indexed ≡ false → (base : Option ℕ)
        → TellsOnly as_it_is (IsLineTable line.now offset (based (strings_texts strings.now) base)) read.table) }
    ensures codes { LineCodes }
{
    let Some(piece) = piece_at(line, offset, strings.order) else {
        return Ok(ReadTable {
            table: None,
            indexed: false,
        });
    };
    let Some(head) = read_head(&piece, strings.order) else {
        return Ok(ReadTable {
            table: None,
            indexed: false,
        });
    };
    read_within(alloc, &piece, head, strings)
}

/// Reads the directories and files of the line table at a place of .debug_line, None where the
/// table can't be read. Texts are sought by the table's own format and not by that of `strings`.
/// Memory is taken by what is read, and not by the counts that the table states.
pub fn line_table<'a>(
    alloc: Global,
    line: &'a [u8],
    offset: u64,
    strings: &Strings<'a>,
) -> Result<Option<LineTable<'a>>, AllocError>
    ensures table { IfOk result (TellsOnly as_it_is
        (IsLineTable line.now offset (strings_texts strings.now))) }
    ensures codes { LineCodes }
{
    let ReadTable { table, indexed: _ } = read_table(alloc, line, offset, strings)?;
    Ok(table)
}
