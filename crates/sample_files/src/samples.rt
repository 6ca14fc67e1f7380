//! The sample files.

ghost use Rattle.std.specs.Prelude.{◌≡◌, ◌+◌, ◌^◌, ◌<◌, ◌≤◌, ◌++◌, length, map, sum_by, codes, vec_len, IfOk, ◌∷◌, []};
ghost use Rattle.sample_files.specs.Parts.{section};
ghost use Rattle.sample_files.specs.Samples as samples;

use crate::codes::{
    EM_PPC, EM_X86_64, ET_DYN, ET_EXEC, NT_GNU_BUILD_ID, NT_GNU_PROPERTY_TYPE_0, SHF_ALLOC,
    SHF_COMPRESSED, SHF_EXECINSTR, SHT_NOTE, SHT_NULL, SHT_PROGBITS,
};
use crate::debug_bytes::{DEBUG_ABBREV, DEBUG_INFO, DEBUG_LINE, DEBUG_LINE_STR, DEBUG_STR_OFFSETS};
use crate::layout::plain_layout;
use crate::notes::{note, padded_notes, push_gnu_note, push_padded_note};
use crate::parts::Section;
use crate::shape::{Class, Counts, Order, Shape};
use std::alloc::{AllocError, Global};

/// The id of the sample of both classes.
pub const ID_A: [u8; 20] = [
    0x00, 0x01, 0x02, 0x03, 0x04, 0x05, 0x06, 0x07, 0x08, 0x09, 0x0a, 0x0b, 0x0c, 0x0d, 0x0e, 0x0f,
    0x10, 0x11, 0x12, 0x13,
];

/// The id of the sample with DWARF 5.
pub const ID_B: [u8; 20] = [
    0x20, 0x21, 0x22, 0x23, 0x24, 0x25, 0x26, 0x27, 0x28, 0x29, 0x2a, 0x2b, 0x2c, 0x2d, 0x2e, 0x2f,
    0x30, 0x31, 0x32, 0x33,
];

/// The id of the sample executable and of its debug companion.
pub const ID_C: [u8; 20] = [
    0x40, 0x41, 0x42, 0x43, 0x44, 0x45, 0x46, 0x47, 0x48, 0x49, 0x4a, 0x4b, 0x4c, 0x4d, 0x4e, 0x4f,
    0x50, 0x51, 0x52, 0x53,
];

/// The id of the sample 32-bit big-endian debug file.
pub const ID_BIG: [u8; 8] = [0xa0, 0xa1, 0xa2, 0xa3, 0xa4, 0xa5, 0xa6, 0xa7];

pub(crate) fn shared_object(counts: Counts) -> Shape
    ensures { result ≡ samples.shared_object counts }
{
    Shape {
        class: Class::Elf64,
        order: Order::Little,
        e_type: ET_DYN,
        e_machine: EM_X86_64,
        counts,
    }
}

fn big_program(counts: Counts) -> Shape
    ensures { result ≡ samples.big_program counts }
{
    Shape {
        class: Class::Elf32,
        order: Order::Big,
        e_type: ET_EXEC,
        e_machine: EM_PPC,
        counts,
    }
}

/// The section of a build-id's note.
pub(crate) fn build_id(note: &[u8]) -> Section<'_>
    requires { length note.now < 2 ^ 32 }
    ensures { result ≡ section (codes ".note.gnu.build-id") SHT_NOTE SHF_ALLOC 4 note.now }
{
    Section::new(".note.gnu.build-id", SHT_NOTE, SHF_ALLOC, 4, note)
}

/// The section of notes at an alignment.
fn notes_at(alignment: u32, notes: &[u8]) -> Section<'_>
    requires aligned { 0 < alignment }
    requires fits { length notes.now < 2 ^ 32 }
    ensures { result ≡ samples.notes_part alignment notes.now }
{
    Section::new(".note", SHT_NOTE, SHF_ALLOC, alignment, notes)
}

/// Code with these flags.
fn flagged<'a>(flags: u32) -> Section<'a>
    ensures { result ≡ samples.flagged_part flags }
{
    Section::new(".text", SHT_PROGBITS, flags, 16, &[0xc3])
}

pub(crate) fn text<'a>() -> Section<'a>
    ensures { result ≡ samples.text_part }
{
    flagged(SHF_ALLOC + SHF_EXECINSTR)
}

fn bare_text<'a>(alignment: u32, size: u32) -> Section<'a>
    requires { 0 < alignment }
    ensures { result ≡ samples.bare_text_part alignment size }
{
    Section::without_bytes(".text", SHF_ALLOC + SHF_EXECINSTR, alignment, size)
}

pub(crate) fn debug<'a>(name: &'a str, contents: &'a [u8]) -> Section<'a>
    requires { length contents.now < 2 ^ 32 }
    ensures { result ≡ samples.debug_part name.now contents.now }
{
    Section::new(name, SHT_PROGBITS, 0, 1, contents)
}

fn empty_info<'a>() -> Section<'a>
    ensures { result ≡ samples.empty_info_part }
{
    debug(".debug_info", &[])
}

/// A section of type NULL with a byte, under a debug section's name.
fn null_section<'a>() -> Section<'a>
    ensures { result ≡ samples.null_part }
{
    Section::new(".debug_x", SHT_NULL, 0, 1, &[1])
}

fn both_classes_counted(alloc: Global, counts: Counts) -> Result<Vec<u8>, AllocError>
    ensures { IfOk result (λ v. v.items ≡ samples.both_classes_counted counts) }
{
    let id = note(alloc, Order::Little, &ID_A)?;
    plain_layout(
        alloc,
        &shared_object(counts),
        &[build_id(&id), text(), empty_info()],
    )
}

/// The sample of both classes: code and debug information under one id.
pub fn both_classes(alloc: Global) -> Result<Vec<u8>, AllocError>
    ensures { IfOk result (λ v. v.items ≡ samples.both_classes) }
{
    both_classes_counted(alloc, Counts::Plain)
}

fn big_endian_debug_counted(alloc: Global, counts: Counts) -> Result<Vec<u8>, AllocError>
    ensures { IfOk result (λ v. v.items ≡ samples.big_endian_debug_counted counts) }
{
    let id = note(alloc, Order::Big, &ID_BIG)?;
    plain_layout(
        alloc,
        &big_program(counts),
        &[build_id(&id), bare_text(4, 64), empty_info()],
    )
}

/// The sample 32-bit big-endian debug file: a program's debug information without its code.
pub fn big_endian_debug(alloc: Global) -> Result<Vec<u8>, AllocError>
    ensures { IfOk result (λ v. v.items ≡ samples.big_endian_debug) }
{
    big_endian_debug_counted(alloc, Counts::Plain)
}

#[tactic(auto, using(crate::proofs::NoteLemmas::wide_steps))]
fn wide_notes(alloc: Global, order: Order) -> Result<Vec<u8>, AllocError>
    ensures value { IfOk result (λ v. v.items ≡ samples.wide_notes order) }
    ensures len { IfOk result (λ v. vec_len v ≡ 51) }
{
    let mut notes = Vec::new(alloc);
    push_padded_note(&mut notes, order, NT_GNU_PROPERTY_TYPE_0, &[0; 12], 8)?;
    push_gnu_note(&mut notes, order, NT_GNU_BUILD_ID, &[0xab, 0xcd, 0xef])?;
    Ok(notes)
}

fn eight_aligned_under(alloc: Global, shape: &Shape) -> Result<Vec<u8>, AllocError>
    ensures { IfOk result (λ v. v.items ≡ samples.eight_aligned_under shape.now) }
{
    let notes = wide_notes(alloc, shape.order)?;
    plain_layout(alloc, shape, &[notes_at(8, &notes), text()])
}

/// The sample with 8-aligned notes: the note before the build-id's has padding that an alignment of
/// 4 wouldn't ask, and the last has none.
pub fn eight_aligned_notes(alloc: Global) -> Result<Vec<u8>, AllocError>
    ensures { IfOk result (λ v. v.items ≡ samples.eight_aligned_notes) }
{
    eight_aligned_under(alloc, &shared_object(Counts::Plain))
}

/// The same sections in a 32-bit big-endian file.
pub fn narrow_eight_aligned_notes(alloc: Global) -> Result<Vec<u8>, AllocError>
    ensures { IfOk result (λ v. v.items ≡ samples.narrow_eight_aligned_notes) }
{
    eight_aligned_under(alloc, &big_program(Counts::Plain))
}

/// The sample with extended counts: the sample of both classes, whose header sends to section 0.
pub fn extended_counts(alloc: Global) -> Result<Vec<u8>, AllocError>
    ensures { IfOk result (λ v. v.items ≡ samples.extended_counts) }
{
    both_classes_counted(alloc, Counts::Extended)
}

/// The sample 32-bit big-endian debug file, whose header sends to section 0.
pub fn narrow_extended_counts(alloc: Global) -> Result<Vec<u8>, AllocError>
    ensures { IfOk result (λ v. v.items ≡ samples.narrow_extended_counts) }
{
    big_endian_debug_counted(alloc, Counts::Extended)
}

/// The sample with code of chosen flags, and no debug information.
pub fn code_of_flags(alloc: Global, flags: u32) -> Result<Vec<u8>, AllocError>
    ensures { IfOk result (λ v. v.items ≡ samples.code_of_flags flags) }
{
    let id = note(alloc, Order::Little, &ID_C)?;
    plain_layout(
        alloc,
        &shared_object(Counts::Plain),
        &[build_id(&id), flagged(flags)],
    )
}

/// The sample with bytes under a debug section's name, in a section of type NULL.
pub fn null_debug(alloc: Global) -> Result<Vec<u8>, AllocError>
    ensures { IfOk result (λ v. v.items ≡ samples.null_debug) }
{
    let id = note(alloc, Order::Little, &ID_C)?;
    plain_layout(
        alloc,
        &shared_object(Counts::Plain),
        &[build_id(&id), null_section()],
    )
}

/// The sample with chosen ids: code, and a build-id note for each id in order.
pub fn chosen_ids(alloc: Global, ids: &[&[u8]]) -> Result<Vec<u8>, AllocError>
    requires few { length ids.now ≤ 1000 }
    requires short { sum_by (λ id. length id.now) ids.now ≤ 2 ^ 16 }
    ensures { IfOk result (λ v. v.items ≡ samples.chosen_ids (map (λ id. id.now) ids.now)) }
{
    let notes = padded_notes(alloc, Order::Little, ids)?;
    plain_layout(
        alloc,
        &shared_object(Counts::Plain),
        &[notes_at(4, &notes), text()],
    )
}

/// The sample executable of an id: code, and no debug information.
pub fn executable_of(alloc: Global, id: &[u8]) -> Result<Vec<u8>, AllocError>
    requires { length id.now ≤ 2 ^ 16 }
    ensures { IfOk result (λ v. v.items ≡ samples.executable_of id.now) }
{
    let id = note(alloc, Order::Little, id)?;
    plain_layout(
        alloc,
        &shared_object(Counts::Plain),
        &[build_id(&id), text()],
    )
}

/// The sample executable.
pub fn executable(alloc: Global) -> Result<Vec<u8>, AllocError>
    ensures { IfOk result (λ v. v.items ≡ samples.executable) }
{
    executable_of(alloc, &ID_C)
}

/// The sample debug companion of an id: debug information, code without its bytes, and a compressed
/// section.
pub fn debug_companion_of(alloc: Global, id: &[u8]) -> Result<Vec<u8>, AllocError>
    requires { length id.now ≤ 2 ^ 16 }
    ensures { IfOk result (λ v. v.items ≡ samples.debug_companion_of id.now) }
{
    let id = note(alloc, Order::Little, id)?;
    let compressed = Section::new(".debug_zz", SHT_PROGBITS, SHF_COMPRESSED, 1, &[0; 24]);
    let sections = [build_id(&id), bare_text(16, 1), empty_info(), compressed];
    plain_layout(alloc, &shared_object(Counts::Plain), &sections)
}

/// The sample debug companion.
pub fn debug_companion(alloc: Global) -> Result<Vec<u8>, AllocError>
    ensures { IfOk result (λ v. v.items ≡ samples.debug_companion) }
{
    debug_companion_of(alloc, &ID_C)
}

/// The sample with DWARF 5 of an id and of the folder that its unit was compiled in.
pub fn dwarf_five_of(alloc: Global, id: &[u8], folder: &str) -> Result<Vec<u8>, AllocError>
    requires id { length id.now ≤ 2 ^ 16 }
    requires folder { length folder.now ≤ 2 ^ 16 }
    ensures { IfOk result (λ v. v.items ≡ samples.dwarf_five_of id.now folder.now) }
{
    let id = note(alloc, Order::Little, id)?;
    let strings = terminated(alloc, folder)?;
    let sections = [
        build_id(&id),
        text(),
        debug(".debug_abbrev", &DEBUG_ABBREV),
        debug(".debug_info", &DEBUG_INFO),
        debug(".debug_line", &DEBUG_LINE),
        debug(".debug_str", &strings),
        debug(".debug_line_str", &DEBUG_LINE_STR),
        debug(".debug_str_offsets", &DEBUG_STR_OFFSETS),
    ];
    plain_layout(alloc, &shared_object(Counts::Plain), &sections)
}

/// A text with a 0 behind it.
fn terminated(alloc: Global, text: &str) -> Result<Vec<u8>, AllocError>
    ensures value { IfOk result (λ v. v.items ≡ text.now ++ 0 ∷ []) }
    ensures len { IfOk result (λ v. vec_len v ≡ length text.now + 1) }
{
    let mut bytes = Vec::from_slice(alloc, text.as_bytes())?;
    bytes.push(0)?;
    Ok(bytes)
}

/// The sample with DWARF 5: code, and debug information of one unit with two sources.
pub fn dwarf_five(alloc: Global) -> Result<Vec<u8>, AllocError>
    ensures { IfOk result (λ v. v.items ≡ samples.dwarf_five) }
{
    dwarf_five_of(alloc, &ID_B, "/w/src")
}
