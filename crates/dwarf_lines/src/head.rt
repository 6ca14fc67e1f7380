//! A line table's header, to where its lists begin. DWARF 2 to 5, section 6.2.4.

ghost use Rattle.std.specs.Prelude.{◌≡◌, ◌≤◌, ◌<◌, ◌==◌, if◌then◌else◌, length, slice_index, IfSome};
ghost use Rattle.file_formats.specs.declared.dwarf_lines.TheConstants.{ADDRESS_SIZE_PLACE};
ghost use Rattle.file_formats.specs.declared.dwarf_units.TheConstants.{DWARF_VERSION};
ghost use Rattle.file_formats.specs.DwarfLineHeads.{behind_header_length, header_length_place, line_head, line_head_of, parameters_size};
ghost use Rattle.dwarf_forms.specs.Pieces.{piece_here};

use byte_read::{Order, u16_at};
use dwarf_forms::{Piece, number_from};
use file_formats::dwarf_lines::{
    ADDRESS_SIZE_PLACE, HEADER_LENGTH_PLACE, LINE_PARAMETERS_SIZE, LineHead,
    OLD_HEADER_LENGTH_PLACE, OLD_LINE_PARAMETERS_SIZE, OPERATIONS_VERSION,
};
use file_formats::dwarf_units::{DWARF_VERSION, OLDEST_VERSION};

/// The place of header_length.
fn header_length_place(version: u16) -> usize
    ensures value { result ≡ header_length_place version }
    ensures small { result ≤ 4 }
{
    if version == DWARF_VERSION {
        HEADER_LENGTH_PLACE
    } else {
        OLD_HEADER_LENGTH_PLACE
    }
}

/// How many numbers of one byte stand between header_length and opcode_base.
fn parameters_size(version: u16) -> usize
    ensures value { result ≡ parameters_size version }
    ensures small { result ≤ 5 }
{
    if version < OPERATIONS_VERSION {
        OLD_LINE_PARAMETERS_SIZE
    } else {
        LINE_PARAMETERS_SIZE
    }
}

/// The place from which header_length counts.
fn behind_header_length(version: u16, wide: bool) -> usize
    ensures value { result ≡ behind_header_length version wide }
    ensures small { result ≤ 12 }
{
    header_length_place(version) + if wide { 8 } else { 4 }
}

/// The size of an address, which version 5 alone states.
fn address_size(bytes: &[u8], version: u16) -> u8
    requires { 2 < length bytes.now }
    ensures { result ≡ (if version == DWARF_VERSION then slice_index bytes.now ADDRESS_SIZE_PLACE else 0) }
{
    if version == DWARF_VERSION {
        bytes[ADDRESS_SIZE_PLACE]
    } else {
        0
    }
}

/// Reads the header of a table of this version, None where it is cut or its opcode_base is 0.
fn read_head_of(table: &Piece<'_>, order: Order, version: u16) -> Option<LineHead>
    ensures value { result ≡ line_head_of order (piece_here table.now).value version }
    ensures within { IfSome result (λ head. head.lists ≤ length table.now.bytes.now) }
{
    let bytes = table.bytes;
    let behind = behind_header_length(version, table.wide);
    let base_place = behind + parameters_size(version);
    let opcode_base = *bytes.get(base_place)?;
    let lists = base_place + usize::from(opcode_base);
    if opcode_base == 0 || bytes.len() < lists {
        return None;
    }
    let place = header_length_place(version) as u64;
    let header_length = number_from(bytes, place, table.wide, order)?;
    Some(LineHead {
        version,
        address_size: address_size(bytes, version),
        lists,
        end: behind as u128 + u128::from(header_length),
    })
}

/// Reads a table's header, None where it is cut, not of a version that is read, or its opcode_base is
/// 0.
#[tactic(auto, unfolding(file_formats::specs::DwarfLineHeads::line_head))]
pub(crate) fn read_head(table: &Piece<'_>, order: Order) -> Option<LineHead>
    ensures value { result ≡ line_head order (piece_here table.now).value }
    ensures within { IfSome result (λ head. head.lists ≤ length table.now.bytes.now) }
{
    if table.bytes.len() < 2 {
        return None;
    }
    let version = u16_at(table.bytes, 0, order);
    if version < OLDEST_VERSION || version > DWARF_VERSION {
        return None;
    }
    read_head_of(table, order, version)
}
