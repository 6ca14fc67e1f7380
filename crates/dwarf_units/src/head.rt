//! A unit's header. DWARF 2 to 5, section 7.5.1.

ghost use Rattle.std.specs.Prelude.{◌≡◌, ◌≤◌, length, IfSome, drop};
ghost use Rattle.file_formats.specs.DwarfReads.{offset_size};
ghost use Rattle.file_formats.specs.DwarfUnits.{added_size, head_of_size, typed_head, unit_head, untyped_head};
ghost use Rattle.dwarf_units.specs.UnitList.{unit_facts};

use crate::list::Unit;
use byte_read::{Order, u16_at};
use dwarf_forms::number_from;
use file_formats::dwarf_units::{
    DW_UT_COMPILE, DW_UT_PARTIAL, DW_UT_SKELETON, DW_UT_SPLIT_COMPILE, DW_UT_SPLIT_TYPE,
    DW_UT_TYPE, DWARF_VERSION, OLDEST_VERSION, UnitHead,
};

/// How many bytes a place in a section has.
fn place_size(wide: bool) -> usize
    ensures { result ≡ offset_size wide }
{
    if wide { 8 } else { 4 }
}

/// How many bytes a unit's type adds to the header, None for a type that isn't known.
fn bytes_added(unit_type: u8, wide: bool) -> Option<usize>
    ensures value { result ≡ added_size wide unit_type }
    ensures small { IfSome result (λ n. n ≤ 16) }
{
    match unit_type {
        DW_UT_COMPILE | DW_UT_PARTIAL => Some(0),
        DW_UT_SKELETON | DW_UT_SPLIT_COMPILE => Some(8),
        DW_UT_TYPE | DW_UT_SPLIT_TYPE => Some(8 + place_size(wide)),
        _ => None,
    }
}

/// Reads the header of a unit of version 5, None where it is cut or not of a known type.
fn read_typed(unit: &Unit<'_>, order: Order) -> Option<UnitHead>
    requires { 4 ≤ length unit.now.bytes.now }
    ensures value { result ≡ typed_head order (unit_facts unit.now) }
    ensures within { IfSome result (λ head. head.size ≤ length unit.now.bytes.now) }
{
    let bytes = unit.bytes;
    let added = bytes_added(bytes[2], unit.wide)?;
    let debug_abbrev_offset = number_from(bytes, 4, unit.wide, order)?;
    let size = 4 + place_size(unit.wide) + added;
    if bytes.len() < size {
        return None;
    }
    Some(UnitHead {
        version: DWARF_VERSION,
        address_size: bytes[3],
        debug_abbrev_offset,
        size,
    })
}

/// Reads the header of a unit of a version before 5, None where it is cut.
fn read_untyped(unit: &Unit<'_>, order: Order, version: u16) -> Option<UnitHead>
    ensures value { result ≡ untyped_head order (unit_facts unit.now) version }
    ensures within { IfSome result (λ head. head.size ≤ length unit.now.bytes.now) }
{
    let bytes = unit.bytes;
    let debug_abbrev_offset = number_from(bytes, 2, unit.wide, order)?;
    let size = 3 + place_size(unit.wide);
    if bytes.len() < size {
        return None;
    }
    Some(UnitHead {
        version,
        address_size: bytes[size - 1],
        debug_abbrev_offset,
        size,
    })
}

/// Reads a unit's header, None where it is cut or not of a version or type that is read.
#[tactic(auto, unfolding(file_formats::specs::DwarfUnits::unit_head))]
pub(crate) fn read_head(unit: &Unit<'_>, order: Order) -> Option<UnitHead>
    ensures value { result ≡ unit_head order (unit_facts unit.now) }
    ensures within { IfSome result (λ head. head.size ≤ length unit.now.bytes.now) }
{
    if unit.bytes.len() < 4 {
        return None;
    }
    let version = u16_at(unit.bytes, 0, order);
    if version < OLDEST_VERSION || version > DWARF_VERSION {
        return None;
    }
    if version == DWARF_VERSION {
        read_typed(unit, order)
    } else {
        read_untyped(unit, order, version)
    }
}
