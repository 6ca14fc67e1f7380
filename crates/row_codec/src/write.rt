//! The spelling of a row.

ghost use Rattle.std.specs.Prelude.{◌≡◌, ◌<◌, ◌^◌, ◌++◌, length, All, IfOk, OnOk};
ghost use Rattle.std.specs.List.{flat_map};
ghost use Rattle.std.specs.Int.{cast_unsigned};
ghost use Rattle.row_types.specs.BuildId.{IsIdLength};
ghost use Rattle.row_codec.specs.Pinned.{ArePinnedReasons, ArePinnedSizes, ArePinnedTags};
ghost use Rattle.row_codec.specs.Spelled.{IsPathText, IsStamp, AreSources, IsSpelledReading};
ghost use Rattle.row_codec.specs.RowBytes.{IsOnlyRow, IsRowBytes, eight_bytes, flags_byte};
ghost use Rattle.row_codec.specs.RowBytes.{four_bytes};
ghost use Rattle.row_codec.specs.RowBytes.{ident_bytes, reading_bytes, sources_bytes};
ghost use Rattle.row_codec.specs.RowBytes.{stamp_bytes, spelled_text, why_byte};

use crate::codes::{
    BAD_ELF, CORE, DEBUG_FLAG, ELF_TAG, EXEC_FLAG, NO_BUILD_ID, NO_SECTIONS, NOT_ELF, PLAIN_TAG,
    TOO_LARGE,
};
use row_types::{CanonPath, Ident, Reading, Row, Sources, Stamp, Why};
use std::alloc::{AllocError, Global};

/// Spells a row. A row of 2^32 sources or more has no row bytes; for it memory is said not to
/// suffice.
pub fn write_row(alloc: Global, row: &Row) -> Result<Vec<u8>, AllocError>
    ensures bytes { IfOk result (λ bytes. IsRowBytes row.now bytes.items) }
    ensures only { IfOk result (λ bytes. IsOnlyRow row.now bytes.items) }
    ensures tags { ArePinnedTags }
    ensures reasons { ArePinnedReasons }
    ensures sizes { ArePinnedSizes }
{
    let mut bytes = Vec::new(alloc);
    bytes.push(row.edition)?;
    push_path(&mut bytes, &row.name.path)?;
    push_stamp(&mut bytes, row.name.stamp)?;
    push_reading(&mut bytes, &row.reading)?;
    Ok(bytes)
}

/// Adds a path, as a text.
fn push_path(bytes: &mut Vec<u8>, path: &CanonPath) -> Result<(), AllocError>
    ensures text { IsPathText path.now }
    ensures added { OnOk result (bytes.new.items ≡ bytes.old.items ++ spelled_text path.now) }
{
    let text = path.text().as_bytes();
    push_u32(bytes, text.len() as u32)?;
    bytes.extend_from_slice(text)
}

/// Adds a stamp.
fn push_stamp(bytes: &mut Vec<u8>, stamp: Stamp) -> Result<(), AllocError>
    ensures numbers { IsStamp stamp }
    ensures added { OnOk result (bytes.new.items ≡ bytes.old.items ++ stamp_bytes stamp) }
{
    push_u64(bytes, stamp.size)?;
    push_u64(bytes, stamp.secs.cast_unsigned())?;
    push_u32(bytes, stamp.nanos)
}

/// Adds a number in four bytes.
#[tactic(auto, unfolding(crate::specs::RowBytes::four_bytes))]
fn push_u32(bytes: &mut Vec<u8>, number: u32) -> Result<(), AllocError>
    ensures { OnOk result (bytes.new.items ≡ bytes.old.items ++ four_bytes number) }
{
    bytes.extend_from_slice(number.to_le_bytes().as_slice())
}

/// Adds a number in eight bytes.
#[tactic(auto, unfolding(crate::specs::RowBytes::eight_bytes))]
fn push_u64(bytes: &mut Vec<u8>, number: u64) -> Result<(), AllocError>
    ensures { OnOk result (bytes.new.items ≡ bytes.old.items ++ eight_bytes number) }
{
    bytes.extend_from_slice(number.to_le_bytes().as_slice())
}

/// Adds a reading.
fn push_reading(bytes: &mut Vec<u8>, reading: &Reading) -> Result<(), AllocError>
    ensures spelled { OnOk result (IsSpelledReading reading.now) }
    ensures added { OnOk result (bytes.new.items ≡ bytes.old.items ++ reading_bytes reading.now) }
{
    match reading {
        Reading::Plain(why) => bytes.extend_from_slice([PLAIN_TAG, why_byte(*why)].as_slice()),
        Reading::Elf { ident, sources } => {
            bytes.push(ELF_TAG)?;
            push_ident(bytes, *ident)?;
            push_sources(bytes, sources)
        }
    }
}

/// The number of a reason why a file has no identity.
fn why_byte(why: Why) -> u8
    ensures { result ≡ why_byte why }
{
    match why {
        Why::NotElf => NOT_ELF,
        Why::BadElf => BAD_ELF,
        Why::NoSections => NO_SECTIONS,
        Why::Core => CORE,
        Why::NoBuildId => NO_BUILD_ID,
        Why::TooLarge => TOO_LARGE,
    }
}

/// Adds an identity.
fn push_ident(bytes: &mut Vec<u8>, ident: Ident) -> Result<(), AllocError>
    ensures sized { IsIdLength (length ident.id) }
    ensures added { OnOk result (bytes.new.items ≡ bytes.old.items ++ ident_bytes ident) }
{
    bytes.push(flags_byte(ident.exec, ident.debug))?;
    let id = ident.id;
    let id = id.bytes();
    bytes.push(id.len() as u8)?;
    bytes.extend_from_slice(id)
}

/// The sum of the flags of an identity.
pub(crate) fn flags_byte(exec: bool, debug: bool) -> u8
    ensures { result ≡ flags_byte exec debug }
{
    let exec_flag = if exec { EXEC_FLAG } else { 0 };
    let debug_flag = if debug { DEBUG_FLAG } else { 0 };
    exec_flag + debug_flag
}

/// Adds the sources.
fn push_sources(bytes: &mut Vec<u8>, sources: &Sources) -> Result<(), AllocError>
    ensures spelled { OnOk result (AreSources sources.now) }
    ensures added { OnOk result (bytes.new.items ≡ bytes.old.items ++ sources_bytes sources.now) }
{
    let paths = sources.paths();
    let Ok(count) = u32::try_from(paths.len()) else {
        return Err(AllocError);
    };
    push_u32(bytes, count)?;
    push_paths(bytes, paths)?;
    Ok(())
}

/// Adds each path, as a text.
fn push_paths(bytes: &mut Vec<u8>, paths: &[CanonPath]) -> Result<(), AllocError>
    ensures texts { OnOk result (All IsPathText paths.now) }
    ensures added { OnOk result (bytes.new.items ≡ bytes.old.items ++ flat_map spelled_text
        paths.now) }
{
    for path in paths {
        push_path(bytes, path)?;
    }
    Ok(())
}
