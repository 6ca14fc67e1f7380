//! The parts of a row that take no memory.

ghost use Rattle.std.specs.Prelude.{◌≡◌, ◌≤◌, ◌↔◌, IfOk, IsTrue};
ghost use Rattle.row_types.specs.BuildId.{IsIdLength};
ghost use Rattle.row_codec.specs.Read.{edition_at, flags_of, id_at, ident_at, stamp_in_front, why_at};
ghost use Rattle.row_codec.specs.Read.{why_of_number};
ghost use Rattle.row_codec.specs.Reads.{ReadsFront};

use crate::codes::{BAD_ELF, CORE, NO_BUILD_ID, NO_SECTIONS, NOT_ELF, TOO_LARGE};
use crate::fault::CodecFault;
use crate::left::Left;
use crate::write::flags_byte;
use row_types::{BuildId, Ident, LONGEST_ID, NANOS_PER_SECOND, SHORTEST_ID, Stamp, Why};

/// Reads an edition.
pub(crate) fn read_edition(left: &mut Left<'_>) -> Result<u8, CodecFault>
    ensures value { ReadsFront (edition_at left.old) left.new result }
    ensures least { IfOk result (λ edition. 1 ≤ edition) }
{
    let edition = left.byte()?;
    if edition == 0 {
        return Err(CodecFault::BadTag);
    }
    Ok(edition)
}

/// Reads a stamp.
pub(crate) fn read_stamp(left: &mut Left<'_>) -> Result<Stamp, CodecFault>
    ensures { ReadsFront (stamp_in_front left.old) left.new result }
{
    let size = left.eight()?;
    let secs = left.eight()?;
    let nanos = left.four()?;
    if nanos >= NANOS_PER_SECOND {
        return Err(CodecFault::BadTag);
    }
    Ok(Stamp {
        size,
        secs: secs.cast_signed(),
        nanos,
    })
}

/// Reads why a file has no identity.
pub(crate) fn read_why(left: &mut Left<'_>) -> Result<Why, CodecFault>
    ensures { ReadsFront (why_at left.old) left.new result }
{
    let number = left.byte()?;
    match why_of(number) {
        Some(why) => Ok(why),
        None => Err(CodecFault::BadTag),
    }
}

/// The reason that has the number.
#[tactic(auto, unfolding(crate::specs::Read::why_of_number))]
fn why_of(number: u8) -> Option<Why>
    ensures { result ≡ why_of_number number }
{
    match number {
        NOT_ELF => Some(Why::NotElf),
        BAD_ELF => Some(Why::BadElf),
        NO_SECTIONS => Some(Why::NoSections),
        CORE => Some(Why::Core),
        NO_BUILD_ID => Some(Why::NoBuildId),
        TOO_LARGE => Some(Why::TooLarge),
        _ => None,
    }
}

/// Whether there is code to run and debug information.
#[derive(Clone, Copy)]
pub(crate) struct Flags {
    exec: bool,
    debug: bool,
}

/// The flags that have the sum.
#[tactic(auto, unfolding(crate::specs::Read::flags_of))]
fn flags_of(sum: u8) -> Option<Flags>
    ensures { result ≡ flags_of sum }
{
    if sum == flags_byte(false, false) {
        Some(Flags {
            exec: false,
            debug: false,
        })
    } else if sum == flags_byte(true, false) {
        Some(Flags {
            exec: true,
            debug: false,
        })
    } else if sum == flags_byte(false, true) {
        Some(Flags {
            exec: false,
            debug: true,
        })
    } else if sum == flags_byte(true, true) {
        Some(Flags {
            exec: true,
            debug: true,
        })
    } else {
        None
    }
}

/// Reads an id.
fn read_id(left: &mut Left<'_>) -> Result<BuildId, CodecFault>
    ensures { ReadsFront (id_at left.old) left.new result }
{
    let count = left.byte()?;
    if !is_id_length(count) {
        return Err(CodecFault::BadTag);
    }
    let id = left.take(usize::from(count))?;
    match BuildId::new(id) {
        Some(id) => Ok(id),
        None => unreachable!(),
    }
}

/// Whether an id may have so many bytes.
fn is_id_length(count: u8) -> bool
    ensures { IsTrue result ↔ IsIdLength count }
{
    let count = usize::from(count);
    SHORTEST_ID <= count && count <= LONGEST_ID
}

/// Reads an identity.
pub(crate) fn read_ident(left: &mut Left<'_>) -> Result<Ident, CodecFault>
    ensures { ReadsFront (ident_at left.old) left.new result }
{
    let sum = left.byte()?;
    let Some(Flags { exec, debug }) = flags_of(sum) else {
        return Err(CodecFault::BadTag);
    };
    let id = read_id(left)?;
    Ok(Ident { id, exec, debug })
}
