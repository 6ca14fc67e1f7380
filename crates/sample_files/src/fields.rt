//! The fields of headers, pushed to the end of a file.

ghost use Rattle.std.specs.Prelude.{◌≡◌, ◌++◌, OnOk, replicate};
ghost use Rattle.std.specs.Int.{w16, w32, w64};
ghost use Rattle.sample_files.specs.Fields.{spelled, field_bytes, fields_bytes};

use crate::shape::{Class, Order, Shape};
use std::alloc::AllocError;

/// A field of a header.
#[derive(Clone, Copy, PartialEq, Eq)]
pub(crate) enum Field {
    /// Two bytes.
    Half(u16),
    /// Four bytes.
    Word(u32),
    /// A place or a size: four bytes or eight, by the file's class.
    Place(u32),
}

/// Pushes zeros.
pub(crate) fn push_zeros(out: &mut Vec<u8>, count: usize) -> Result<(), AllocError>
    ensures { OnOk result (out.new.items ≡ out.old.items ++ replicate count 0) }
{
    for _done in 0..count {
        out.push(0)?;
    }
    Ok(())
}

/// Pushes a number of two bytes.
#[tactic(auto, unfolding(crate::specs::Fields::spelled))]
pub(crate) fn push_half(out: &mut Vec<u8>, order: Order, value: u16) -> Result<(), AllocError>
    ensures { OnOk result (out.new.items ≡ out.old.items ++ spelled order w16 value) }
{
    match order {
        Order::Little => out.extend_from_slice(&value.to_le_bytes()),
        Order::Big => out.extend_from_slice(&value.to_be_bytes()),
    }
}

/// Pushes a number of four bytes.
#[tactic(auto, unfolding(crate::specs::Fields::spelled))]
pub(crate) fn push_word(out: &mut Vec<u8>, order: Order, value: u32) -> Result<(), AllocError>
    ensures { OnOk result (out.new.items ≡ out.old.items ++ spelled order w32 value) }
{
    match order {
        Order::Little => out.extend_from_slice(&value.to_le_bytes()),
        Order::Big => out.extend_from_slice(&value.to_be_bytes()),
    }
}

/// Pushes a number of eight bytes.
#[tactic(auto, unfolding(crate::specs::Fields::spelled))]
fn push_wide(out: &mut Vec<u8>, order: Order, value: u64) -> Result<(), AllocError>
    ensures { OnOk result (out.new.items ≡ out.old.items ++ spelled order w64 value) }
{
    match order {
        Order::Little => out.extend_from_slice(&value.to_le_bytes()),
        Order::Big => out.extend_from_slice(&value.to_be_bytes()),
    }
}

fn push_field(out: &mut Vec<u8>, shape: &Shape, field: Field) -> Result<(), AllocError>
    ensures { OnOk result (out.new.items ≡ out.old.items ++ field_bytes shape.now field) }
{
    match field {
        Field::Half(value) => push_half(out, shape.order, value),
        Field::Word(value) => push_word(out, shape.order, value),
        Field::Place(value) => match shape.class {
            Class::Elf32 => push_word(out, shape.order, value),
            Class::Elf64 => push_wide(out, shape.order, value as u64),
        },
    }
}

/// Pushes fields one behind the other.
pub(crate) fn push_fields(
    out: &mut Vec<u8>,
    shape: &Shape,
    fields: &[Field],
) -> Result<(), AllocError>
    ensures { OnOk result (out.new.items ≡ out.old.items ++ fields_bytes shape.now fields.now) }
{
    for field in fields {
        push_field(out, shape, *field)?;
    }
    Ok(())
}
