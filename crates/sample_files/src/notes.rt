//! Notes under the name GNU.

ghost use Rattle.std.specs.Prelude.{◌≡◌, ◌+◌, ◌*◌, ◌^◌, ◌<◌, ◌≤◌, ◌++◌, length, sum_by, vec_len, OnOk, IfOk};
ghost use Rattle.std.specs.List.{flat_map};
ghost use Rattle.sample_files.specs.Notes as notes;

use crate::codes::NT_GNU_BUILD_ID;
use crate::fields::{push_word, push_zeros};
use crate::parts::padding;
use crate::shape::Order;
use std::alloc::{AllocError, Global};

/// Pushes a note under the name GNU.
pub(crate) fn push_gnu_note(
    out: &mut Vec<u8>,
    order: Order,
    kind: u32,
    descriptor: &[u8],
) -> Result<(), AllocError>
    requires { length descriptor.now < 2 ^ 32 }
    ensures value { OnOk result (out.new.items
        ≡ out.old.items ++ notes.gnu_note order kind descriptor.now) }
{
    push_word(out, order, 4)?;
    push_word(out, order, descriptor.len() as u32)?;
    push_word(out, order, kind)?;
    out.extend_from_slice(b"GNU\0")?;
    out.extend_from_slice(descriptor)
}

/// Pushes a note under the name GNU, and zeros up to a multiple of `alignment` from its start.
pub(crate) fn push_padded_note(
    out: &mut Vec<u8>,
    order: Order,
    kind: u32,
    descriptor: &[u8],
    alignment: usize,
) -> Result<(), AllocError>
    requires fits { length descriptor.now < 2 ^ 32 }
    requires aligned { 0 < alignment }
    ensures { OnOk result (out.new.items ≡ out.old.items
        ++ notes.zero_padded alignment (notes.gnu_note order kind descriptor.now)) }
{
    let start = out.len();
    push_gnu_note(out, order, kind, descriptor)?;
    push_zeros(out, padding(alignment, out.len() - start))
}

/// The note of a build-id.
#[tactic(auto, using(crate::proofs::NoteLemmas::note_steps))]
pub fn note(alloc: Global, order: Order, id: &[u8]) -> Result<Vec<u8>, AllocError>
    requires { length id.now < 2 ^ 32 }
    ensures value { IfOk result (λ v. v.items ≡ notes.note order id.now) }
    ensures len { IfOk result (λ v. vec_len v ≡ 16 + length id.now) }
{
    let mut bytes = Vec::new(alloc);
    push_gnu_note(&mut bytes, order, NT_GNU_BUILD_ID, id)?;
    Ok(bytes)
}

/// The notes of build-ids, each padded to a multiple of 4.
#[tactic(auto, using(crate::proofs::NoteLemmas::note_steps))]
pub(crate) fn padded_notes(
    alloc: Global,
    order: Order,
    ids: &[&[u8]],
) -> Result<Vec<u8>, AllocError>
    requires { sum_by (λ id. length id.now) ids.now < 2 ^ 32 }
    ensures value { IfOk result (λ v. v.items
        ≡ flat_map (λ id. notes.zero_padded 4 (notes.note order id.now)) ids.now) }
    ensures short { IfOk result (λ v.
        vec_len v ≤ 20 * length ids.now + sum_by (λ id. length id.now) ids.now) }
{
    let mut bytes = Vec::new(alloc);
    for id in ids {
        push_padded_note(&mut bytes, order, NT_GNU_BUILD_ID, id, 4)?;
    }
    Ok(bytes)
}
