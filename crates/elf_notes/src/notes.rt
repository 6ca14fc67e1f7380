//! Notes and the build-id among them.

ghost use Rattle.std.specs.Prelude.{◌≡◌, ◌+◌, ◌-◌, ◌*◌, ◌<◌, ◌≤◌, ◌/◌, ◌^◌, ℕ, length, IfNone, IfSome};
ghost use Rattle.std.specs.Bool.{OnTrue};
ghost use Rattle.elf_notes.specs.NoteView.{IsNote};
ghost use Rattle.file_formats.specs.Notes.{HasBuildId, HoldsNote, IsFirstBuildId, aligned, descriptor, is_build_id, notes_in};

use byte_read::{Order, u32_at};
use file_formats::{
    ELF_NOTE_GNU, LONGEST_BUILD_ID, N_DESCSZ, N_NAMESZ, N_TYPE, NHDR_SIZE, NT_GNU_BUILD_ID,
    SHORTEST_BUILD_ID, WIDE_NOTE_ALIGN, note_align,
};
use std::marker::Model;

/// The notes of a section. Contracts see them as its bytes, their order and the alignment of each
/// part.
#[derive(Drop)]
struct Notes<'a> {
    bytes: &'a [u8],
    order: Order,
    /// Bytes.
    align: usize,
}

impl<'a> Model for Notes<'a> {
    ghost use Rattle.std.specs.Prelude.{◌<◌, ◌≤◌};
    ghost use Rattle.file_formats.specs.Notes as formats;
    ghost use Rattle.file_formats.specs.declared.notes.TheConstants.{WIDE_NOTE_ALIGN};

    ghost Value = { formats.Notes };

    ghost view = { λ n. record { bytes = n.bytes.now; order = n.order; align = n.align } };

    ghost invariant = { λ n. (0 < n.align) × (n.align ≤ WIDE_NOTE_ALIGN) };
}

/// A note's header, and where its parts are.
#[derive(Clone, Copy)]
struct Note {
    name_size: u32,
    kind: u32,
    /// Where the descriptor begins, in bytes from the section's start.
    descriptor: usize,
    descriptor_size: u32,
    /// Where the next note would begin.
    next: usize,
}

/// The first multiple of an alignment at or after a place.
fn align_up(place: usize, align: usize) -> usize
    requires some { 0 < align }
    requires small { place + align < 2 ^ 64 }
    ensures value { result ≡ aligned place align }
    ensures after { place ≤ result }
    ensures near { result < place + align }
{
    (place + (align - 1)) / align * align
}

impl<'a> Notes<'a> {
    /// The notes in these bytes, of a section of this alignment.
    fn new(bytes: &'a [u8], order: Order, addralign: u64) -> Self
        ensures { result ≡ notes_in bytes.now order addralign }
    {
        Notes {
            bytes,
            order,
            align: note_align(addralign),
        }
    }

    /// The note at a place, where the section holds it.
    fn note_at(&self, at: usize) -> Option<Note>
        ensures found { IfSome result (IsNote self.now at) }
        ensures none { IfNone result (HoldsNote self.now at → ⊥) }
    {
        let size = self.bytes.len();
        if size < at.checked_add(NHDR_SIZE)? {
            return None;
        }
        let name_size = u32_at(self.bytes, at + N_NAMESZ, self.order);
        let descriptor_size = u32_at(self.bytes, at + N_DESCSZ, self.order);
        let kind = u32_at(self.bytes, at + N_TYPE, self.order);
        let descriptor = align_up(NHDR_SIZE + name_size as usize, self.align);
        let next = align_up(descriptor + descriptor_size as usize, self.align);
        if size < at + descriptor + descriptor_size as usize {
            return None;
        }
        Some(Note {
            name_size,
            kind,
            descriptor: at + descriptor,
            descriptor_size,
            next: at + next,
        })
    }

    /// Whether the note at a place is a build-id of 2 to 64 bytes.
    fn is_id(&self, at: usize, note: &Note) -> bool
        requires { IsNote self.now at note.now }
        ensures value { result ≡ is_build_id self.now at }
        ensures least { OnTrue result (SHORTEST_BUILD_ID ≤ note.now.descriptor_size) }
        ensures most { OnTrue result (note.now.descriptor_size ≤ LONGEST_BUILD_ID) }
    {
        let name = at + NHDR_SIZE;
        note.name_size as usize == ELF_NOTE_GNU.len()
            && note.kind == NT_GNU_BUILD_ID
            && note.descriptor_size >= SHORTEST_BUILD_ID
            && note.descriptor_size <= LONGEST_BUILD_ID
            && self.bytes[name..name + ELF_NOTE_GNU.len()] == ELF_NOTE_GNU[..]
    }

    /// The descriptor of a note that the section holds.
    fn descriptor_of(&self, at: usize, note: &Note) -> &'a [u8]
        requires { IsNote self.now at note.now }
        ensures value { result.now ≡ descriptor self.now at }
        ensures length { length result.now ≡ note.now.descriptor_size }
    {
        &self.bytes[note.descriptor..note.descriptor + note.descriptor_size as usize]
    }

    /// The descriptor of the first build-id note.
    fn first_id(&self) -> Option<&'a [u8]>
        ensures found { IfSome result (λ id. IsFirstBuildId self.now id.now) }
        ensures least { IfSome result (λ id. SHORTEST_BUILD_ID ≤ length id.now) }
        ensures most { IfSome result (λ id. length id.now ≤ LONGEST_BUILD_ID) }
        ensures none { IfNone result ((p : ℕ) → HasBuildId self.now p → ⊥) }
    {
        let mut at = 0;
        while let Some(note) = self.note_at(at) {
            if self.is_id(at, &note) {
                return Some(self.descriptor_of(at, &note));
            }
            at = note.next;
        }
        None
    }
}

/// The descriptor of the first build-id note of a section of this alignment.
pub fn first_build_id(bytes: &[u8], order: Order, addralign: u64) -> Option<&[u8]>
    ensures found { IfSome result (λ id.
        IsFirstBuildId (notes_in bytes.now order addralign) id.now) }
    ensures least { IfSome result (λ id. SHORTEST_BUILD_ID ≤ length id.now) }
    ensures most { IfSome result (λ id. length id.now ≤ LONGEST_BUILD_ID) }
    ensures none { IfNone result ((p : ℕ) → HasBuildId (notes_in bytes.now order addralign) p → ⊥) }
{
    Notes::new(bytes, order, addralign).first_id()
}
