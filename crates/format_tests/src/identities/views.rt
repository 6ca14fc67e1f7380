//! Sections and debug sections from windows: which ranges of a file are asked for behind those of its
//! identity. The places are those of the sample files' description.

use crate::pictures::{fill, gap};
use elf_classify::{
    IdentView, PartsView, SectionView, debug_parts, ident_view, parts_view, section_of,
    section_view,
};
use file_picture::Picture;
use sample_files::{debug_companion, dwarf_five, executable};
use std::alloc::{AllocError, Global};
use std::process::Abort;

/// A place in a file and a number of bytes.
type Range = (u64, u64);

/// Checks that the section of a name is known from these ranges, each of which is asked for in order,
/// from the `first` on: those before it are there.
fn is_known_from(
    rt: &impl Abort,
    alloc: Global,
    file: &[u8],
    name: &[u8],
    ranges: &[Range],
    first: usize,
) {
    let mut picture = Picture::new(alloc, file.len() as u64);
    for (i, (at, len)) in ranges.iter().enumerate() {
        if i >= first && gap(&picture, *at, *len).is_some() {
            let need = SectionView::Need { at: *at, len: *len };
            assert!(rt; section_view(&picture, name) == need, "{at}, {len}");
        }
        fill(rt, alloc, &mut picture, file, (*at, *len));
    }
    let whole = SectionView::Section(section_of(file, name));
    assert!(rt; section_view(&picture, name) == whole);
}

/// A name, and the ranges on which the section of that name depends.
type Named = (&'static [u8], &'static [Range]);

static OF_PROGRAM: [Named; 2] = [
    (
        b".text",
        &[(0, 64), (152, 256), (113, 36), (64, 36), (112, 1)],
    ),
    (b".tex", &[(0, 64), (152, 256), (113, 36), (64, 36)]),
];

/// Code without its bytes has none to ask for, and a compressed section isn't handed out.
static OF_COMPANION: [Named; 2] = [
    (b".text", &[(0, 64), (200, 384), (136, 58), (64, 36)]),
    (b".debug_zz", &[(0, 64), (200, 384), (136, 58), (64, 36)]),
];

/// Checks that the sections of these names are known from their ranges.
fn are_known(
    rt: &impl Abort,
    alloc: Global,
    file: Result<Vec<u8>, AllocError>,
    sections: &[Named],
) {
    let file = file.expect(rt, "memory");
    for (name, ranges) in sections {
        for first in 0..5 {
            is_known_from(rt, alloc, &file, name, ranges, first);
        }
    }
}

#[test]
fn a_section_is_known_from_the_windows_and_its_bytes(rt: HostRuntime) {
    are_known(&rt, rt.alloc(), executable(rt.alloc()), &OF_PROGRAM);
    are_known(&rt, rt.alloc(), debug_companion(rt.alloc()), &OF_COMPANION);
    is_known_from(&rt, rt.alloc(), b"text", b".text", &[(0, 4)], 0);
}

/// The windows of the sample with DWARF 5.
static WINDOWS: [Range; 4] = [(0, 64), (376, 640), (255, 120), (64, 36)];

/// Its debug sections, in the order in which they are asked for.
static SECTIONS: [Range; 6] = [
    (125, 22),
    (113, 12),
    (147, 69),
    (216, 7),
    (223, 20),
    (243, 12),
];

/// The range that is asked for, none where the sections are handed out.
fn asked(rt: &impl Abort, picture: &Picture) -> Option<Range> {
    match ident_view(picture) {
        IdentView::Ident(_) => match parts_view(picture) {
            PartsView::Need { at, len } => Some((at, len)),
            PartsView::Parts(_) => None,
        },
        _ => panic!(rt; "the identity is known"),
    }
}

#[test]
fn debug_sections_are_known_from_their_bytes(rt: HostRuntime) {
    let alloc = rt.alloc();
    let file = dwarf_five(alloc).expect(&rt, "memory");
    let mut picture = Picture::new(alloc, file.len() as u64);
    for range in &WINDOWS {
        fill(&rt, alloc, &mut picture, &file, *range);
    }
    for range in &SECTIONS {
        assert!(rt; asked(&rt, &picture) == Some(*range));
        fill(&rt, alloc, &mut picture, &file, *range);
    }
    assert!(rt; asked(&rt, &picture).is_none());
}
