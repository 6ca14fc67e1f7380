//! Identities from windows: which ranges of a file are asked for, one after the other. The places
//! are those of the sample files' description; `readelf -hS` shows them.

use super::{changed, identity};
use crate::pictures::{fill, gap};
use elf_classify::{IdentStep, IdentView, ident, ident_from, ident_view};
use file_picture::Picture;
use sample_files::{
    ID_C, big_endian_debug, both_classes, debug_companion, dwarf_five, eight_aligned_notes,
    executable, extended_counts, narrow_eight_aligned_notes, narrow_extended_counts,
};
use std::alloc::{AllocError, Global};
use std::process::Abort;

/// A place in a file and a number of bytes.
pub type Range = (u64, u64);

/// The answer for the whole file.
fn whole(file: &[u8]) -> IdentView {
    match ident(file) {
        Ok(ident) => IdentView::Ident(ident),
        Err(why) => IdentView::Plain(why),
    }
}

/// Whether a window is among those that are known first: its bit is set.
pub fn is_known(first: u32, window: usize) -> bool {
    window < 32 && (first >> window) & 1 == 1
}

/// Checks that a question from the section that an answer tells is answered as the one from the first
/// section on.
fn goes_on(rt: &impl Abort, picture: &Picture) {
    if let IdentStep::Need { at, len, next } = ident_from(picture, 1) {
        let again = IdentStep::Need { at, len, next };
        assert!(rt; ident_from(picture, next) == again, "{at}, {len}");
    }
}

/// The answer for a picture that has some windows of a file first; each of the others is asked for in
/// their order, where it isn't there yet, and put there.
fn answer(rt: &impl Abort, alloc: Global, file: &[u8], windows: &[Range], first: u32) -> IdentView {
    let mut picture = Picture::new(alloc, file.len() as u64);
    for (i, range) in windows.iter().enumerate() {
        if is_known(first, i) {
            fill(rt, alloc, &mut picture, file, *range);
        }
    }
    for (at, len) in windows {
        if gap(&picture, *at, *len).is_some() {
            let need = IdentView::Need { at: *at, len: *len };
            assert!(rt; ident_view(&picture) == need, "{first}: {at}, {len}");
            goes_on(rt, &picture);
            fill(rt, alloc, &mut picture, file, (*at, *len));
        }
    }
    ident_view(&picture)
}

/// Checks that a file's identity is known from its windows, whichever of them are there first.
fn is_known_from(rt: &impl Abort, alloc: Global, what: &str, file: &[u8], windows: &[Range]) {
    let wanted = whole(file);
    for first in 0..32 {
        let found = answer(rt, alloc, file, windows, first);
        assert!(rt; found == wanted, "{what}, {first}");
    }
}

/// The same of a sample.
fn sample(
    rt: &impl Abort,
    alloc: Global,
    what: &str,
    file: Result<Vec<u8>, AllocError>,
    windows: &[Range],
) {
    let file = file.expect(rt, "memory");
    is_known_from(rt, alloc, what, &file, windows);
}

/// The windows of the sample of both classes: the beginning, the section table, the names, the notes.
pub static BOTH: [Range; 4] = [(0, 64), (168, 320), (113, 48), (64, 36)];

/// With extended counts section 0's header comes before the table.
pub static EXTENDED: [Range; 5] = [(0, 64), (168, 64), (168, 320), (113, 48), (64, 36)];

/// In a 32-bit file the first 64 bytes are 12 more than the header.
pub static BIG: [Range; 4] = [(0, 64), (124, 200), (76, 48), (52, 24)];

pub static BIG_EXTENDED: [Range; 5] = [(0, 64), (124, 40), (124, 200), (76, 48), (52, 24)];

pub static ALIGNED: [Range; 4] = [(0, 64), (152, 256), (129, 23), (64, 51)];

pub static BIG_ALIGNED: [Range; 4] = [(0, 64), (136, 160), (113, 23), (56, 51)];

pub static PROGRAM: [Range; 4] = [(0, 64), (152, 256), (113, 36), (64, 36)];

pub static COMPANION: [Range; 4] = [(0, 64), (200, 384), (136, 58), (64, 36)];

pub static DWARF: [Range; 4] = [(0, 64), (376, 640), (255, 120), (64, 36)];

#[test]
fn each_sample_is_known_from_its_windows_in_every_order(rt: HostRuntime) {
    let alloc = rt.alloc();
    sample(&rt, alloc, "both classes", both_classes(alloc), &BOTH);
    sample(&rt, alloc, "extended", extended_counts(alloc), &EXTENDED);
    sample(&rt, alloc, "32-bit", big_endian_debug(alloc), &BIG);
    let narrow = narrow_extended_counts(alloc);
    sample(&rt, alloc, "32-bit, extended", narrow, &BIG_EXTENDED);
    sample(
        &rt,
        alloc,
        "8-aligned",
        eight_aligned_notes(alloc),
        &ALIGNED,
    );
    let narrow = narrow_eight_aligned_notes(alloc);
    sample(&rt, alloc, "32-bit, 8-aligned", narrow, &BIG_ALIGNED);
    sample(&rt, alloc, "a program", executable(alloc), &PROGRAM);
    sample(
        &rt,
        alloc,
        "its companion",
        debug_companion(alloc),
        &COMPANION,
    );
    sample(&rt, alloc, "DWARF 5", dwarf_five(alloc), &DWARF);
}

/// What a change of a file is, where it stands, its bytes, and the windows of the file then.
type Change = (&'static str, usize, &'static [u8], &'static [Range]);

/// The header of the sample's notes stands at 232, that of its code at 296.
static OF_BOTH: [Change; 9] = [
    ("another beginning", 0, &[0x7e], &[(0, 64)]),
    ("no section table", 40, &[0], &[(0, 64)]),
    ("entries of another size", 58, &[40], &[(0, 64)]),
    ("a table past the end", 60, &[6], &[(0, 64)]),
    ("no section of names", 62, &[5], &[(0, 64), (168, 320)]),
    ("no names", 62, &[0], &[(0, 64), (168, 320), (64, 36)]),
    ("a core image", 16, &[4], &[(0, 64), (168, 320), (113, 48)]),
    (
        "compressed notes",
        240,
        &[2, 8],
        &[(0, 64), (168, 320), (113, 48)],
    ),
    (
        "another type of note",
        72,
        &[1],
        &[(0, 64), (168, 320), (113, 48), (64, 36)],
    ),
];

static OF_EXTENDED: [Change; 3] = [
    ("section 0 past the end", 40, &[0xa9, 1], &[(0, 64)]),
    ("a count of 0", 200, &[0], &[(0, 64), (168, 64)]),
    ("a table past the end", 200, &[6], &[(0, 64), (168, 64)]),
];

/// Checks that the file with each change is known from its windows.
fn are_known(
    rt: &impl Abort,
    alloc: Global,
    file: Result<Vec<u8>, AllocError>,
    changes: &[Change],
) {
    let file = file.expect(rt, "memory");
    for (what, place, bytes, windows) in changes {
        let other = changed(rt, alloc, &file, *place, bytes);
        is_known_from(rt, alloc, what, &other, windows);
    }
}

#[test]
fn a_file_without_an_identity_is_known_from_the_windows_that_its_tests_reach(rt: HostRuntime) {
    let alloc = rt.alloc();
    are_known(&rt, alloc, both_classes(alloc), &OF_BOTH);
    are_known(&rt, alloc, extended_counts(alloc), &OF_EXTENDED);
    is_known_from(&rt, alloc, "nothing", b"", &[]);
    is_known_from(&rt, alloc, "a text", b"text\n", &[(0, 5)]);
}

// With its code made a section of notes the sample has two such; the second is asked for only where
// the first has no build-id.
#[test]
fn notes_behind_the_build_id_are_not_asked_for(rt: HostRuntime) {
    let alloc = rt.alloc();
    let file = both_classes(alloc).expect(&rt, "memory");
    let two = changed(&rt, alloc, &file, 300, &[7]);
    is_known_from(&rt, alloc, "two sections of notes", &two, &BOTH);
    let other = changed(&rt, alloc, &two, 72, &[1]);
    let windows = [(0, 64), (168, 320), (113, 48), (64, 36), (112, 1)];
    is_known_from(&rt, alloc, "an id in neither", &other, &windows);
}

// The executable's names are 36 bytes at 113, and its note 36 at 64; its table begins at 152.
#[test]
fn an_identity_is_known_from_its_windows(rt: HostRuntime) {
    let alloc = rt.alloc();
    let file = executable(alloc).expect(&rt, "memory");
    let program = IdentView::Ident(identity(&rt, &ID_C, true, false));
    assert!(rt; answer(&rt, alloc, &file, &PROGRAM, 3) == program);
}
