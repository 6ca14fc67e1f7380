//! Rows from pictures: which ranges of a file are asked for, one after the other, and that the row is then
//! the one that is read of the whole file. The places are those of the sample files' description.

ghost use Rattle.std.specs.Prelude.{codes, IfOk};
ghost use Rattle.file_picture.specs.Agrees.{AgreesWithPicture};
ghost use Rattle.file_picture.specs.Passed.{HasPassed};
ghost use Rattle.file_picture.specs.ReadSoFar.{IsReadSoFar};
ghost use Rattle.row_types.specs.declared.limits.TheConstants.{READ_LIMIT};

use crate::identities::changed;
use crate::identities::windows::{
    ALIGNED, BIG, BIG_ALIGNED, BIG_EXTENDED, BOTH, COMPANION, EXTENDED, PROGRAM, Range,
};
use crate::reading_on::{read_part, read_within};
use crate::readings::{SOURCES, are, name_of, row_of};
use elf_classify::ident;
use elf_reading::{ViewAnswer, read_view};
use file_formats::Why;
use file_picture::Picture;
use row_types::{OpenWorld, READ_LIMIT, Reading, TrueRow, Truth};
use sample_files::{
    big_endian_debug, both_classes, debug_companion, dwarf_five, eight_aligned_notes, executable,
    extended_counts, narrow_eight_aligned_notes, narrow_extended_counts,
};
use std::alloc::{AllocError, Global};
use std::process::Abort;
use tree_trait::TwoWorld;

/// The range that is asked for, none where the row is there.
fn asked<W: Truth>(rt: &impl Abort, answer: ViewAnswer<W>) -> Option<Range> {
    match answer {
        ViewAnswer::Need { at, len, .. } => Some((at, len)),
        ViewAnswer::Row(_) => None,
        ViewAnswer::OutOfMemory(_) => panic!(rt; "memory"),
    }
}

/// The row that is there.
fn row_in<W: Truth>(rt: &impl Abort, answer: ViewAnswer<W>) -> TrueRow<W> {
    match answer {
        ViewAnswer::Row(row) => row,
        ViewAnswer::Need { .. } => panic!(rt; "all is there"),
        ViewAnswer::OutOfMemory(_) => panic!(rt; "memory"),
    }
}

/// What a picture says of the row of a file of its size: the next part, which is read then, or the row.
fn row_more(
    rt: &impl Abort,
    alloc: Global,
    picture: &mut Picture,
    file: &[u8],
    from: &mut u64,
) -> Result<Range, TrueRow<OpenWorld>>
    requires passed { HasPassed picture.old from.old }
    requires read { IsReadSoFar READ_LIMIT picture.old }
    ensures passed { IfOk result (λ _. HasPassed picture.new from.new) }
    ensures read { IfOk result (λ _. IsReadSoFar READ_LIMIT picture.new) }
{
    let size = picture.size();
    let name = name_of(rt, alloc, size as usize);
    match read_view(alloc, name, picture, *from) {
        ViewAnswer::Need { at, len, next, .. } => {
            read_part(rt, alloc, picture, file, (at, len), next, READ_LIMIT);
            *from = next;
            Ok((at, len))
        }
        ViewAnswer::Row(row) => Err(row),
        ViewAnswer::OutOfMemory(_) => panic!(rt; "memory"),
    }
}

/// The row of a file from a picture: these parts are asked for, in this order, and no others.
fn answer(rt: &impl Abort, alloc: Global, file: &[u8], parts: &[Range]) -> TrueRow<OpenWorld> {
    let mut picture = Picture::new(alloc, file.len() as u64);
    let mut from = 1;
    for part in parts {
        match row_more(rt, alloc, &mut picture, file, &mut from) {
            Ok(range) => assert!(rt; range == *part),
            Err(_) => panic!(rt; "all is there"),
        }
    }
    match row_more(rt, alloc, &mut picture, file, &mut from) {
        Ok(_) => panic!(rt; "one part more"),
        Err(row) => row,
    }
}

/// Checks that a reading is that of a file, with these sources.
fn is_of(rt: &impl Abort, what: &str, reading: &Reading, file: &[u8], paths: &[&str]) {
    match reading {
        Reading::Elf {
            ident: found,
            sources,
        } => {
            assert!(rt; ident(file) == Ok(*found), "{what}");
            are(rt, what, sources, paths);
        }
        Reading::Plain(why) => {
            assert!(rt; ident(file) == Err(*why), "{what}");
        }
    }
}

/// Checks that a file's row is known from its parts, and that it says what the row of the whole file does.
fn is_known_from(
    rt: &impl Abort,
    alloc: Global,
    what: &str,
    file: &[u8],
    parts: &[Range],
    paths: &[&str],
) {
    let bytes = file.to_vec(alloc).expect(rt, "memory");
    let whole = row_of(rt, alloc, bytes);
    is_of(rt, what, &whole.row().reading, file, paths);
    let row = answer(rt, alloc, file, parts);
    is_of(rt, what, &row.row().reading, file, paths);
}

/// The same of a sample.
fn sample(
    rt: &impl Abort,
    alloc: Global,
    what: &str,
    file: Result<Vec<u8>, AllocError>,
    parts: &[Range],
    paths: &[&str],
) {
    let file = file.expect(rt, "memory");
    is_known_from(rt, alloc, what, &file, parts, paths);
}

/// The parts of the sample with DWARF 5: its windows, then its debug sections in the order in which they
/// are asked for.
static DWARF_PARTS: [Range; 10] = [
    (0, 64),
    (376, 640),
    (255, 120),
    (64, 36),
    (125, 22),
    (113, 12),
    (147, 69),
    (216, 7),
    (223, 20),
    (243, 12),
];

// An empty debug section is there from the start: the other samples need their windows alone.
#[test]
fn each_sample_has_the_row_of_the_whole_file_from_its_parts(rt: HostRuntime) {
    let alloc = rt.alloc();
    sample(&rt, alloc, "both classes", both_classes(alloc), &BOTH, &[]);
    let extended = extended_counts(alloc);
    sample(&rt, alloc, "extended", extended, &EXTENDED, &[]);
    sample(&rt, alloc, "32-bit", big_endian_debug(alloc), &BIG, &[]);
    let narrow = narrow_extended_counts(alloc);
    sample(&rt, alloc, "32-bit, extended", narrow, &BIG_EXTENDED, &[]);
    let aligned = eight_aligned_notes(alloc);
    sample(&rt, alloc, "8-aligned", aligned, &ALIGNED, &[]);
    let narrow = narrow_eight_aligned_notes(alloc);
    sample(&rt, alloc, "32-bit, 8-aligned", narrow, &BIG_ALIGNED, &[]);
    sample(&rt, alloc, "a program", executable(alloc), &PROGRAM, &[]);
    let companion = debug_companion(alloc);
    sample(&rt, alloc, "its companion", companion, &COMPANION, &[]);
    let dwarf = dwarf_five(alloc);
    sample(&rt, alloc, "DWARF 5", dwarf, &DWARF_PARTS, &SOURCES);
}

/// What a change of a file is, where it stands, its bytes, and the parts of the file then.
type Change = (&'static str, usize, &'static [u8], &'static [Range]);

/// Changes of the sample with DWARF 5 that leave it without sources. Its note stands at 64, with its type
/// at 72; e_type stands at 16, and 1 is a relocatable file, 4 a core image.
static CHANGES: [Change; 4] = [
    ("another beginning", 0, &[0x7e], &[(0, 64)]),
    ("a core image", 16, &[4], &[(0, 64), (376, 640), (255, 120)]),
    (
        "another type of note",
        72,
        &[1],
        &[(0, 64), (376, 640), (255, 120), (64, 36)],
    ),
    (
        "a relocatable file",
        16,
        &[1],
        &[(0, 64), (376, 640), (255, 120), (64, 36)],
    ),
];

#[test]
fn a_file_without_debug_sections_is_read_from_its_windows(rt: HostRuntime) {
    let alloc = rt.alloc();
    let file = dwarf_five(alloc).expect(&rt, "memory");
    for (what, place, bytes, parts) in &CHANGES {
        let other = changed(&rt, alloc, &file, *place, bytes);
        is_known_from(&rt, alloc, what, &other, parts, &[]);
    }
    is_known_from(&rt, alloc, "nothing", b"", &[], &[]);
    is_known_from(&rt, alloc, "a text", b"text\n", &[(0, 5)], &[]);
}

/// What is said of the row of a file of so many bytes, of which none is known.
fn unread(rt: &impl Abort, alloc: Global, size: u64) -> ViewAnswer<OpenWorld> {
    let picture = Picture::new(alloc, size);
    let _size = picture.size();
    read_view(alloc, name_of(rt, alloc, size as usize), &picture, 1)
}

#[test]
fn a_file_above_64_gib_is_too_large_and_nothing_of_it_is_asked_for(rt: HostRuntime) {
    let largest = asked(&rt, unread(&rt, rt.alloc(), 0x10_0000_0000));
    assert!(rt; largest == Some((0, 64)));
    let row = row_in(&rt, unread(&rt, rt.alloc(), 0x10_0000_0001));
    assert!(rt; matches!(&row.row().reading, Reading::Plain(Why::TooLarge)));
}

/// Checks that the sample with DWARF 5 is found to be this, where at most so many bytes are read, once
/// these many of its parts are.
fn reads_within(rt: &impl Abort, alloc: Global, limit: u64, parts: usize) -> Reading {
    let file = dwarf_five(alloc).expect(rt, "memory");
    let asked = DWARF_PARTS.get(..parts).expect(rt, "parts");
    read_within(rt, alloc, &file, limit, asked)
}

/// Whether a reading is an identity, and how many sources it has.
fn sources_in(reading: &Reading) -> Option<usize> {
    match reading {
        Reading::Elf { sources, .. } => Some(sources.paths().len()),
        Reading::Plain(_) => None,
    }
}

/// Limits, and how many parts are read below each, with the number of sources that are found then: none of
/// a file that is too large. Its windows have 64, 640, 120 and 36 bytes, its debug sections 142.
static LIMITS: [(u64, usize, Option<usize>); 10] = [
    (0, 0, None),
    (63, 0, None),
    (64, 1, None),
    (703, 1, None),
    (704, 2, None),
    (824, 3, None),
    (859, 3, None),
    (860, 4, Some(0)),
    (1001, 4, Some(0)),
    (1002, 10, Some(2)),
];

#[test]
fn windows_and_parts_that_cover_more_than_the_limit_are_not_read(rt: HostRuntime) {
    for (limit, parts, sources) in &LIMITS {
        let reading = reads_within(&rt, rt.alloc(), *limit, *parts);
        assert!(rt; sources_in(&reading) == *sources, "{limit}");
        if sources.is_none() {
            assert!(rt;
                matches!(&reading, Reading::Plain(Why::TooLarge)),
                "{limit}"
            );
        }
    }
}

// Section 0's header lies in the table, so that the five windows have 468 bytes together and not 532.
#[test]
fn a_byte_of_two_windows_counts_once(rt: HostRuntime) {
    let file = extended_counts(rt.alloc()).expect(&rt, "memory");
    let reading = read_within(&rt, rt.alloc(), &file, 468, &EXTENDED);
    assert!(rt; sources_in(&reading) == Some(0));
    let reading = read_within(&rt, rt.alloc(), &file, 467, &EXTENDED[..4]);
    assert!(rt; matches!(&reading, Reading::Plain(Why::TooLarge)));
}

/// What a picture says of the row of `/w/a` at one second, of one byte, in a told world, in which it is `x`.
fn told(rt: &impl Abort, alloc: Global, picture: &Picture) -> ViewAnswer<TwoWorld>
    requires agrees { AgreesWithPicture (codes "x") picture.now }
    requires read { IsReadSoFar READ_LIMIT picture.now }
{
    let name = name_of(rt, alloc, 1);
    read_view(alloc, name, picture, 1)
}

/// The picture of a file of one byte, which isn't known.
#[tactic(auto, using(crate::proofs::OneByte::one_byte))]
fn unknown(alloc: Global) -> Picture
    ensures agrees { AgreesWithPicture (codes "x") result }
    ensures read { IsReadSoFar READ_LIMIT result }
{
    Picture::new(alloc, 1)
}

/// The picture of a file of one byte, `x`.
#[tactic(auto, using(crate::proofs::OneByte::one_byte))]
fn known(rt: &impl Abort, alloc: Global) -> Picture
    ensures agrees { AgreesWithPicture (codes "x") result }
    ensures read { IsReadSoFar READ_LIMIT result }
{
    let mut picture = Picture::new(alloc, 1);
    let bytes = vec![in alloc; b'x'].expect(rt, "memory");
    match picture.add(0, bytes) {
        Ok(()) => picture,
        Err(_) => panic!(rt; "memory"),
    }
}

#[test]
fn the_row_of_a_told_file_is_read_from_its_picture(rt: HostRuntime) {
    let picture = unknown(rt.alloc());
    let need = asked(&rt, told(&rt, rt.alloc(), &picture));
    assert!(rt; need == Some((0, 1)));
    let picture = known(&rt, rt.alloc());
    let row = row_in(&rt, told(&rt, rt.alloc(), &picture));
    assert!(rt; matches!(&row.row().reading, Reading::Plain(Why::NotElf)));
}
