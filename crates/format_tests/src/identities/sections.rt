//! Sections by index and by name.

use elf_classify::section_of;
use elf_file::{ElfFile, Section};
use file_formats::Order;
use sample_files::{debug_companion, executable, extended_counts};
use std::alloc::AllocError;
use std::process::Abort;

/// Checks that this is the section of the sample's notes.
fn is_of_notes(rt: &impl Abort, notes: &Section<'_>) {
    assert!(rt; notes.name == Some(b".note.gnu.build-id"));
    assert!(rt; (notes.sh_type, notes.flags, notes.align) == (7, 2, 4));
    assert!(rt; (notes.offset, notes.size) == (64, 36));
    assert!(rt; notes.contents.expect(rt, "it has contents").len() == 36);
}

/// Checks that these are the sections of the sample with extended counts.
fn are_found(rt: &impl Abort, file: &ElfFile<'_>) {
    assert!(rt; file.kind() == 3);
    assert!(rt; file.order() == Order::Little);
    assert!(rt; file.count() == 5);
    is_of_notes(rt, &file.section(1).expect(rt, "there are five sections"));
    assert!(rt; file.section(5).is_none());
    assert!(rt; file.by_name(b".text") == Some(2));
    assert!(rt; file.by_name(b"").is_none(), "section 0 is never looked at");
}

#[test]
fn sections_are_found_by_index_and_by_name(rt: HostRuntime) {
    let bytes = extended_counts(rt.alloc()).expect(&rt, "memory");
    match &ElfFile::parse(&bytes) {
        Ok(file) => are_found(&rt, file),
        Err(_) => panic!(rt; "the file has a section table"),
    }
}

/// A name, the contents of the first section that has it, and what the section is.
type Named = (&'static [u8], Option<&'static [u8]>, &'static str);

static OF_PROGRAM: [Named; 3] = [
    (b".text", Some(&[0xc3]), "code is there"),
    (b".tex", None, "there is none"),
    (b"", None, "section 0 has the empty name"),
];

static OF_COMPANION: [Named; 3] = [
    (b".text", None, "it takes no bytes in the file"),
    (b".debug_zz", None, "it is compressed"),
    (b".debug_info", Some(b""), "it is empty"),
];

/// Checks that the file's sections of these names have these contents.
fn holds(rt: &impl Abort, file: Result<Vec<u8>, AllocError>, sections: &[Named]) {
    let file = file.expect(rt, "memory");
    for (name, contents, what) in sections {
        assert!(rt; section_of(&file, name) == *contents, "{what}");
    }
}

#[test]
fn a_section_is_the_first_of_its_name_with_plain_contents(rt: HostRuntime) {
    holds(&rt, executable(rt.alloc()), &OF_PROGRAM);
    holds(&rt, debug_companion(rt.alloc()), &OF_COMPANION);
    assert!(rt; section_of(b"text", b".text").is_none(), "no section table");
}
