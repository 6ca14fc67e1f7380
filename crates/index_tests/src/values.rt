//! What no clause says: that memory suffices, and what the rules of paths and ids give for texts that are
//! known from elsewhere.

use row_types::{BuildId, Reading, is_canonical};
use sample_rows::{elf, row};

#[test]
fn an_id_is_read_in_either_case_and_printed_in_lower_case(rt: HostRuntime) {
    let id = BuildId::parse(b"aB009F").expect(&rt, "six digits are an id");
    assert!(rt; id.bytes() == [0xab, 0x00, 0x9f].as_slice());
    let text = id.print(rt.alloc()).expect(&rt, "memory");
    assert!(rt; text.as_str() == "ab009f");
}

/// Texts, and whether they are canonical. RFC 3986, 5.2.4, has `/a/b/c/./../../g`, whose canonical
/// form is `/a/g`.
static TEXTS: [(&str, bool); 12] = [
    ("/", true),
    ("/a/g", true),
    ("/a/...", true),
    ("/.a/b..", true),
    ("/a/b/c/./../../g", false),
    ("/a/", false),
    ("//", false),
    ("/a//g", false),
    ("/.", false),
    ("/..", false),
    ("a/g", false),
    ("", false),
];

#[test]
fn canonical_texts_are_told_from_others(rt: HostRuntime) {
    for (text, want) in &TEXTS {
        assert!(rt; is_canonical(text) == *want, "at {text}");
    }
}

#[test]
fn a_row_is_copied_whole(rt: HostRuntime) {
    let alloc = rt.alloc();
    let id = BuildId::new(&[0xab, 0xcd]).expect(&rt, "two bytes are an id");
    let reading = elf(alloc, id.bytes(), true, false, &["/src/ls.c"]).expect(&rt, "a reading");
    let row = row(alloc, "/usr/bin/ls", 4, reading).expect(&rt, "a row");
    let copy = row.copy(alloc).expect(&rt, "memory").into_row();
    assert!(rt; copy.name == row.row().name);
    match &copy.reading {
        Reading::Elf { ident, sources } => {
            assert!(rt; ident.exec && ident.id == id);
            assert!(rt; sources.paths().len() == 1);
        }
        Reading::Plain(_) => panic!(rt; "the reading has an identity"),
    }
}
