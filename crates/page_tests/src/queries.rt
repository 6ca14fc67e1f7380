//! What targets ask of the index.

use metadata_query::{MetaFault, MetaQuery, parse_metadata};
use row_types::BuildId;
use std::alloc::Global;
use std::process::Abort;

/// A target, and what it asks for.
#[derive(Clone, Copy)]
struct Case(&'static [u8], &'static str);

/// Each key in each order, and texts of all kinds.
static ASKED: [Case; 25] = [
    Case(b"/metadata?key=buildid&value=a0A1", "id a0a1"),
    Case(b"/metadata?value=A0a1&key=buildid", "id a0a1"),
    Case(b"/metadata?key=buildid&value=%61%30A1", "id a0a1"),
    Case(b"/metadata?key=file&value=/usr/lib/x", "file /usr/lib/x"),
    Case(b"/metadata?value=/usr/lib/x&key=file", "file /usr/lib/x"),
    Case(b"/metadata?key=file&value=//usr/./lib/../x/", "file /usr/x"),
    Case(b"/metadata?key=file&value=%2fusr%2F", "file /usr"),
    Case(b"/metadata?key=file&value=/", "file /"),
    Case(b"/metadata?key=file&value=/a+b=c", "file /a+b=c"),
    Case(b"/metadata?key=file&value=/a%26b", "file /a&b"),
    Case(b"/metadata?key=file&value=/a?b", "file /a?b"),
    Case(b"/metadata?key=file&value=/a%25b", "file /a%b"),
    Case(b"/metadata?key=file&value=/\xc3\xa9", "file /\u{e9}"),
    Case(b"/metadata?key=file&value=/%f0%9d%84%9E", "file /\u{1d11e}"),
    Case(b"/metadata?key=glob&value=/usr/lib/*", "glob /usr/lib/*"),
    Case(b"/metadata?value=/usr/lib/*&key=glob", "glob /usr/lib/*"),
    Case(b"/metadata?key=glob&value=*", "glob *"),
    Case(b"/metadata?key=glob&value=**", "glob **"),
    Case(b"/metadata?key=glob&value=?", "glob ?"),
    Case(b"/metadata?key=glob&value=%3f%2A", "glob ?*"),
    Case(b"/metadata?key=glob&value=/*", "glob /*"),
    Case(b"/metadata?key=glob&value=*/", "glob */"),
    Case(b"/metadata?key=glob&value=tool", "glob tool"),
    Case(
        b"/metadata?key=glob&value=//..//%C3%A9",
        "glob //..//\u{e9}",
    ),
    Case(b"?key=glob&value=value=a", "glob value=a"),
];

/// Targets that ask for nothing.
static BAD: [&[u8]; 35] = [
    b"/metadata",
    b"/metadata?",
    b"/metadata?&",
    b"/metadata?key=glob",
    b"/metadata?value=*",
    b"/metadata?key=glob&",
    b"/metadata?key=glob&&value=*",
    b"/metadata?key=glob&value=*&",
    b"/metadata?&key=glob&value=*",
    b"/metadata?key=glob&value=*&value=*",
    b"/metadata?key=glob&key=glob&value=*",
    b"/metadata?key=glob&key=glob",
    b"/metadata?value=*&value=*",
    b"/metadata?key=glob&value",
    b"/metadata?keyglob&value=*",
    b"/metadata?key=glob&value*",
    b"/metadata?key=glob&other=*",
    b"/metadata?KEY=glob&value=*",
    b"/metadata?key=Glob&value=*",
    b"/metadata?key=%67lob&value=*",
    b"/metadata?%6bey=glob&value=*",
    b"/metadata??key=glob&value=*",
    b"/metadata?key=?glob&value=*",
    b"/metadata?key=size&value=1",
    b"/metadata?key=&value=1",
    b"/metadata?key=glob&value=",
    b"/metadata?key=file&value=",
    b"/metadata?key=file&value=usr",
    b"/metadata?key=buildid&value=",
    b"/metadata?key=buildid&value=a0a",
    b"/metadata?key=buildid&value=a0",
    b"/metadata?key=glob&value=%2",
    b"/metadata?key=glob&value=%2g",
    b"/metadata?key=glob&value=%00",
    b"/metadata?key=glob&value=\xff",
];

/// Adds an id in hexadecimal digits.
fn push_id(rt: &impl Abort, alloc: Global, line: &mut String, id: &BuildId) {
    let digits = id.print(alloc).expect(rt, "memory");
    line.push_str("id ").expect(rt, "memory");
    line.push_str(digits.as_str()).expect(rt, "memory");
}

/// Adds the characters of a pattern.
fn push_pattern(rt: &impl Abort, line: &mut String, characters: &[char]) {
    line.push_str("glob ").expect(rt, "memory");
    for character in characters {
        line.push(*character).expect(rt, "memory");
    }
}

/// Adds what is asked for.
fn push_asked(rt: &impl Abort, alloc: Global, line: &mut String, asked: &MetaQuery) {
    match asked {
        MetaQuery::ById(id) => push_id(rt, alloc, line, id),
        MetaQuery::ByFile(path) => {
            line.push_str("file ").expect(rt, "memory");
            line.push_str(path.text()).expect(rt, "memory");
        }
        MetaQuery::ByGlob(pattern) => push_pattern(rt, line, pattern.characters()),
    }
}

/// What a target asks for, as a line.
fn line_of(rt: &impl Abort, alloc: Global, target: &[u8]) -> String {
    let mut line = String::new(alloc);
    match &parse_metadata(alloc, target) {
        Ok(asked) => push_asked(rt, alloc, &mut line, asked),
        Err(MetaFault::BadQuery) => line.push_str("bad").expect(rt, "memory"),
        Err(MetaFault::OutOfMemory) => panic!(rt; "memory"),
    }
    line
}

#[test]
fn a_target_asks_by_a_key_and_its_value(rt: HostRuntime) {
    for Case(target, wanted) in &ASKED {
        let line = line_of(&rt, rt.alloc(), *target);
        assert!(rt; line.as_str() == *wanted, "{line} for {wanted}");
    }
}

#[test]
fn every_other_query_is_bad(rt: HostRuntime) {
    for (place, target) in BAD.iter().enumerate() {
        let line = line_of(&rt, rt.alloc(), *target);
        assert!(rt; line.as_str() == "bad", "{line} in line {place}");
    }
}

/// How many characters the pattern has that a target asks for, whose value is a piece so many times.
fn count_characters(rt: &impl Abort, alloc: Global, piece: &[u8], times: usize) -> Option<usize> {
    let mut target = Vec::new(alloc);
    target
        .extend_from_slice(b"/metadata?key=glob&value=")
        .expect(rt, "memory");
    for _ in 0..times {
        target.extend_from_slice(piece).expect(rt, "memory");
    }
    match &parse_metadata(alloc, target.as_slice()) {
        Ok(MetaQuery::ByGlob(pattern)) => Some(pattern.characters().len()),
        _ => None,
    }
}

/// Pieces of patterns, how often each stands, and how many characters there are.
static LONG: [(&[u8], usize, Option<usize>); 8] = [
    (b"*", 4096, Some(4096)),
    (b"*", 4097, None),
    (b"?", 4096, Some(4096)),
    (b"%2a", 4096, Some(4096)),
    (b"%2a", 5400, None),
    (b"\xc3\xa9", 2048, Some(2048)),
    (b"%c3%a9", 2049, None),
    (b"%F0%9D%84%9E", 1024, Some(1024)),
];

#[test]
fn the_limit_of_a_pattern_counts_bytes(rt: HostRuntime) {
    for (place, (piece, times, wanted)) in LONG.iter().enumerate() {
        let count = count_characters(&rt, rt.alloc(), *piece, *times);
        assert!(rt; count == *wanted, "line {place}");
    }
}
