//! What no clause says: that memory suffices, and what the rules give for texts that are known from
//! elsewhere.

use path_scope::{PathFault, canonical, is_under};
use std::alloc::Global;
use std::process::Abort;

// RFC 3986, 5.2.4, has `/a/b/c/./../../g`, whose dots go to `/a/g`.
static FORMS: [(&str, &str); 15] = [
    ("/a/b/c/./../../g", "/a/g"),
    ("/a/b/../c//./d.c", "/a/c/d.c"),
    ("/../x/", "/x"),
    ("/usr/src/../include//stdio.h", "/usr/include/stdio.h"),
    ("/", "/"),
    ("//", "/"),
    ("/..", "/"),
    ("/../..", "/"),
    ("/../a", "/a"),
    ("/a/", "/a"),
    ("/a/.", "/a"),
    ("/a/..", "/"),
    ("/a/b/..", "/a"),
    ("/a/.../b..", "/a/.../b.."),
    ("/ä/../ö", "/ö"),
];

/// Whether the text's canonical path is this one.
fn is_form(alloc: Global, text: &str, want: &str) -> bool {
    match canonical(alloc, text) {
        Ok(path) => path.text() == want,
        Err(_) => false,
    }
}

#[test]
fn dots_and_slashes_are_taken_out_of_a_text(rt: HostRuntime) {
    for (text, want) in &FORMS {
        assert!(rt; is_form(rt.alloc(), text, want), "of {text}");
    }
}

/// How long the text's canonical path is, or why there is none.
fn length_of(alloc: Global, text: &str) -> Result<usize, PathFault> {
    match canonical(alloc, text) {
        Ok(path) => Ok(path.text().len()),
        Err(fault) => Err(fault),
    }
}

static NOT_ABSOLUTE: [&str; 5] = ["", "a", "./a", "a/b", "../a"];

/// A slash, 4094 times b, and so many slashes.
fn long_text(rt: &impl Abort, alloc: Global, slashes: usize) -> String {
    let mut long = String::from_str(alloc, "/").expect(rt, "memory");
    for _ in 0..4094 {
        long.push('b').expect(rt, "memory");
    }
    for _ in 0..slashes {
        long.push('/').expect(rt, "memory");
    }
    long
}

/// How long the path is of 4095 bytes and so many slashes, or why there is none.
fn long_length(rt: &impl Abort, alloc: Global, slashes: usize) -> Result<usize, PathFault> {
    let long = long_text(rt, alloc, slashes);
    length_of(alloc, long.as_str())
}

#[test]
fn a_text_without_a_slash_or_above_4096_bytes_has_no_path(rt: HostRuntime) {
    for text in &NOT_ABSOLUTE {
        let found = length_of(rt.alloc(), text);
        assert!(rt; found == Err(PathFault::NotAbsolute), "of {text}");
    }
    assert!(rt; long_length(&rt, rt.alloc(), 1) == Ok(4095));
    assert!(rt; long_length(&rt, rt.alloc(), 2) == Err(PathFault::TooLong));
}

/// Paths, roots, and whether the path lies under the root.
static UNDER: [(&str, &str, bool); 9] = [
    ("/srv", "/srv", true),
    ("/srv/a", "/srv", true),
    ("/srv/a/b", "/srv", true),
    ("/srvx", "/srv", false),
    ("/sr", "/srv", false),
    ("/", "/srv", false),
    ("/srv", "/", true),
    ("/", "/", true),
    ("/x/srv", "/srv", false),
];

/// Whether the one path lies under the other, None where one of them is no path.
fn lies_under(alloc: Global, path: &str, root: &str) -> Option<bool> {
    match (&canonical(alloc, path), &canonical(alloc, root)) {
        (Ok(path), Ok(root)) => Some(is_under(path, root)),
        _ => None,
    }
}

#[test]
fn what_lies_under_a_root_begins_with_it_and_a_slash(rt: HostRuntime) {
    for (path, root, want) in &UNDER {
        let found = lies_under(rt.alloc(), path, root);
        assert!(rt; found == Some(*want), "{path} and {root}");
    }
}
