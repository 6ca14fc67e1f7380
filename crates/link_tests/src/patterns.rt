//! Patterns of paths: which texts are taken, why others aren't, and in which paths there is a match.

mod alike;

use path_canon::{Select, SelectFault};
use row_types::CanonPath;
use std::alloc::Global;
use std::process::Abort;

/// The canonical path of a text.
pub fn path_of(rt: &impl Abort, alloc: Global, text: &str) -> CanonPath {
    let text = String::from_str(alloc, text).expect(rt, "memory");
    CanonPath::check(text).ok().expect(rt, "a canonical path")
}

/// Whether the path is selected, in a word.
fn found_word(
    rt: &impl Abort,
    alloc: Global,
    select: &mut Select,
    path: &CanonPath,
) -> &'static str {
    if select.selects(alloc, path).expect(rt, "memory") {
        "found"
    } else {
        "none"
    }
}

/// Why a selection isn't made, in words.
fn fault_word(fault: SelectFault) -> &'static str {
    match fault {
        SelectFault::BadInclude => "no include",
        SelectFault::BadExclude => "no exclude",
        SelectFault::TooBig => "too big",
        SelectFault::OutOfMemory => "no memory",
    }
}

/// Whether the pattern has a match in the path, or why it isn't taken.
fn match_word(rt: &impl Abort, alloc: Global, pattern: &str, path: &CanonPath) -> &'static str {
    match Select::new(alloc, Some(pattern), None) {
        Ok(select) => {
            let mut select = select;
            found_word(rt, alloc, &mut select, path)
        }
        Err(fault) => fault_word(fault),
    }
}

/// Looks for the pattern in the path, and compares.
fn compare(rt: &impl Abort, alloc: Global, pattern: &str, path: &str, want: &str) {
    let canonical = path_of(rt, alloc, path);
    let word = match_word(rt, alloc, pattern, &canonical);
    assert!(rt; word == want, "{pattern} in {path}: {word}");
}

/// A pattern, a path, and what is found.
type Case = (&'static str, &'static str, &'static str);

// So answers `regcomp` with `REG_EXTENDED` and `regexec` of glibc 2.36 in the C locale, where a text that
// it refuses is "no include".
static AS_EXTENDED: [Case; 46] = [
    (r"\.debug$", "/srv/x.debug", "found"),
    (r"\.debug$", "/srv/x.debuginfo", "none"),
    (r"\.debug$", "/srv/xdebug", "none"),
    ("^/srv/", "/srv/a", "found"),
    ("^/srv/", "/w/srv/a", "none"),
    ("/srv/", "/w/srv/a", "found"),
    ("(a|b)", "/b", "found"),
    ("(a|b)", "/c", "none"),
    ("[[:digit:][:alpha:]]", "/1", "found"),
    ("[[:digit:][:alpha:]]", "/_", "none"),
    ("[]a]", "/]", "found"),
    ("[]a]", "/b", "none"),
    ("^/[^]a]$", "/b", "found"),
    ("^/[^]a]$", "/]", "none"),
    (r"\<tool\>", "/tool", "found"),
    (r"\<tool\>", "/tools", "none"),
    (r"\btool\b", "/tool.debug", "found"),
    (r"\btool\b", "/atool", "none"),
    (r"a\{2\}", "/a{2}", "found"),
    (r"a\{2\}", "/aa", "none"),
    ("a{2}", "/aa", "found"),
    ("a{2}", "/aba", "none"),
    ("a**", "/b", "found"),
    ("a||b", "/c", "found"),
    ("()", "/c", "found"),
    ("]", "/]", "found"),
    ("]", "/a", "none"),
    (r"\/", "/a", "found"),
    (r"\-", "/a-b", "found"),
    (r"\-", "/ab", "none"),
    (r"\_", "/a_b", "found"),
    (r"\_", "/ab", "none"),
    ("", "/a", "found"),
    ("|", "/a", "found"),
    ("(", "/a", "no include"),
    ("[", "/a", "no include"),
    (r"\", "/a", "no include"),
    ("{", "/a", "no include"),
    ("a{", "/a", "no include"),
    ("a{2", "/a", "no include"),
    ("*", "/a", "no include"),
    ("*a", "/a", "no include"),
    ("+a", "/a", "no include"),
    (r"\1", "/a", "no include"),
    ("(?=a)", "/a", "no include"),
    ("(?<!a)b", "/b", "no include"),
];

// What the syntax of the crate `regex` says where glibc says otherwise: glibc takes the first four, takes no
// flags and no `[[:foo:]]`, reads `\d`, `\pL` and `\x41` as the letter behind the backslash and a backslash
// in a class as itself, goes by bytes, and lets `.` match a line feed.
static OTHERWISE: [Case; 34] = [
    (")", "/)", "no include"),
    (r"(a)\1", "/aa", "no include"),
    (r"\q", "/q", "no include"),
    ("a{,3}", "/a", "no include"),
    ("a{0,3}b", "/aab", "found"),
    (r"\d", "/1", "found"),
    (r"\d", "/d", "none"),
    (r"\pL", "/é", "found"),
    (r"\pL", "/1", "none"),
    (r"\x41", "/A", "found"),
    (r"\x41", "/x41", "none"),
    ("(?i)a", "/A", "found"),
    ("a", "/A", "none"),
    ("(?x) a", "/a", "found"),
    (r"[a\]b]", "/]", "found"),
    (r"[a\]b]", "/\\", "none"),
    ("[a&&b]", "/a", "none"),
    ("[a&&b]", "/&", "none"),
    ("[[:foo:]]", "/f", "found"),
    ("[[:foo:]]", "/x", "none"),
    (r"\'", "/'", "found"),
    (r"\'", "/a", "none"),
    (r"\`", "/`", "found"),
    (r"\`", "/a", "none"),
    ("^.{2}$", "/é", "found"),
    ("^.{2}$", "/ab", "none"),
    (r"\w", "/é", "found"),
    (r"\w", "/-", "none"),
    ("^/.$", "/\n", "none"),
    ("(?s)^/.$", "/\n", "found"),
    ("a$", "/a\n", "none"),
    ("(?m)a$", "/a\n", "found"),
    ("a{1000}{1000}{1000}", "/a", "too big"),
    ("(a{1000}{1000}{1000}", "/a", "no include"),
];

// Thirteen characters.
static OUTSIDE_ASCII: [(&str, &str); 9] = [
    ("^.{13}$", "found"),
    ("^/é/日本/ß", "found"),
    ("^/./../.[.]debug$", "found"),
    ("(?i)É", "found"),
    ("É", "none"),
    ("[а-я]", "none"),
    ("[à-ü]", "found"),
    (r"\p{Han}{2}", "found"),
    (r"\p{Han}{3}", "none"),
];

#[test]
fn a_pattern_has_the_match_that_its_syntax_says(rt: HostRuntime) {
    for (pattern, path, want) in &AS_EXTENDED {
        compare(&rt, rt.alloc(), pattern, path, want);
    }
    for (pattern, path, want) in &OTHERWISE {
        compare(&rt, rt.alloc(), pattern, path, want);
    }
    for (pattern, want) in &OUTSIDE_ASCII {
        compare(&rt, rt.alloc(), pattern, "/é/日本/ß.debug", want);
    }
}

/// What is included and excluded, and the first fault in the order of the rule: the text to be included is
/// looked at first, whatever is wrong with the other one.
static FAULTS: [(Option<&str>, Option<&str>, &str); 14] = [
    (Some("("), Some(")"), "no include"),
    (Some(")"), Some("a"), "no include"),
    (Some("("), None, "no include"),
    (Some("("), Some("a{1000}{1000}{1000}"), "no include"),
    (Some("a{1000}{1000}{1000}"), Some("("), "too big"),
    (Some("a{1000}{1000}{1000}"), Some("a"), "too big"),
    (Some("a{1000}{1000}{1000}"), None, "too big"),
    (None, Some(")"), "no exclude"),
    (Some("a"), Some("("), "no exclude"),
    (Some(""), Some("a{2"), "no exclude"),
    (None, Some("a{1000}{1000}{1000}"), "too big"),
    (Some("a"), Some("a{1000}{1000}{1000}"), "too big"),
    (Some("a"), Some("b"), "made"),
    (None, None, "made"),
];

/// Whether the selection of these texts is made, or why not.
fn made_word(alloc: Global, include: Option<&str>, exclude: Option<&str>) -> &'static str {
    match Select::new(alloc, include, exclude) {
        Ok(_) => "made",
        Err(fault) => fault_word(fault),
    }
}

#[test]
fn the_fault_of_what_is_included_is_told_first(rt: HostRuntime) {
    for (include, exclude, want) in &FAULTS {
        let word = made_word(rt.alloc(), *include, *exclude);
        assert!(rt; word == *want, "{include:?} {exclude:?}: {word}");
    }
}

/// So many copies of a text.
fn copies(rt: &impl Abort, text: &mut String, part: &str, count: u64) {
    for _ in 0..count {
        text.push_str(part).expect(rt, "memory");
    }
}

/// An `a` in so many groups.
fn nested(rt: &impl Abort, alloc: Global, depth: u64) -> String {
    let mut text = String::new(alloc);
    copies(rt, &mut text, "(", depth);
    copies(rt, &mut text, "a", 1);
    copies(rt, &mut text, ")", depth);
    text
}

/// So many `a`s.
fn long(rt: &impl Abort, alloc: Global, len: u64) -> String {
    let mut text = String::new(alloc);
    copies(rt, &mut text, "a", len);
    text
}

/// Whether the pattern has a match in `/a`, or why it isn't taken.
fn word_in_a(rt: &impl Abort, alloc: Global, pattern: &str) -> &'static str {
    let path = path_of(rt, alloc, "/a");
    match_word(rt, alloc, pattern, &path)
}

/// The same of an `a` in so many groups.
fn nested_word(rt: &impl Abort, alloc: Global, depth: u64) -> &'static str {
    let text = nested(rt, alloc, depth);
    word_in_a(rt, alloc, text.as_str())
}

/// The same of so many `a`s.
fn long_word(rt: &impl Abort, alloc: Global, len: u64) -> &'static str {
    let text = long(rt, alloc, len);
    word_in_a(rt, alloc, text.as_str())
}

/// How deep groups nest, which is 250 at most.
static DEPTHS: [(u64, &str); 4] = [
    (1, "found"),
    (250, "found"),
    (251, "no include"),
    (5000, "no include"),
];

/// How long a pattern is, up to 1 MiB.
static LENGTHS: [(u64, &str); 3] = [(1, "found"), (4096, "none"), (1_048_576, "too big")];

#[test]
fn a_pattern_nests_so_deep_and_is_so_long_and_no_more(rt: HostRuntime) {
    for (depth, want) in &DEPTHS {
        let word = nested_word(&rt, rt.alloc(), *depth);
        assert!(rt; word == *want, "{depth} deep: {word}");
    }
    for (len, want) in &LENGTHS {
        let word = long_word(&rt, rt.alloc(), *len);
        assert!(rt; word == *want, "{len} long: {word}");
    }
}

/// A path of each ASCII character, in their order.
fn ascii_path(rt: &impl Abort, alloc: Global) -> CanonPath {
    let mut text = String::from_str(alloc, "/").expect(rt, "memory");
    for byte in 0..128u8 {
        text.push(byte as char).expect(rt, "memory");
    }
    path_of(rt, alloc, text.as_str())
}

static IN_ASCII: [(&str, &str); 7] = [
    (r"^[\x00-\x7f]{129}$", "found"),
    (r"[^\x00-\x7f]", "none"),
    ("-./0", "found"),
    ("^.*$", "none"),
    ("(?s)^.*$", "found"),
    (r"/[[:cntrl:]]{32}[[:punct:] ]", "found"),
    ("[[:cntrl:]]{33}", "none"),
];

/// The pattern of one character, by its number.
fn escape(rt: &impl Abort, alloc: Global, byte: u8) -> String {
    format!(in alloc; r"\x{{{byte:x}}}").expect(rt, "memory")
}

/// Whether the character of a number is found in the path, by that number.
fn escaped_word(rt: &impl Abort, alloc: Global, byte: u8, path: &CanonPath) -> &'static str {
    let pattern = escape(rt, alloc, byte);
    match_word(rt, alloc, pattern.as_str(), path)
}

#[test]
fn each_ascii_character_is_found_by_its_number(rt: HostRuntime) {
    let alloc = rt.alloc();
    let path = ascii_path(&rt, alloc);
    for (pattern, want) in &IN_ASCII {
        let word = match_word(&rt, alloc, pattern, &path);
        assert!(rt; word == *want, "{pattern}: {word}");
    }
    for byte in 0..128 {
        let word = escaped_word(&rt, alloc, byte, &path);
        assert!(rt; word == "found", "{byte}: {word}");
    }
}
