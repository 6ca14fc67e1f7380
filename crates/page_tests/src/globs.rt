//! Texts that match patterns.

use glob_match::{ANY_CHARACTER, ANY_TEXT, is_glob_match};
use std::alloc::Global;
use std::process::Abort;

/// The letters of generated patterns and texts.
static LETTERS: [char; 4] = ['a', 'b', '*', '?'];

/// How many words of these letters there are, by their length.
static WORDS: [u32; 7] = [1, 4, 16, 64, 256, 1024, 4096];

/// The letters of a word, which are the digits of its number to the base 4.
fn letters_of(number: u32) -> [char; 6] {
    let digit = |place: u32| LETTERS[(number / place % 4) as usize];
    [
        digit(1),
        digit(4),
        digit(16),
        digit(64),
        digit(256),
        digit(1024),
    ]
}

/// Whether a text matches, by the definition as it stands: behind a star each end of the text is tried.
fn matches_plainly(pattern: &[char], text: &[char]) -> bool {
    let Some((wanted, rest)) = pattern.split_first() else {
        return text.is_empty();
    };
    if *wanted == ANY_TEXT && matches_plainly(rest, text) {
        return true;
    }
    let Some((character, behind)) = text.split_first() else {
        return false;
    };
    if *wanted == ANY_TEXT {
        return matches_plainly(pattern, behind);
    }
    (*wanted == ANY_CHARACTER || *wanted == *character) && matches_plainly(rest, behind)
}

/// How many words match a pattern.
fn count_matches(rt: &impl Abort, pattern: &[char]) -> u64 {
    let mut count: u64 = 0;
    for length in 0..7_usize {
        for number in 0..WORDS[length] {
            let letters = letters_of(number);
            let text = &letters[..length];
            let matches = is_glob_match(pattern, text);
            assert!(rt;
                matches == matches_plainly(pattern, text),
                "{number} at {pattern:?}"
            );
            if matches {
                count = count.saturating_add(1);
            }
        }
    }
    count
}

// How many of these pairs match was counted by the regular expressions of Python 3.11: `.*` for a star, `.`
// for a question mark.
#[test]
fn each_short_text_matches_as_defined(rt: HostRuntime) {
    let mut count: u64 = 0;
    for length in 0..7_usize {
        for number in 0..WORDS[length] {
            let letters = letters_of(number);
            count = count.saturating_add(count_matches(&rt, &letters[..length]));
        }
    }
    assert!(rt; count == 2_934_891, "{count}");
}

/// A text of characters: what stands in front, a part that stands so many times, and what stands behind.
#[derive(Clone, Copy)]
struct Long(&'static str, &'static str, usize, &'static str);

/// The characters of a long text.
fn long_text(rt: &impl Abort, alloc: Global, long: Long) -> Vec<char> {
    let mut text = Vec::new(alloc);
    push_text(rt, &mut text, long.0);
    for _ in 0..long.2 {
        push_text(rt, &mut text, long.1);
    }
    push_text(rt, &mut text, long.3);
    text
}

/// Adds the characters of a text.
fn push_text(rt: &impl Abort, text: &mut Vec<char>, more: &str) {
    for character in more.chars() {
        text.push(character).expect(rt, "memory");
    }
}

/// Whether a long text matches a long pattern.
fn long_matches(rt: &impl Abort, alloc: Global, pattern: Long, text: Long) -> bool {
    let pattern = long_text(rt, alloc, pattern);
    let text = long_text(rt, alloc, text);
    is_glob_match(pattern.as_slice(), text.as_slice())
}

/// Patterns of up to 4,097 characters, texts, and whether they match.
static LONG: [(Long, Long, bool); 16] = [
    (Long("", "*", 4096, ""), Long("", "a", 4096, ""), true),
    (Long("", "*", 4096, ""), Long("", "", 0, ""), true),
    (Long("", "*", 4095, "b"), Long("", "a", 4096, ""), false),
    (Long("", "?", 4096, ""), Long("", "a", 4096, ""), true),
    (Long("", "?", 4096, ""), Long("", "é", 4095, "𝄞"), true),
    (Long("", "?", 4096, ""), Long("", "a", 4095, ""), false),
    (Long("", "?", 4096, ""), Long("", "a", 4097, ""), false),
    (Long("*", "?", 4095, ""), Long("", "a", 4096, ""), true),
    (Long("", "*a", 2048, ""), Long("", "a", 4096, ""), true),
    (Long("", "*a", 2048, "b"), Long("", "a", 4096, ""), false),
    (Long("", "*a", 2048, "*"), Long("", "a", 2047, ""), false),
    (Long("*", "a", 2046, "b"), Long("", "a", 4096, ""), false),
    (Long("*", "a", 2046, "b*"), Long("", "a", 4096, ""), false),
    (Long("*", "a", 2046, "b*"), Long("", "a", 4095, "b"), true),
    (Long("*", "?", 2046, "b*"), Long("", "a", 4096, ""), false),
    (Long("*", "a", 2046, "*b"), Long("", "a", 2046, "b"), true),
];

#[test]
fn long_patterns_match_long_texts(rt: HostRuntime) {
    for (place, (pattern, text, wanted)) in LONG.iter().enumerate() {
        let matches = long_matches(&rt, rt.alloc(), *pattern, *text);
        assert!(rt; matches == *wanted, "line {place}");
    }
}

/// Patterns, texts, and whether they match.
static NAMES: [(&str, &str, bool); 16] = [
    ("", "", true),
    ("", "a", false),
    ("/usr/lib/*", "/usr/lib/", true),
    ("/usr/lib/*", "/usr/lib/debug/x", true),
    ("/usr/lib/*", "/usr/lib", false),
    ("/usr/lib/*", "/srv/usr/lib/x", false),
    ("lib", "lib", true),
    ("lib", "/usr/lib", false),
    ("*lib*", "/usr/lib/x", true),
    ("*.debug", "/w/tool.debug", true),
    ("*.debug", "/w/tool.debug.gz", false),
    ("/w/*/t?ol", "/w/a/b/tool", true),
    ("/w/*/t?ol", "/w/tool", false),
    ("/?", "/é", true),
    ("/?", "/", false),
    ("*", "/", true),
];

// The answers are those of fnmatch(3) of glibc 2.36, with no flags, in the locale C.UTF-8.
#[test]
fn paths_match_as_names_of_files_do(rt: HostRuntime) {
    for (pattern, text, wanted) in &NAMES {
        let matches = long_matches(
            &rt,
            rt.alloc(),
            Long(*pattern, "", 0, ""),
            Long(*text, "", 0, ""),
        );
        assert!(rt; matches == *wanted, "{pattern} {text}");
    }
}
