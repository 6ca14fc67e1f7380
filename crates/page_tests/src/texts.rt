//! Texts that tell of files.

use metadata_text::{FileClass, FoundFile, metadata_text};
use std::alloc::Global;
use std::process::Abort;

/// A file: the digits of its build-id, its path, and its class.
struct File(&'static str, &'static str, FileClass);

/// A file with its own texts.
fn found(rt: &impl Abort, alloc: Global, file: &File) -> FoundFile {
    FoundFile {
        build_id: String::from_str(alloc, file.0).expect(rt, "memory"),
        file: String::from_str(alloc, file.1).expect(rt, "memory"),
        class: file.2,
    }
}

/// The text that tells of files.
fn text_of(rt: &impl Abort, alloc: Global, complete: bool, files: &[File]) -> String {
    let mut all = Vec::new(alloc);
    for file in files {
        all.push(found(rt, alloc, file)).expect(rt, "memory");
    }
    metadata_text(alloc, complete, all.as_slice()).expect(rt, "memory")
}

/// Files, and what is told of them.
static TOLD: [(bool, &[File], &str); 4] = [
    (true, &[], r#"{"complete":true,"results":[]}"#),
    (false, &[], r#"{"complete":false,"results":[]}"#),
    (
        true,
        &[
            File(
                "202122232425262728292a2b2c2d2e2f30313233",
                "/srv/bin/tool",
                FileClass::Executable,
            ),
            File(
                "202122232425262728292a2b2c2d2e2f30313233",
                "/srv/debug/tool.debug",
                FileClass::Debuginfo,
            ),
        ],
        r#"{"complete":true,"results":[{"buildid":"202122232425262728292a2b2c2d2e2f30313233","file":"/srv/bin/tool","type":"executable"},{"buildid":"202122232425262728292a2b2c2d2e2f30313233","file":"/srv/debug/tool.debug","type":"debuginfo"}]}"#,
    ),
    (
        false,
        &[File(
            "a0a1",
            "/\"\\/\u{8}\u{9}\u{a}\u{c}\u{d}\u{1}\u{b}\u{1f} \u{7f}é\u{2028}𝄞",
            FileClass::Debuginfo,
        )],
        "{\"complete\":false,\"results\":[{\"buildid\":\"a0a1\",\"file\":\"/\\\"\\\\/\\b\\t\\n\\f\\r\\u0001\\u000b\\u001f \u{7f}é\u{2028}𝄞\",\"type\":\"debuginfo\"}]}",
    ),
];

// The expected texts are those of `json.dumps` of Python 3.11, without blanks and with letters outside ASCII
// as they stand.
#[test]
fn texts_are_written_as_elsewhere(rt: HostRuntime) {
    for (complete, files, wanted) in &TOLD {
        let text = text_of(&rt, rt.alloc(), *complete, *files);
        assert!(rt; text.as_str() == *wanted, "{text}");
    }
}
