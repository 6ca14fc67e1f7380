//! What `ident`, `sources` and `section` say of a file.

use crate::runs::hands::File::{
    self, BigEndian, Both, Companion, Cut, DwarfFive, EarlyEnd, EightAligned, Empty, Executable,
    Extended, LongestId, ManyDirectories, SecondId, TooLongId, TwoIds,
};
use crate::runs::hands::Files::One;
use crate::runs::hands::hand_of;
use crate::runs::rig::{Run, SOUND, run_all};
use std::alloc::Global;
use std::process::Abort;
use std::sync::Wait;
use std::thread::Threads;

/// A file at `/w/a`, what out and err get, and the status.
type Said = (File, &'static [u8], &'static str, u8);

/// Runs the words over each file, where nothing fails.
fn each_says<Rt: Threads + Wait + Sync + Abort>(
    rt: &Rt,
    alloc: Global,
    words: &[&str],
    cases: &[Said],
) {
    for (file, out, err, status) in cases {
        let case = Run(&*words, out, err, *status);
        run_all(
            rt,
            alloc,
            hand_of(rt, alloc, &One(*file), &[]),
            &SOUND,
            &[case],
        );
    }
}

/// Files, with the line of the identity or of why there is none. The id of 20 bytes is A.
static IDENTITIES: [Said; 10] = [
    (
        Both,
        b"000102030405060708090a0b0c0d0e0f10111213 both\n",
        "",
        0,
    ),
    (EightAligned, b"abcdef executable\n", "", 0),
    (SecondId, b"beef executable\n", "", 0),
    (
        TwoIds,
        b"000102030405060708090a0b0c0d0e0f10111213 executable\n",
        "",
        0,
    ),
    (
        LongestId,
        b"\
        1111111111111111111111111111111111111111111111111111111111111111\
        1111111111111111111111111111111111111111111111111111111111111111 executable\n",
        "",
        0,
    ),
    (Empty, b"plain not-elf\n", "", 3),
    (Cut, b"plain bad-elf\n", "", 3),
    (TooLongId, b"plain no-build-id\n", "", 3),
    (BigEndian, b"a0a1a2a3a4a5a6a7 debuginfo\n", "", 0),
    (
        Extended,
        b"000102030405060708090a0b0c0d0e0f10111213 both\n",
        "",
        0,
    ),
];

#[test]
fn an_identity_or_the_reason_is_printed(rt: HostRuntime) {
    each_says(&rt, rt.alloc(), &["ident", "/w/a"], &IDENTITIES);
}

/// Names of sections, with files that have them or haven't: of the companion, the first takes no
/// bytes in the file, the second is compressed, the third isn't there.
static SECTIONS: [(&str, Said); 7] = [
    (".text", (Companion, b"", "dbgd: no section\n", 3)),
    (".debug_zz", (Companion, b"", "dbgd: no section\n", 3)),
    (".debug_line", (Companion, b"", "dbgd: no section\n", 3)),
    (".text", (Executable, b"\xc3", "", 0)),
    (
        ".shstrtab",
        (
            Executable,
            b"\0.note.gnu.build-id\0.text\0.shstrtab\0",
            "",
            0,
        ),
    ),
    (".debug_info", (Both, b"", "", 0)),
    (".text", (TooLongId, b"", "dbgd: plain no-build-id\n", 3)),
];

#[test]
fn a_section_is_written_as_it_stands(rt: HostRuntime) {
    for (name, case) in &SECTIONS {
        each_says(&rt, rt.alloc(), &["section", "/w/a", *name], &[*case]);
    }
}

/// Files, with the source paths that they name: of a line table that can't be read none, and none of
/// a file without debug information. The paths are those that the sample's line table lists.
static PATHS_OF: [Said; 7] = [
    (DwarfFive, b"/w/src/inc/util.h\n/w/src/main.c\n", "", 0),
    (ManyDirectories, b"", "", 0),
    (EarlyEnd, b"", "", 0),
    (Executable, b"", "", 0),
    (Empty, b"", "dbgd: plain not-elf\n", 3),
    (Cut, b"", "dbgd: plain bad-elf\n", 3),
    (TooLongId, b"", "dbgd: plain no-build-id\n", 3),
];

#[test]
fn the_source_paths_are_printed(rt: HostRuntime) {
    each_says(&rt, rt.alloc(), &["sources", "/w/a"], &PATHS_OF);
}

/// Words over a file with an identity that has no bytes of debug information, and what they say.
static WINDOWS_ALONE: [(&[&str], &[u8]); 3] = [
    (
        &["ident", "/w/a"],
        b"000102030405060708090a0b0c0d0e0f10111213 both\n",
    ),
    (&["sources", "/w/a"], b""),
    (&["section", "/w/a", ".debug_info"], b""),
];

#[test]
fn nothing_is_read_but_what_the_answer_rests_on(rt: HostRuntime) {
    for (words, out) in &WINDOWS_ALONE {
        // The opening and the reads of four windows are calls 0 to 4.
        let hand = hand_of(&rt, rt.alloc(), &One(Both), &[5]);
        let case = Run(words, out, "", 0);
        run_all(&rt, rt.alloc(), hand, &SOUND, &[case]);
    }
}

/// Words that name a file which isn't there.
static GONE: [(&[&str], &str); 3] = [
    (&["ident", "w//b"], "dbgd: gone w//b\n"),
    (&["section", "/b", ".text"], "dbgd: gone /b\n"),
    (&["sources", "/w/a/"], "dbgd: gone /w/a/\n"),
];

#[test]
fn a_file_that_is_gone_is_said(rt: HostRuntime) {
    for (words, line) in &GONE {
        each_says(&rt, rt.alloc(), words, &[(Both, b"", *line, 3)]);
    }
}
