//! Pictures that are certified, on the sample files, whose windows are those of their description.

use crate::certificates::id_of;
use crate::identities::windows::{COMPANION, PROGRAM, Range};
use crate::pictures::fill;
use answer_check::{CheckFault, Checked, ViewFault, check_view};
use file_picture::Picture;
use row_types::{BuildId, Kind, Why};
use sample_files::{ID_A, ID_C, debug_companion, executable};
use std::alloc::{AllocError, Global};
use std::process::Abort;

/// The picture of a file that has these windows.
fn picture_of(rt: &impl Abort, alloc: Global, file: &[u8], windows: &[Range]) -> Picture {
    let mut picture = Picture::new(alloc, file.len() as u64);
    for range in windows {
        fill(rt, alloc, &mut picture, file, *range);
    }
    picture
}

/// Why the picture isn't certified, and how many bytes are known in the one that comes back.
fn fault_of(kind: Kind, id: &BuildId, picture: Picture) -> Option<(ViewFault, u64)> {
    match &check_view(kind, id, picture) {
        Ok(_) => None,
        Err(refused) => Some((refused.0, refused.1.bytes())),
    }
}

#[test]
fn each_window_is_needed_before_a_picture_is_certified(rt: HostRuntime) {
    let alloc = rt.alloc();
    let id = id_of(&rt, &ID_C);
    let file = executable(alloc).expect(&rt, "memory");
    let mut known = 0;
    for count in 0..4 {
        let (at, len) = PROGRAM[count];
        let picture = picture_of(&rt, alloc, &file, &PROGRAM[..count]);
        let need = ViewFault::Need { at, len };
        let found = fault_of(Kind::Executable, &id, picture);
        assert!(rt; found == Some((need, known)), "{count}");
        known = known.saturating_add(len);
    }
    let picture = picture_of(&rt, alloc, &file, &PROGRAM);
    assert!(rt; fault_of(Kind::Executable, &id, picture).is_none());
}

/// Checks that this is the sample program, certified for the id, with its windows and no other byte:
/// the one of its section isn't read for it.
fn is_program(rt: &impl Abort, file: &Checked, id: &BuildId) {
    assert!(rt; file.kind() == Kind::Executable);
    assert!(rt; file.id() == id);
    assert!(rt; file.picture().size() == 408);
    assert!(rt; file.picture().bytes() == 392);
    assert!(rt; file.picture().slice(112, 1).is_none(), "code isn't read");
}

/// Checks what is handed out of a certified picture.
fn is_handed_out(rt: &impl Abort, file: Checked, id: &BuildId) {
    is_program(rt, &file, id);
    assert!(rt; file.into_picture().bytes() == 392, "it comes back");
}

#[test]
fn a_certified_picture_is_handed_out(rt: HostRuntime) {
    let alloc = rt.alloc();
    let id = id_of(&rt, &ID_C);
    let file = executable(alloc).expect(&rt, "memory");
    let picture = picture_of(&rt, alloc, &file, &PROGRAM);
    match check_view(Kind::Executable, &id, picture) {
        Ok(file) => is_handed_out(&rt, file, &id),
        Err(_) => panic!(rt; "the id and class are the file's"),
    }
}

/// Why no file of the picture with these windows is a debug file of the id.
fn refusal(
    rt: &impl Abort,
    id: &BuildId,
    file: Result<Vec<u8>, AllocError>,
    windows: &[Range],
) -> Option<ViewFault> {
    let file = file.expect(rt, "memory");
    let picture = picture_of(rt, *file.allocator(), &file, windows);
    match fault_of(Kind::Debuginfo, id, picture) {
        Some((fault, _)) => Some(fault),
        None => None,
    }
}

/// All of a file of four bytes.
static TEXT: [Range; 1] = [(0, 4)];

#[test]
fn other_pictures_are_refused_in_order(rt: HostRuntime) {
    let alloc = rt.alloc();
    let id = id_of(&rt, &ID_C);
    let other = id_of(&rt, &ID_A);
    assert!(rt; refusal(&rt, &id, debug_companion(alloc), &COMPANION).is_none());
    let fault = refusal(&rt, &other, debug_companion(alloc), &COMPANION);
    assert!(rt; fault == Some(ViewFault::Check(CheckFault::OtherId(id))));
    let fault = refusal(&rt, &id, b"text".to_vec(alloc), &TEXT);
    assert!(rt; fault == Some(ViewFault::Check(CheckFault::Plain(Why::NotElf))));
    let fault = refusal(&rt, &id, executable(alloc), &PROGRAM);
    let is_other = matches!(fault, Some(ViewFault::Check(CheckFault::OtherClass(_))));
    assert!(rt; is_other, "no debug information");
}
