//! That the answers come in their order, on the sample files.

use answer_check::{Certified, CheckFault, certify};
use row_types::{BuildId, Kind, Why};
use sample_files::{ID_A, ID_C, debug_companion, executable};
use std::alloc::AllocError;
use std::process::Abort;

/// The id of these 20 bytes.
pub fn id_of(rt: &impl Abort, bytes: &[u8]) -> BuildId {
    BuildId::new(bytes).expect(rt, "20 bytes are an id")
}

/// Checks that this is the sample program, certified for the id.
fn is_program(rt: &impl Abort, file: &Certified, id: &BuildId) {
    assert!(rt; file.kind() == Kind::Executable);
    assert!(rt; file.id() == id);
    assert!(rt; file.bytes().len() == 408);
    assert!(rt; file.section(b".text") == Some(&[0xc3]), "code is there");
}

#[test]
fn a_program_is_certified_for_its_id_and_class(rt: HostRuntime) {
    let id = id_of(&rt, &ID_C);
    let bytes = executable(rt.alloc()).expect(&rt, "memory");
    match &certify(Kind::Executable, &id, bytes) {
        Ok(file) => is_program(&rt, file, &id),
        Err(_) => panic!(rt; "the id and class are the file's"),
    }
}

/// Why these bytes are no debug file of the id.
fn refusal(
    rt: &impl Abort,
    id: &BuildId,
    bytes: Result<Vec<u8>, AllocError>,
) -> Option<CheckFault> {
    let answer = certify(Kind::Debuginfo, id, bytes.expect(rt, "memory"));
    match &answer {
        Ok(_) => None,
        Err(refused) => Some(refused.0),
    }
}

#[test]
fn other_files_are_refused_in_order(rt: HostRuntime) {
    let alloc = rt.alloc();
    let id = id_of(&rt, &ID_C);
    let other = id_of(&rt, &ID_A);
    assert!(rt; refusal(&rt, &id, debug_companion(alloc)).is_none());
    let fault = refusal(&rt, &other, debug_companion(alloc));
    assert!(rt; fault == Some(CheckFault::OtherId(id)));
    let fault = refusal(&rt, &id, b"text".to_vec(alloc));
    assert!(rt; fault == Some(CheckFault::Plain(Why::NotElf)));
    let fault = refusal(&rt, &id, executable(alloc));
    assert!(rt; matches!(fault, Some(CheckFault::OtherClass(_))));
}
