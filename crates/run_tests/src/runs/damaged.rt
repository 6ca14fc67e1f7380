//! What `ident` says of each front of a sample, and `sources` of a sample with a debug section that is
//! cut to each size.

ghost use Rattle.std.specs.Prelude.{◌≡◌, codes};

use crate::runs::rig::{Run, SOUND, run_all};
use row_types::{OpenWorld, Stamp};
use sample_world::Sample;
use std::alloc::Global;
use std::process::Abort;
use std::sync::Wait;
use std::thread::Threads;
use tree_trait::{Found, MemTree, Script};

/// `/w/a` with these bytes.
fn found(rt: &impl Abort, alloc: Global, bytes: &[u8]) -> Found<OpenWorld>
    ensures { result.path ≡ codes "/w/a" }
{
    let path = String::from_str(alloc, "/w/a").expect(rt, "memory");
    let stamp = Stamp {
        size: bytes.len() as u64,
        secs: 100,
        nanos: 0,
    };
    Found::new(
        path,
        stamp,
        Vec::from_slice(alloc, bytes).expect(rt, "memory"),
    )
}

/// A hand that has `/w/a` with these bytes.
fn hand_with(rt: &impl Abort, alloc: Global, bytes: &[u8]) -> MemTree<OpenWorld> {
    let files = vec![in alloc; found(rt, alloc, bytes)].expect(rt, "memory");
    let script = Script {
        stages: vec![in alloc; files].expect(rt, "memory"),
        moves: Vec::new(alloc),
        bad_calls: Vec::new(alloc),
    };
    MemTree::new(alloc, script)
}

/// Of a file of these bytes the words say this, with this status.
fn says<Rt: Threads + Wait + Sync + Abort>(
    rt: &Rt,
    alloc: Global,
    bytes: &[u8],
    words: &[&str],
    out: &[u8],
    status: u8,
) {
    let hand = hand_with(rt, alloc, bytes);
    run_all(rt, alloc, hand, &SOUND, &[Run(words, out, "", status)]);
}

/// Samples, their sizes, and what is said of each whole one.
static WHOLE: [(Sample, usize, &[u8]); 3] = [
    (
        Sample::FirstLibrary,
        488,
        b"000102030405060708090a0b0c0d0e0f10111213 both\n",
    ),
    (Sample::OtherMachine, 324, b"a0a1a2a3a4a5a6a7 debuginfo\n"),
    (
        Sample::Program,
        1016,
        b"202122232425262728292a2b2c2d2e2f30313233 both\n",
    ),
];

/// A front of a sample has no identity: one of at least four bytes begins as an ELF file.
fn is_refused<Rt: Threads + Wait + Sync + Abort>(rt: &Rt, alloc: Global, front: &[u8]) {
    let out: &[u8] = if front.len() < 4 {
        b"plain not-elf\n"
    } else {
        b"plain bad-elf\n"
    };
    says(rt, alloc, front, &["ident", "/w/a"], out, 3);
}

/// Each front of these bytes is refused, and they aren't. Gives how many fronts there are.
fn are_refused<Rt: Threads + Wait + Sync + Abort>(
    rt: &Rt,
    alloc: Global,
    bytes: &[u8],
    whole: &[u8],
) -> usize {
    for len in 0..bytes.len() {
        is_refused(rt, alloc, bytes.get(..len).expect(rt, "a front"));
    }
    says(rt, alloc, bytes, &["ident", "/w/a"], whole, 0);
    bytes.len()
}

/// How many fronts of a sample are refused, which isn't itself.
fn refused_of<Rt: Threads + Wait + Sync + Abort>(
    rt: &Rt,
    alloc: Global,
    sample: Sample,
    whole: &[u8],
) -> usize {
    let bytes = sample.bytes(alloc).expect(rt, "memory");
    are_refused(rt, alloc, bytes.as_slice(), whole)
}

#[test]
fn each_front_of_a_sample_is_refused(rt: HostRuntime) {
    for (sample, size, whole) in &WHOLE {
        let fronts = refused_of(&rt, rt.alloc(), *sample, whole);
        assert!(rt; fronts == *size, "{fronts}");
    }
}

/// The sources of the sample, and the one that is left where the name of the other is cut.
const BOTH: &[u8] = b"/w/src/inc/util.h\n/w/src/main.c\n";

const ONE: &[u8] = b"/w/src/main.c\n";

/// A section by its number, the sizes that it is cut to, from the first to the last, and the sources
/// that are left.
struct Cuts(usize, u8, u8, &'static [u8]);

/// `.debug_abbrev` is the third section, and behind it stand `.debug_info`, `.debug_line`,
/// `.debug_str`, `.debug_line_str` and `.debug_str_offsets`. The last byte of `.debug_abbrev` ends the
/// table, and isn't read.
static CUTS: [Cuts; 8] = [
    Cuts(3, 0, 10, b""),
    Cuts(3, 11, 11, BOTH),
    Cuts(4, 0, 21, b""),
    Cuts(5, 0, 68, b""),
    Cuts(6, 0, 6, b""),
    Cuts(7, 0, 12, b""),
    Cuts(7, 13, 19, ONE),
    Cuts(8, 0, 11, b""),
];

/// The sections with the sizes that they have.
static UNCUT: [Cuts; 6] = [
    Cuts(3, 12, 12, BOTH),
    Cuts(4, 22, 22, BOTH),
    Cuts(5, 69, 69, BOTH),
    Cuts(6, 7, 7, BOTH),
    Cuts(7, 20, 20, BOTH),
    Cuts(8, 12, 12, BOTH),
];

/// The sample with debug information of DWARF 5, of which a section has this size. Its section table
/// begins at 376; a header has 64 bytes, and a size stands at its byte 32. No size is above 255.
fn resized(rt: &impl Abort, alloc: Global, section: usize, size: u8) -> Vec<u8> {
    let mut bytes = Sample::Program.bytes(alloc).expect(rt, "memory");
    let place = section.saturating_mul(64).saturating_add(408);
    *bytes.get_mut(place).expect(rt, "a size") = size;
    bytes
}

/// Cuts a section to a size: these sources are left.
fn leaves<Rt: Threads + Wait + Sync + Abort>(
    rt: &Rt,
    alloc: Global,
    section: usize,
    size: u8,
    out: &[u8],
) {
    let bytes = resized(rt, alloc, section, size);
    says(rt, alloc, bytes.as_slice(), &["sources", "/w/a"], out, 0);
}

/// Cuts a section to each of these sizes, and compares. Gives how many there are.
fn leave<Rt: Threads + Wait + Sync + Abort>(rt: &Rt, alloc: Global, cuts: &Cuts) -> u64 {
    let Cuts(section, first, last, out) = cuts;
    let mut runs: u64 = 0;
    for size in *first..=*last {
        leaves(rt, alloc, *section, size, out);
        runs = runs.saturating_add(1);
    }
    runs
}

/// Makes all of these cuts. Gives how many there are.
fn all_leave<Rt: Threads + Wait + Sync + Abort>(rt: &Rt, alloc: Global, cuts: &[Cuts]) -> u64 {
    let mut runs: u64 = 0;
    for some in cuts {
        runs = runs.saturating_add(leave(rt, alloc, some));
    }
    runs
}

#[test]
fn a_debug_section_cut_to_each_size_leaves_what_can_be_read(rt: HostRuntime) {
    assert!(rt; all_leave(&rt, rt.alloc(), &CUTS) == 142);
    assert!(rt; all_leave(&rt, rt.alloc(), &UNCUT) == 6);
}
