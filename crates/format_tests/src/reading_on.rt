//! Reading a file part by part, in the order in which its reader asks.

ghost use Rattle.std.specs.Prelude.{◌≡◌, ◌+◌, ◌≤◌, ℕ, List, length, IfOk};
ghost use Rattle.file_formats.specs.Parts.{IsSomePart};
ghost use Rattle.file_picture.specs.Agrees.{AsksOf};
ghost use Rattle.file_picture.specs.Passed.{HasPassed};
ghost use Rattle.file_picture.specs.Picture.{IsAdded, IsPicture, IsRangeFree, PictureFacts};
ghost use Rattle.file_picture.specs.ReadSoFar.{IsNextRead, IsReadOn, IsReadSoFar};

use crate::identities::windows::Range;
use elf_reading::{ReadingView, reading_within};
use file_picture::Picture;
use row_types::Reading;
use std::alloc::Global;
use std::process::Abort;

/// Puts a run of a file into its picture.
fn put_run(rt: &impl Abort, alloc: Global, picture: &mut Picture, file: &[u8], from: u64, run: u64)
    requires inside { from + run ≤ picture.old.size }
    requires free { IsRangeFree picture.old from run }
    ensures { (bytes : List ℕ) × (length bytes ≡ run) × IsAdded picture.old from bytes picture.new
        × IsPicture picture.new }
{
    // For its clauses: its size fits.
    let _before = picture.size();
    let part = file
        .get(from as usize..(from + run) as usize)
        .expect(rt, "a part of the file");
    let bytes = part.to_vec(alloc).expect(rt, "memory");
    let long = bytes.len() as u64 == run;
    assert!(rt; long);
    let was_put = picture.add(from, bytes).is_ok();
    assert!(rt; was_put);
    // For its clause: it is a picture still.
    let _size = picture.size();
}

/// Puts the first run that isn't there of a range of a file into its picture.
fn put_first(rt: &impl Abort, alloc: Global, picture: &mut Picture, file: &[u8], at: u64, len: u64)
    requires { at + len ≤ picture.old.size }
    ensures { (p : PictureFacts) → IsReadOn p at len picture.old → IsReadOn p at len picture.new }
{
    match picture.missing(at, len) {
        Some((from, run)) => put_run(rt, alloc, picture, file, from, run),
        None => {}
    }
}

/// Puts what isn't there of a range of a file into its picture: at most three runs.
fn put_range(rt: &impl Abort, alloc: Global, picture: &mut Picture, file: &[u8], at: u64, len: u64)
    requires { at + len ≤ picture.old.size }
    ensures { IsReadOn picture.old at len picture.new }
{
    // For its clause: it is a picture.
    let _size = picture.size();
    for _ in 0..3 {
        put_first(rt, alloc, picture, file, at, len);
    }
}

/// Reads a part of a file that may be read, where at most `limit` bytes may be known, and no section
/// before one need be looked at for a build-id.
pub fn read_part(
    rt: &impl Abort,
    alloc: Global,
    picture: &mut Picture,
    file: &[u8],
    part: Range,
    next: u64,
    limit: u64,
)
    requires asks { AsksOf IsSomePart picture.old part.0 part.1 }
    requires may { IsNextRead limit picture.old part.0 part.1 }
    requires passed { HasPassed picture.old next }
    requires read { IsReadSoFar limit picture.old }
    ensures passed { HasPassed picture.new next }
    ensures read { IsReadSoFar limit picture.new }
{
    // For its clause: it is a picture.
    let _size = picture.size();
    put_range(rt, alloc, picture, file, part.0, part.1);
}

/// What a picture says of the reading of its file, where at most `limit` bytes may be known: the next
/// part, which is read then, or the reading.
fn read_more(
    rt: &impl Abort,
    alloc: Global,
    picture: &mut Picture,
    file: &[u8],
    from: &mut u64,
    limit: u64,
) -> Result<Range, Reading>
    requires passed { HasPassed picture.old from.old }
    requires read { IsReadSoFar limit picture.old }
    ensures passed { IfOk result (λ _. HasPassed picture.new from.new) }
    ensures read { IfOk result (λ _. IsReadSoFar limit picture.new) }
{
    match reading_within(alloc, picture, *from, limit) {
        ReadingView::Need { at, len, next } => {
            read_part(rt, alloc, picture, file, (at, len), next, limit);
            *from = next;
            Ok((at, len))
        }
        ReadingView::Read(reading) => Err(reading),
        ReadingView::OutOfMemory => panic!(rt; "memory"),
    }
}

/// The reading of a file of which at most `limit` bytes are read: these parts are asked for, in this
/// order, and no others.
pub fn read_within(
    rt: &impl Abort,
    alloc: Global,
    file: &[u8],
    limit: u64,
    parts: &[Range],
) -> Reading {
    let mut picture = Picture::new(alloc, file.len() as u64);
    let mut from = 1;
    for part in parts {
        match read_more(rt, alloc, &mut picture, file, &mut from, limit) {
            Ok(range) => assert!(rt; range == *part, "{limit}"),
            Err(_) => panic!(rt; "{limit}: all is there"),
        }
    }
    match read_more(rt, alloc, &mut picture, file, &mut from, limit) {
        Ok(_) => panic!(rt; "{limit}: one part more"),
        Err(reading) => reading,
    }
}
