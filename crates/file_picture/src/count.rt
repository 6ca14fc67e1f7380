//! How many bytes of a file are known, or lie in ranges that are asked for.

ghost use Rattle.std.specs.Prelude.{◌≡◌, ◌+◌, ◌≤◌, ◌<◌, ◌^◌, ◌||◌, ℕ, Bool, All};
ghost use Rattle.file_picture.specs.Counts.{IsFirstRun, count_in, is_among, is_inside, is_known_or, is_known_or_among, is_unknown};

use crate::picture::Picture;
use crate::view::Need;

/// How many bytes of a range aren't known.
#[tactic(auto, using(crate::proofs::CountLemmas::gap_counts, crate::proofs::CountLemmas::covered_none))]
fn unknown_in(picture: &Picture, at: u64, len: u64) -> u64
    requires { at + len ≤ picture.now.size }
    ensures value { result ≡ count_in (is_unknown picture.now) at len }
    ensures small { result ≤ len }
{
    // For its clause: a place of the file fits.
    let _size = picture.size();
    let end = at + len;
    let mut from = at;
    let mut sum = 0;
    while let Some(run) = picture.missing(from, end - from) {
        sum += run.1;
        from = run.0 + run.1;
    }
    sum
}

/// How many bytes are known, or lie in a range. Each piece that lies in the range is looked at once.
#[tactic(auto, using(crate::proofs::CountLemmas::known_and_asked, crate::proofs::CountLemmas::fits_size))]
pub fn known_with(picture: &Picture, at: u64, len: u64) -> u64
    requires { at + len ≤ picture.now.size }
    ensures { result ≡ count_in (is_known_or picture.now at len) 0 picture.now.size }
{
    // For its clause: the pieces of a picture neither overlap nor touch.
    let _size = picture.size();
    picture.bytes() + unknown_in(picture, at, len)
}

/// Where a range's places from one on begin and end.
fn run_from(range: &Need, place: u64) -> Option<(u64, u64)>
    requires { range.now.at + range.now.len < 2 ^ 64 }
    ensures { IsFirstRun (is_inside range.now.at range.now.len) place result }
{
    let from = range.at.max(place);
    let end = range.at + range.len;
    if from < end { Some((from, end)) } else { None }
}

/// That one of two runs which begins first.
fn earlier(one: Option<(u64, u64)>, other: Option<(u64, u64)>) -> Option<(u64, u64)>
    ensures { (is also : ℕ → Bool) → (place : ℕ) → IsFirstRun is place one → IsFirstRun also place other
        → IsFirstRun (λ q. is q || also q) place result }
{
    match (one, other) {
        (None, other) => other,
        (one, None) => one,
        (Some(a), Some(b)) => Some(if a.0 <= b.0 { a } else { b }),
    }
}

/// Where the first places of some ranges from one on begin and end.
fn next_among(ranges: &[Need], place: u64) -> Option<(u64, u64)>
    requires { All (λ r. r.at + r.len < 2 ^ 64) ranges.now }
    ensures { IsFirstRun (is_among ranges.now) place result }
{
    let mut first = None;
    for range in ranges {
        first = earlier(first, run_from(range, place));
    }
    first
}

/// How many bytes are known, or lie in one of some ranges. A byte of two of them counts once. No
/// memory is taken; each range is looked at once for each of them, and each piece once that lies in one.
#[tactic(auto, using(crate::proofs::AmongLemmas::among))]
pub fn known_with_all(picture: &Picture, ranges: &[Need]) -> u64
    requires { All (λ r. r.at + r.len ≤ picture.now.size) ranges.now }
    ensures { result ≡ count_in (is_known_or_among picture.now ranges.now) 0 picture.now.size }
{
    // For its clause: the pieces of a picture neither overlap nor touch.
    let _size = picture.size();
    let mut sum = picture.bytes();
    let mut place = 0;
    while let Some((from, end)) = next_among(ranges, place) {
        sum += unknown_in(picture, from, end - from);
        place = end;
    }
    sum
}
