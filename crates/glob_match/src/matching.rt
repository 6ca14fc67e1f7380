//! Whether a text matches a glob pattern.

ghost use Rattle.std.specs.Prelude.{◌≡◌, ◌∷◌};
ghost use Rattle.glob_match.specs.Glob.{is_glob_match};
ghost use Rattle.glob_match.specs.Laws.{GlobLaws};

use crate::front::{Front, match_front};
use crate::last::{split_last, strip_last};

/// What stands for any text, the empty one included.
pub const ANY_TEXT: char = '*';

/// What stands for any one character.
pub const ANY_CHARACTER: char = '?';

/// Whether a whole text matches a pattern. No memory is taken. What stands between two stars is compared
/// at the places of the text one after the other, and where it fits, the text in front of its end isn't
/// looked at again: at most the pattern's characters times the text's are compared.
#[tactic(auto, using(crate::proofs::LawLemmas::glob_laws, crate::proofs::PartLemmas::short_fails))]
pub fn is_glob_match(pattern: &[char], text: &[char]) -> bool
    ensures value { result ≡ is_glob_match pattern.now text.now }
    ensures laws { GlobLaws }
{
    match match_front(pattern, text) {
        Front::Star { pattern, text } => matches_behind(pattern, text),
        Front::Whole => true,
        Front::Short => false,
        Front::Fails => false,
    }
}

/// Whether a whole text matches a star and a pattern behind it.
fn matches_behind(pattern: &[char], text: &[char]) -> bool
    ensures { result ≡ is_glob_match (ANY_TEXT ∷ pattern.now) text.now }
{
    let (parts, last) = split_last(pattern);
    match strip_last(last, text) {
        Some(front) => matches_parts(parts, front),
        None => false,
    }
}

/// Whether a whole text matches a star and a pattern behind it, part by part: of the places at which a
/// part fits the first one decides.
fn matches_parts(pattern: &[char], text: &[char]) -> bool
    ensures { result ≡ is_glob_match (ANY_TEXT ∷ pattern.now) text.now }
{
    let (mut pattern, mut text) = (pattern, text);
    while !pattern.is_empty() {
        match match_front(pattern, text) {
            Front::Whole => return true,
            Front::Star {
                pattern: rest,
                text: behind,
            } => {
                pattern = rest;
                text = behind;
            }
            Front::Short => return false,
            Front::Fails => match text.split_first() {
                Some((_, behind)) => text = behind,
                None => return false,
            },
        }
    }
    true
}
