//! What a pattern has in front of its first star.

ghost use Rattle.std.specs.Prelude.{◌≡◌};
ghost use Rattle.glob_match.specs.Front.{MatchesFront};
ghost use Rattle.glob_match.specs.Glob.{stands_for};

use crate::matching::{ANY_CHARACTER, ANY_TEXT};

/// What came of the part of a pattern in front of its first star, or of the whole pattern where
/// it has none.
#[derive(Clone, Copy)]
pub(crate) enum Front<'a> {
    /// It fits in front of the text, and a star follows.
    Star {
        /// The pattern behind that star.
        pattern: &'a [char],
        /// The text behind what fits.
        text: &'a [char],
    },
    /// No star follows, and it fits the whole text.
    Whole,
    /// The text ends within it, so it fits at no later place either.
    Short,
    /// A character of it doesn't stand for the one in its place, or no star follows and the text goes
    /// on behind it.
    Fails,
}

/// Compares the part of a pattern in front of its first star with the front of a text.
pub(crate) fn match_front<'a>(pattern: &'a [char], text: &'a [char]) -> Front<'a>
    ensures { MatchesFront pattern.now text.now result }
{
    let (mut pattern, mut text) = (pattern, text);
    loop {
        let Some((wanted, rest)) = pattern.split_first() else {
            return if text.is_empty() {
                Front::Whole
            } else {
                Front::Fails
            };
        };
        if *wanted == ANY_TEXT {
            return Front::Star {
                pattern: rest,
                text,
            };
        }
        let Some((character, behind)) = text.split_first() else {
            return Front::Short;
        };
        if !stands_for(*wanted, *character) {
            return Front::Fails;
        }
        pattern = rest;
        text = behind;
    }
}

/// Whether a character of a pattern that is no star stands for this one.
fn stands_for(wanted: char, character: char) -> bool
    ensures { result ≡ stands_for wanted character }
{
    wanted == ANY_CHARACTER || wanted == character
}
