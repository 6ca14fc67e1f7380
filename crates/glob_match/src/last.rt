//! What a pattern has behind its last star.

ghost use Rattle.std.specs.Prelude.{◌≡◌, ◌++◌, MatchOption};
ghost use Rattle.glob_match.specs.Last.{EndsIn, HasNoEnd, HasNoStar};

use crate::front::{Front, match_front};
use crate::matching::ANY_TEXT;

/// A pattern up to its last star, with it, and what stands behind: all of it where it has none.
pub(crate) fn split_last(pattern: &[char]) -> (&[char], &[char])
    ensures whole { pattern.now ≡ result.0.now ++ result.1.now }
    ensures last { HasNoStar result.1.now }
{
    let mut at = pattern.len();
    while at > 0 && pattern[at - 1] != ANY_TEXT {
        at -= 1;
    }
    pattern.split_at(at)
}

/// The text in front of its end that a part without a star matches, if there is one. It can stand at
/// one place alone.
pub(crate) fn strip_last<'a>(part: &[char], text: &'a [char]) -> Option<&'a [char]>
    requires { HasNoStar part.now }
    ensures { MatchOption result (HasNoEnd part.now text.now) (λ front. EndsIn part.now text.now front.now) }
{
    if text.len() < part.len() {
        return None;
    }
    let (front, end) = text.split_at(text.len() - part.len());
    match match_front(part, end) {
        Front::Whole => Some(front),
        _ => None,
    }
}
