//! The patterns of a scan or a server.

ghost use Rattle.std.specs.Prelude.{◌≡◌};
ghost use Rattle.clap.specs.Matches.{found_of};
ghost use Rattle.clap.specs.Walk.{rows_of};
ghost use Rattle.dbgd_words.specs.Patterns.{pattern_texts, patterns_in};

use crate::arguments::text_of;
use clap::ArgMatches;

/// The texts of two patterns, by which files are selected. Each may be absent, and an empty text is
/// one. Nothing is read in them here.
#[derive(Clone, Copy, Debug, PartialEq, Eq)]
pub struct Patterns<'a> {
    /// A file is selected only where this one has a match.
    pub include: Option<&'a str>,
    /// No file is selected where this one has a match.
    pub exclude: Option<&'a str>,
}

/// The patterns that the arguments give.
pub fn patterns_of<'a>(matches: &ArgMatches<'a>) -> Patterns<'a>
    ensures { pattern_texts result ≡ patterns_in (rows_of (found_of matches.now)) }
{
    let include = text_of(matches, "include");
    let exclude = text_of(matches, "exclude");
    Patterns { include, exclude }
}
