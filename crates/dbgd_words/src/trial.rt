//! The words of `trial`.

ghost use Rattle.std.specs.Prelude.{◌≡◌, map};
ghost use Rattle.std.specs.String.{string_bytes};
ghost use Rattle.dbgd_words.specs.Lines.{asked_by};
ghost use Rattle.dbgd_words.specs.Words.{trial_asked, trial_words};

use crate::line::Line;
use crate::number::number_in;
use crate::scan::MOST_WORKERS;

/// The most files that a trial may have.
pub const MOST_FILES: u64 = 100_000;

/// What three texts ask.
fn trial_of<'a>(seed: &str, files: &str, workers: &str) -> Line<'a>
    ensures { asked_by result ≡ trial_asked seed.now files.now workers.now }
{
    let Some(seed) = number_in(seed, 0, u64::MAX) else {
        return Line::Usage;
    };
    let Some(files) = number_in(files, 1, MOST_FILES) else {
        return Line::Usage;
    };
    let Some(workers) = number_in(workers, 1, MOST_WORKERS) else {
        return Line::Usage;
    };
    Line::Trial {
        seed,
        files,
        workers,
    }
}

/// Reads the words of `trial`.
pub fn trial(words: &[String]) -> Line<'_>
    ensures { asked_by result ≡ trial_words (map string_bytes words.now) }
{
    match words {
        [seed, files, workers] => trial_of(seed.as_str(), files.as_str(), workers.as_str()),
        _ => Line::Usage,
    }
}
